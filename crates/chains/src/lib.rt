// The chain of links that brings an object into the bound, document 02, 2.1: "give a shortest chain of links from the stand-in to it".
#![tactic(auto)]

ghost use Rattle.std.specs.Prelude.{◌≡◌, true};
ghost use Rattle.access.specs.Answers.{born_outside};
ghost use Rattle.bounds.specs.StandIn.{entries_of, stand_in};
ghost use Rattle.confinement.specs.Refusals.{verdict_of};
ghost use Rattle.confinement.specs.Tests.{is_accepted};
ghost use Rattle.chains.specs.declared.ChainRefusal.TheVariants.{TestRefused};
ghost use Rattle.chains.specs.Answers.{chain_of};
ghost use Rattle.chains.specs.Helpers.{chain_words, less_words};

use bounds::{EntryList, ShortList};
use confinement::TestRefusal;
use table::Table;
use walks::Walked;

// Why no chain is shown: why the test was refused, or what is wrong with the object.
#[derive(Debug, Clone, Copy, PartialEq, Eq)]
pub enum ChainRefusal {
    TestRefused(TestRefusal),
    ObjectInvalid,
    OutsideBound,
}

impl From<TestRefusal> for ChainRefusal {
    ghost from_gives = { λ why e. e ≡ TestRefused why };

    fn from(why: TestRefusal) -> ChainRefusal {
        ChainRefusal::TestRefused(why)
    }
}

// The words without the members.
fn less_words(mut words: [u64; 64], members: u64) -> [u64; 64]
    ensures { result ≡ less_words words members }
{
    for w in words.iter_mut() {
        *w = mask::less(*w, members);
    }
    words
}

// The links to objects, for an accepted test; `outside` are the born non-members, x is the stand-in's number.
fn chain_links(t: Table, members: u64, l: EntryList, outside: u64, x: u8) -> [u64; 64]
    requires { (is_accepted (verdict_of t members (entries_of l)) ≡ true) × (outside ≡ born_outside t.records members) × (x ≡ stand_in members) }
    ensures { result ≡ chain_words t members (entries_of l) }
{
    let short = ShortList { list: l };
    let words = bounds::test_links(t, short, outside, x);
    less_words(words, members)
}

// The chain to an object: the test's own refusals, then 18, then 19. Its numbers are in turn, the stand-in left out.
pub fn chain(t: Table, members: u64, list: EntryList, object: u8) -> Result<Walked, ChainRefusal>
    ensures { result ≡ chain_of t members (entries_of list) object }
{
    let tested = confinement::test(t, members, list)?;
    let records = t.records;
    let outside = access::start::born_outside(records, members);
    if !mask::has(outside, object) {
        return Err(ChainRefusal::ObjectInvalid);
    }
    if !mask::has(tested.bound, object) {
        return Err(ChainRefusal::OutsideBound);
    }
    let x = bounds::lowest(members) as u8;
    let words = chain_links(t, members, list, outside, x);
    Ok(walks::least(&words, x, object))
}
