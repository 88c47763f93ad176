// The confinement test by groups, document 02, 2.9: the answer of the test, by a shorter way. Its bound is the bound by groups; it is found,
// with its rounds, in one walk along links that takes each object's links once, so that no group is made apart.
#![tactic(auto)]

ghost use Rattle.std.specs.Prelude.{◌≡◌, ◌<◌};
ghost use Rattle.bounds.specs.StandIn.{entries_of};
ghost use Rattle.confinement.specs.Refusals.{bad_held};
ghost use Rattle.confinement.specs.Tests.{test_of};
ghost use Rattle.group_tests.specs.Helpers.{grown_along};

use bounds::{EntryList, Grown, ShortList};
use confinement::TestRefusal;
use table::Table;

// Row 12, member by member. What has no rights or exactly wk passes.
fn right_unlisted(t: Table, members: u64, l: ShortList) -> bool
    ensures { result ≡ bad_held t members (entries_of l.list) }
{
    'members: for n in sweeps::each(members) {
        let first = (n as usize) * 8;
        'slots: for c in &t.slots[first..first + 8] {
            if (c.rights != 0) & (c.rights != 4) {
                if confinement::checks::slot_unlisted(members, l, n, *c) {
                    return true;
                }
            }
        }
    }
    false
}

// The bound and its rounds, along what non-members hold and what is listed.
fn grown(joins: [u64; 64], members: u64, l: ShortList, outside: u64) -> Grown
    requires { 0 < members }
    ensures { result ≡ grown_along joins members l.list outside }
{
    let x = sweeps::lowest(members);
    let entries = l.list.entries;
    let count = l.list.count as usize;
    let words = links::with_entries(joins, entries, count, outside, x);
    let spread = sweeps::spread(&words, x);
    let objects = mask::less(spread.set, members);
    Grown {
        bound: objects,
        rounds: spread.rounds,
    }
}

// The test: refusals 1, 10, 11, 12 and 13 in this order, then the bound and the rounds that it grew by.
pub fn test(t: Table, members: u64, list: EntryList) -> Result<Grown, TestRefusal>
    ensures { result ≡ test_of t members (entries_of list) }
{
    let admitted = confinement::admit(&t, members, list)?;
    let outside = admitted.outside;
    if right_unlisted(t, members, admitted.list) {
        return Err(TestRefusal::RightUnlisted);
    }
    let slots = t.slots;
    let mut joins = [0u64; 64];
    let mut over = [0u64; 64];
    if held::held_words(slots, outside, true, &mut joins, &mut over) {
        return Err(TestRefusal::MemberHeld);
    }
    Ok(grown(joins, members, admitted.list, outside))
}
