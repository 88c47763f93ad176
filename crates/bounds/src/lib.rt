// The bound, document 01: the non-members that the stand-in influences. The stand-in sits at the lowest member's number and holds
// exactly the list; no byte of a member enters it. It grows by rounds along links, and these are counted (document 02, 2.6).
#![tactic(auto)]

ghost use Rattle.std.specs.Prelude.{◌≡◌, ◌≤◌, ◌<◌};
ghost use Rattle.access.specs.Answers.{born_outside};
ghost use Rattle.links.specs.Links.{link_words, slot_holding, joined, entry_link};
ghost use Rattle.bounds.specs.StandIn.{entries_of, stand_in};
ghost use Rattle.bounds.specs.Helpers.{bound_grown};

use table::{Capability, Table};

// A list of `count` entries (target, rights). A count above 8 is a list too long; entries at or after the count are no
// part of it.
// Stays: what may not change, that a list too long can be said (refusal 11, `bad_list`); and the memory is fixed.
#[repr(C)]
#[derive(Clone, Copy)]
pub struct EntryList {
    pub count: u8,
    pub entries: [Capability; 8],
}

// A list that is not too long: what row 11 lets pass.
#[derive(Clone, Copy)]
pub struct ShortList {
    pub list: EntryList,
    pub ghost short: { list.count ≤ 8 },
}

// The lowest number of a set, 64 if it has none.
pub fn lowest(set: u64) -> usize
    ensures { result ≡ stand_in set }
{
    set.trailing_zeros() as usize
}

// The links of a test: those between the born non-members, `outside`, and those of the list, which the stand-in holds at x.
pub fn test_links(t: Table, l: ShortList, outside: u64, x: u8) -> [u64; 64]
    requires { x < 64 }
    ensures { result ≡ joined (link_words (slot_holding t.slots outside)) (entry_link l.list.entries l.list.count outside x) }
{
    let slots = t.slots;
    let entries = l.list.entries;
    let count = l.list.count as usize;
    let held = links::slot_links(slots, outside);
    links::with_entries(held, entries, count, outside, x)
}

// The bound and the rounds that it grew by.
#[derive(Clone, Copy)]
pub struct Grown {
    pub bound: u64,
    pub rounds: u8,
}

// The bound; `outside` are the born non-members. The stand-in alone is there before the first round.
pub fn bound(t: Table, members: u64, l: ShortList, outside: u64) -> Grown
    requires { (stand_in members < 64) × (outside ≡ born_outside t.records members) }
    ensures { result ≡ bound_grown t members (entries_of l.list) }
{
    let x = lowest(members) as u8;
    let words = test_links(t, l, outside, x);
    let spread = links::reach(&words, x);
    let objects = mask::less(spread.set, members);
    Grown {
        bound: objects,
        rounds: spread.rounds,
    }
}
