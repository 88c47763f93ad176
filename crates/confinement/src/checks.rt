// What turns the confinement test down, document 01, rows 10 to 13; row 12 as 2.3 of document 02 amends it.
ghost use Rattle.std.specs.Prelude.{◌≡◌, not, ◌||◌};
ghost use Rattle.mask.specs.Sets.{has};
ghost use Rattle.bounds.specs.StandIn.{entries_of};
ghost use Rattle.confinement.specs.Refusals.{bad_members, passes, bad_held, member_held};
ghost use Rattle.confinement.specs.Helpers.{entry_refused, list_refused, listed_rights, slot_unlisted, slot_names_member};

use bounds::{EntryList, ShortList};
use table::{Capability, Table};

// Row 10: no member, or one that is not alive.
pub fn members_bad(t: Table, members: u64) -> bool
    ensures { result ≡ bad_members t members }
{
    for (n, record) in t.records.iter().enumerate() {
        if mask::has(members, n as u8) & (record.status != 1) {
            return true;
        }
    }
    members == 0
}

// Row 11 for one entry.
pub fn entry_bad(outside: u64, e: Capability) -> bool
    ensures { result ≡ entry_refused outside e }
{
    (e.rights == 0) | (15 < e.rights) | !mask::has(outside, e.target)
}

// Row 11, by the set of born non-members.
pub fn list_bad(outside: u64, l: EntryList) -> bool
    ensures { result ≡ list_refused outside (entries_of l) }
{
    if 8 < l.count {
        return true;
    }
    for e in &l.entries[..l.count as usize] {
        if entry_bad(outside, *e) {
            return true;
        }
    }
    false
}

// The rights that the list has for a target: the union over its entries.
pub fn listed_for(l: ShortList, target: u8) -> u64
    ensures { result ≡ listed_rights (entries_of l.list) target }
{
    let mut found: u64 = 0;
    for e in &l.list.entries[..l.list.count as usize] {
        if e.target == target {
            found = mask::union(found, e.rights as u64);
        }
    }
    found
}

// Is right b absent, or among the listed ones?
pub fn covered(rights: u8, listed: u64, b: u8) -> bool
    ensures { result ≡ (not (has b rights) || has b listed) }
{
    !mask::has(rights as u64, b) | mask::has(listed, b)
}

// Does this capability of a member pass? Its rights are exactly wk, or each of them is listed for its target.
pub fn passes(l: ShortList, c: Capability) -> bool
    ensures { result ≡ passes (entries_of l.list) c }
{
    let found = listed_for(l, c.target);
    let rights = c.rights;
    (rights == 4)
        | (covered(rights, found, 0)
            & covered(rights, found, 1)
            & covered(rights, found, 2)
            & covered(rights, found, 3))
}

// Row 12 at a slot of n.
pub fn slot_unlisted(members: u64, l: ShortList, n: u8, c: Capability) -> bool
    ensures { result ≡ slot_unlisted members (entries_of l.list) n c }
{
    if !mask::has(members, n) {
        return false;
    }
    if mask::has(members, c.target) {
        return false;
    }
    !passes(l, c)
}

// Row 12: a member's capability to a non-member has a right not listed for it, and its rights are not exactly wk.
pub fn right_unlisted(t: Table, members: u64, l: ShortList) -> bool
    ensures { result ≡ bad_held t members (entries_of l.list) }
{
    for (k, c) in t.slots.iter().enumerate() {
        if slot_unlisted(members, l, (k / 8) as u8, *c) {
            return true;
        }
    }
    false
}

// Row 13 at a slot of n.
pub fn slot_names_member(members: u64, n: u8, c: Capability) -> bool
    ensures { result ≡ slot_names_member members n c }
{
    !mask::has(members, n) & (!c.is_empty() & mask::has(members, c.target))
}

// Row 13: a non-member, passive ones too, holds a capability naming a member.
pub fn member_held(t: Table, members: u64) -> bool
    ensures { result ≡ member_held t members }
{
    for (k, c) in t.slots.iter().enumerate() {
        if slot_names_member(members, (k / 8) as u8, *c) {
            return true;
        }
    }
    false
}
