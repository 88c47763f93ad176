// The confinement test, document 01: which objects a newly loaded subsystem can ever influence.
#![tactic(auto)]

use bounds::{EntryList, Grown, ShortList};
use table::Table;

pub mod checks; // checks.rt: what turns the test down

ghost use Rattle.std.specs.Prelude.{◌≡◌, Err, MatchResult};
ghost use Rattle.bounds.specs.StandIn.{entries_of};
ghost use Rattle.confinement.specs.Tests.{test_of};
ghost use Rattle.confinement.specs.Helpers.{IsAdmitted};

// Why the test was refused.
#[derive(Debug, Clone, Copy, PartialEq, Eq)]
pub enum TestRefusal {
    TableUnsound,
    MembersInvalid,
    ListInvalid,
    RightUnlisted,
    MemberHeld,
}

// What rows 1, 10 and 11 let pass: the born non-members, and the list, which is not too long.
#[derive(Clone, Copy)]
pub struct Admitted {
    pub outside: u64,
    pub list: ShortList,
}

// Refusals 1, 10 and 11, in this order.
// Inlined, so that a test takes no further copy of the table on the stack.
#[inline(always)]
pub fn admit(t: &Table, members: u64, list: EntryList) -> Result<Admitted, TestRefusal>
    ensures { MatchResult result (IsAdmitted t.now members list) (λ why. Err why ≡ test_of t.now members (entries_of list)) }
{
    if !table::is_sound(*t) {
        return Err(TestRefusal::TableUnsound);
    }
    if checks::members_bad(*t, members) {
        return Err(TestRefusal::MembersInvalid);
    }
    let outside = access::start::born_outside(t.records, members);
    if checks::list_bad(outside, list) {
        return Err(TestRefusal::ListInvalid);
    }
    let short = ShortList { list };
    Ok(Admitted {
        outside,
        list: short,
    })
}

// The test: refusals 1, 10, 11, 12 and 13 in this order, then the bound and the number of rounds that added an object to it.
pub fn test(t: Table, members: u64, list: EntryList) -> Result<Grown, TestRefusal>
    ensures { result ≡ test_of t members (entries_of list) }
{
    let admitted = admit(&t, members, list)?;
    if checks::right_unlisted(t, members, admitted.list) {
        return Err(TestRefusal::RightUnlisted);
    }
    if checks::member_held(t, members) {
        return Err(TestRefusal::MemberHeld);
    }
    Ok(bounds::bound(t, members, admitted.list, admitted.outside))
}
