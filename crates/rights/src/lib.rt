// What rights are worth, document 01: a row for each of the sixteen values (02, 2.5). docs/RIGHTS.md has the same rows on paper.
#![tactic(auto)]

ghost use Rattle.std.specs.Prelude.{◌≡◌};
ghost use Rattle.rights.specs.Rows.{worth_of, need_met, weaken as weakened};

use table::Capability;

// The rights that weakening leaves: wk, or none, and then the copy is empty.
const WK: u8 = 4;

const EMPTY: u8 = 0;

// The right that a request needs on the slot that it uses.
#[derive(Debug, Clone, Copy, PartialEq, Eq)]
pub enum Need {
    ReadOrWeak,
    Write,
    Send,
}

// What one value is worth: the rights that weakening leaves of it; may it read and fetch; may it write, store, revoke, destroy and reclaim;
// may it send.
// Stays: the columns have no names, so that a row is one line here, in the definition `rows` and on the sheet docs/RIGHTS.md, with the
// columns in the same order; tools/row-edits and model/tools/src/rights read these lines.
#[derive(Debug, Clone, Copy, PartialEq, Eq)]
pub struct Worth(pub u8, pub bool, pub bool, pub bool);

// The row of a value: 1 rd, 2 wr, 4 wk, 8 tx, added up. A byte above 15 has the row of its four lowest bits.
pub fn worth_of(rights: u8) -> Worth
    ensures { result ≡ worth_of rights }
{
    match rights % 16 {
        // weakened, may read, may write, may send
        0 => Worth(EMPTY, false, false, false), // nothing
        1 => Worth(WK, true, false, false), // rd
        2 => Worth(EMPTY, false, true, false), // wr
        3 => Worth(WK, true, true, false), // rd, wr
        4 => Worth(WK, true, false, false), // wk
        5 => Worth(WK, true, false, false), // rd, wk
        6 => Worth(WK, true, true, false), // wr, wk
        7 => Worth(WK, true, true, false), // rd, wr, wk
        8 => Worth(EMPTY, false, false, true), // tx
        9 => Worth(WK, true, false, true), // rd, tx
        10 => Worth(EMPTY, false, true, true), // wr, tx
        11 => Worth(WK, true, true, true), // rd, wr, tx
        12 => Worth(WK, true, false, true), // wk, tx
        13 => Worth(WK, true, false, true), // rd, wk, tx
        14 => Worth(WK, true, true, true), // wr, wk, tx
        15..=255 => Worth(WK, true, true, true), // rd, wr, wk, tx
    }
}

// Do the rights have what a request needs?
pub fn need_met(need: Need, rights: u8) -> bool
    ensures { result ≡ need_met need rights }
{
    let Worth(_, reads, writes, sends) = worth_of(rights);
    match need {
        Need::ReadOrWeak => reads,
        Need::Write => writes,
        Need::Send => sends,
    }
}

// What weakening leaves of a capability: wk over the same target, or an empty copy.
pub fn weaken(c: Capability) -> Capability
    ensures { result ≡ weakened c }
{
    let Worth(left, ..) = worth_of(c.rights);
    if left == EMPTY {
        return Capability::EMPTY;
    }
    Capability {
        target: c.target,
        rights: left,
    }
}
