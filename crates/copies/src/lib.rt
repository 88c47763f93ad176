// What a fetch takes, and where a copied capability lands, document 01.
#![tactic(auto)]

ghost use Rattle.std.specs.Prelude.{◌≡◌, ◌<◌};
ghost use Rattle.requests.specs.Asks.{pairs_of};
ghost use Rattle.copies.specs.Copies.{fetched as fetched_by, landed as landed_on, copy_pairs};
ghost use Rattle.refusals.specs.Helpers.{PairsFit};
ghost use Rattle.copies.specs.Helpers.{row_at, cell_of};

use requests::PairList;
use rights::weaken;
use table::{Capability, Table};

// A record's eight slots.
#[derive(Clone, Copy)]
pub struct Row {
    pub cells: [Capability; 8],
}

// What a fetch through a slot with these rights takes.
pub fn fetched(rights: u8, c: Capability) -> Capability
    ensures { result ≡ fetched_by rights c }
{
    if mask::has(rights as u64, 0) {
        return c;
    }
    weaken(c)
}

// What a slot that held `old` holds after a copy: an empty copy changes nothing.
pub fn landed(old: Capability, copy: Capability) -> Capability
    ensures { result ≡ landed_on old copy }
{
    if copy.is_empty() {
        return old;
    }
    copy
}

// The eight slots of object k.
pub fn row_of(t: Table, k: usize) -> Row
    requires { k < 64 }
    ensures { result ≡ row_at t k }
{
    Row {
        cells: std::array::from_fn(|j| t.slots[k * 8 + j]),
    }
}

// The pairs, left to right, from a row into n's slots.
pub fn copy_pairs(t: Table, row: Row, n: u8, l: PairList) -> Table
    requires { (n < 64) × PairsFit l }
    ensures { result ≡ copy_pairs t (cell_of row) n (pairs_of l) }
{
    let m = n as usize;
    let mut u = t;
    'pairs: for p in &l.pairs[..l.count as usize] {
        let to = m * 8 + p.to as usize;
        let got = row.cells[p.from as usize];
        u.slots[to] = landed(u.slots[to], got);
    }
    u
}
