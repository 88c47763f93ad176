// What a request does, document 01, the column "Effect", where it changes several places: send, allocate, destroy, and reclaim of
// document 02, 2.8. Their checks are done when they come here.
#![tactic(auto)]

ghost use Rattle.std.specs.Prelude.{◌≡◌, ◌<◌};
ghost use Rattle.requests.specs.Asks.{pairs_of};
ghost use Rattle.refusals.specs.Helpers.{PairsFit};
ghost use Rattle.effects.specs.Effects.{sent as sent_to, allocated as allocated_to, destroyed as destroyed_by, reclaimed as reclaimed_by};

use copies::{copy_pairs, row_of};
use forgetting::{makers_forgotten, slots_forgotten};
use requests::PairList;
use table::{Capability, Record, Table};

// What a send does to its target g: the word, the pairs from the actor's slots as they were, then the reply slot.
pub fn sent(t: Table, a: u8, g: u8, word: u32, l: PairList, reply: u8) -> Table
    requires { (a < 64) × ((g < 64) × PairsFit l) }
    ensures { result ≡ sent_to t a g word (pairs_of l) reply }
{
    let k = a as usize;
    let m = g as usize;
    let row = row_of(t, k);
    let mut w = t;
    w.records[m].word = word;
    let mut u = copy_pairs(w, row, g, l);
    if reply < 8 {
        u.slots[m * 8 + reply as usize] = Capability {
            target: a,
            rights: 8,
        };
    }
    u
}

// What an allocate does: the giver's record, the new record, the pairs from the actor's slots as they were, then the
// actor's slot.
pub fn allocated(t: Table, a: u8, n: u8, kind: u8, part: u64, i: u8, l: PairList) -> Table
    requires { (a < 64) × ((n < 64) × ((i < 8) × PairsFit l)) }
    ensures { result ≡ allocated_to t a n kind part i (pairs_of l) }
{
    let k = a as usize;
    let m = n as usize;
    let row = row_of(t, k);
    let mut w = t;
    let giver = w.records[k];
    w.records[k].stock = mask::less(mask::without(giver.stock, n), part);
    w.records[m] = Record {
        status: 1,
        kind: kind,
        maker: a,
        word: 0,
        stock: part,
    };
    let mut u = copy_pairs(w, row, n, l);
    u.slots[k * 8 + i as usize] = Capability {
        target: n,
        rights: 15,
    };
    u
}

// What a destroy of g does: its slots, its record, and the actor's stock, which its stock joins.
pub fn destroyed(t: Table, a: u8, g: u8) -> Table
    requires { (a < 64) × (g < 64) }
    ensures { result ≡ destroyed_by t a g }
{
    let k = a as usize;
    let m = g as usize;
    let mut u = t;
    let giver = u.records[m];
    let taker = u.records[k];
    u.slots[m * 8..m * 8 + 8].fill(Capability::EMPTY);
    u.records[m] = Record {
        status: 2,
        word: 0, // lost, as its slots are
        stock: 0,
        ..giver
    };
    u.records[k] = Record {
        stock: mask::union(taker.stock, giver.stock),
        ..taker
    };
    u
}

// What a reclaim of g does: nothing names g any more, its record is the unborn one, and g joins the actor's stock.
pub fn reclaimed(t: Table, a: u8, g: u8) -> Table
    requires { (a < 64) × (g < 64) }
    ensures { result ≡ reclaimed_by t a g }
{
    let k = a as usize;
    let m = g as usize;
    let bare = slots_forgotten(t, g);
    let mut u = makers_forgotten(bare, g);
    u.records[m] = Record::UNBORN;
    let taker = u.records[k];
    u.records[k].stock = mask::with(taker.stock, g);
    u
}
