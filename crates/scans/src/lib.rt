// One scan of a table for soundness and for what is held: each slot is looked at once.
#![tactic(auto)]

ghost use Rattle.std.specs.Prelude.{◌≡◌, true, false, replicate, MatchOption};
ghost use Rattle.table.specs.Soundness.{sound};
ghost use Rattle.access.specs.Answers.{born_outside};
ghost use Rattle.links.specs.Links.{words_of, slot_holding};
ghost use Rattle.held.specs.Helpers.{joins_either, slot_named, everyone};
ghost use Rattle.scans.specs.Helpers.{slots_right};

use held::Holds;
use table::{Record, Table};

// Are the slots of the record right, by what was noted of all of them?
fn slots_right(r: Record, born: u64, h: Holds, odd: bool) -> bool
    ensures { result ≡ slots_right r born h odd }
{
    if h.astray | odd {
        return false;
    }
    if h.over == 0 {
        return true;
    }
    let inside = mask::subset(h.over, born);
    r.is_alive() & inside
}

// The scan of records and slots, up to the first offence, and what the slots hold, as `held::held_words` has it for the born numbers; these
// are given back for a sound table.
pub fn scan_words(
    t: Table,
    weakly: bool,
    joins: &mut [u64; 64],
    over: &mut [u64; 64],
) -> Option<u64>
    requires { (joins.old ≡ replicate 64 0) × (over.old ≡ replicate 64 0) }
    ensures { MatchOption result (sound t ≡ false) (λ born. (sound t ≡ true) × (born ≡ born_outside t.records 0) × (joins.new ≡ words_of (joins_either weakly (slot_holding t.slots everyone))) × (over.new ≡ words_of (slot_named t.slots everyone))) }
{
    let born = access::start::born_outside(t.records, 0);
    let mut taken = born;
    'scan: for n in 0..64usize {
        let r = t.records[n];
        if !(table::record_sound(r)
            & table::maker_sound(r, born)
            & mask::disjoint(r.stock, taken))
        {
            return None;
        }
        taken = mask::union(taken, r.stock);
        let mut h = held::NOTHING;
        let mut odd = false;
        'slots: for j in 0..8usize {
            let c = t.slots[n * 8 + j];
            if c.rights == 0 {
                odd = odd | !(c.target == 0);
            } else {
                odd = odd | (16 <= c.rights);
                h = held::noted(h, joins, weakly, n as u8, c);
            }
        }
        if !slots_right(r, born, h, odd) {
            return None;
        }
        joins[n] = mask::union(joins[n], h.strong);
        over[n] = h.over;
    }
    Some(born)
}
