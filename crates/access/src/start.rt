// The words that the rules start from: each number's rights over itself, and what is held.
ghost use Rattle.std.specs.Prelude.{◌≡◌, ◌<◌};
ghost use Rattle.access.specs.Helpers.{mark_to, own_marks, slot_marks};
ghost use Rattle.access.specs.Answers.{born_outside};

use table::{Capability, Record};

// The born numbers outside a set.
pub fn born_outside(records: [Record; 64], set: u64) -> u64
    ensures { result ≡ born_outside records set }
{
    mask::less(table::born_numbers(&records), set)
}

// x has the rights over y.
fn mark(r: &mut [u64; 256], x: usize, y: usize, rights: u8)
    requires { (x < 64) × (y < 64) }
    ensures { r.new ≡ mark_to r.old x y rights 4 }
{
    for b in 0..4usize {
        if (rights >> b) & 1 == 1 {
            r[b * 64 + x] |= 1u64 << y;
        }
    }
}

// Each of `nodes` has all four rights over itself, and each slot between numbers of `among` is held.
pub fn held_words(slots: [Capability; 512], nodes: u64, among: u64) -> [u64; 256]
    ensures { result ≡ slot_marks slots among (own_marks nodes 64) 512 }
{
    let mut r = [0u64; 256];
    'own: for i in 0..64usize {
        if mask::has(nodes, i as u8) {
            mark(&mut r, i, i, 15);
        }
    }
    'slots: for (j, c) in slots.iter().enumerate() {
        if mask::has(among, (j / 8) as u8) & mask::has(among, c.target) {
            mark(&mut r, j / 8, c.target as usize, c.rights);
        }
    }
    r
}
