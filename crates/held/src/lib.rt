// What slots hold between numbers of a set, as words, in one pass: which numbers are joined, and over which a holder holds something.
#![tactic(auto)]

ghost use Rattle.std.specs.Prelude.{◌≡◌, true, false, ◌<◌, replicate};
ghost use Rattle.links.specs.Links.{words_of, slot_holding};
ghost use Rattle.held.specs.Helpers.{joins_either, slot_named, held_astray, Noted};

use table::Capability;

// What one holder holds: over which numbers it has rd, wr or tx, and over which any right. And whether it holds something over a number
// that no set has.
// Stays: `astray` beside the sets and no Option of them. `noted` promises `strong` and `over` of what is in sets whether or not something is
// astray (`Noted`), and `scans` goes on by them.
#[derive(Debug, Clone, Copy, PartialEq, Eq)]
pub struct Holds {
    pub strong: u64,
    pub over: u64,
    pub astray: bool,
}

// What a holder of nothing holds.
pub const NOTHING: Holds = Holds {
    strong: 0,
    over: 0,
    astray: false,
};

// One capability more of the holder x, with some right. Its target is joined to x by rd, wr or tx, and by wk where that joins too. Whether
// the targets are in a set is asked of all of them at once, when the last is noted.
pub fn noted(h: Holds, joins: &mut [u64; 64], weakly: bool, x: u8, c: Capability) -> Holds
    requires { x < 64 }
    ensures { Noted weakly x c h result joins.old joins.new }
{
    if 64 <= c.target {
        return Holds { astray: true, ..h };
    }
    let over = mask::with(h.over, c.target);
    if links::has_strong(c.rights) {
        links::join(joins, true, c.target, x);
        let strong = mask::with(h.strong, c.target);
        return Holds { strong, over, ..h };
    }
    let is_weak = mask::has(c.rights as u64, 2);
    links::join(joins, weakly & is_weak, c.target, x);
    Holds { over, ..h }
}

// All the slots, holder by holder: word x of `joins` gets the numbers that x is joined to, word x of `over` those over which x holds something.
// What a number outside the set holds joins nobody. Does a number of the set hold something over one outside? Then the words are not all
// there.
// Stays: a bool, the answer to that question: as the words are lent, an Option or a Result would hold nothing.
pub fn held_words(
    slots: [Capability; 512],
    among: u64,
    weakly: bool,
    joins: &mut [u64; 64],
    over: &mut [u64; 64],
) -> bool
    requires { (joins.old ≡ replicate 64 0) × (over.old ≡ replicate 64 0) }
    ensures { (result ≡ held_astray slots among) × (result ≡ false → (joins.new ≡ words_of (joins_either weakly (slot_holding slots among))) × (over.new ≡ words_of (slot_named slots among))) }
{
    'holders: for x in 0..64usize {
        let mut h = NOTHING;
        if mask::has(among, x as u8) {
            'slots: for j in 0..8usize {
                let c = slots[x * 8 + j];
                if c.rights != 0 {
                    h = noted(h, joins, weakly, x as u8, c);
                }
            }
        }
        let inside = mask::subset(h.over, among);
        if h.astray | !inside {
            return true;
        }
        joins[x] = mask::union(joins[x], h.strong);
        over[x] = h.over;
    }
    false
}
