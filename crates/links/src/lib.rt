// The links of a holding as 64 words, of which word x has the numbers one link from x, walked by rounds.
#![tactic(auto)]

ghost use Rattle.std.specs.Prelude.{◌≡◌, true, ◌≤◌, ◌<◌};
ghost use Rattle.relation.specs.Relation.{table_holding};
ghost use Rattle.relation.specs.Closure.{grow, only};
ghost use Rattle.links.specs.Links.{link_words, word_edge, slot_holding, has_strong, joined, entry_link};
ghost use Rattle.links.specs.Helpers.{edge_if, link_if, spread_of};

use table::{Capability, Table};

// What rounds reach, and how many of them added something.
#[derive(Debug, Clone, Copy, PartialEq, Eq)]
pub struct Spread {
    pub set: u64,
    pub rounds: u8,
}

// No more rounds than this add something: each adds one of 64 numbers, and one is there before the first.
pub const MOST_ROUNDS: u8 = 63;

// Is rd, wr or tx among the rights?
pub fn has_strong(rights: u8) -> bool
    ensures { result ≡ has_strong rights }
{
    let set = rights as u64;
    mask::has(set, 0) | mask::has(set, 1) | mask::has(set, 3)
}

// v is one link from u, where that is wanted.
pub fn join(words: &mut [u64; 64], on: bool, u: u8, v: u8)
    requires { on ≡ true → (u < 64) × (v < 64) }
    ensures { words.new ≡ edge_if on words.old u v }
{
    if on {
        let x = u as usize;
        words[x] = mask::with(words[x], v);
    }
}

// The links of a capability that `holder` holds, where they are wanted: an rd, wr or tx goes either way, a wk from target to holder.
fn link_if(words: &mut [u64; 64], on: bool, holder: u8, c: Capability)
    requires { on ≡ true → (holder < 64) × (c.target < 64) }
    ensures { words.new ≡ link_if on words.old holder c }
{
    let strong = has_strong(c.rights);
    let weak = mask::has(c.rights as u64, 2);
    join(words, on & strong, holder, c.target);
    join(words, on & (strong | weak), c.target, holder);
}

// The links that slots hold between numbers of `among`; slot k is held by k / 8.
pub fn slot_links(slots: [Capability; 512], among: u64) -> [u64; 64]
    ensures { result ≡ link_words (slot_holding slots among) }
{
    let mut r = [0u64; 64];
    for (k, c) in slots.iter().enumerate() {
        let holder = (k / 8) as u8;
        let on = mask::has(among, holder) & mask::has(among, c.target);
        link_if(&mut r, on, holder, *c);
    }
    r
}

// The words with the links of the first n entries, held by x where their target is in `among`.
pub fn with_entries(
    words: [u64; 64],
    entries: [Capability; 8],
    n: usize,
    among: u64,
    x: u8,
) -> [u64; 64]
    requires { (n ≤ 8) × (x < 64) }
    ensures { result ≡ joined words (entry_link entries n among x) }
{
    let mut r = words;
    for c in &entries[..n] {
        let on = mask::has(among, c.target);
        link_if(&mut r, on, x, *c);
    }
    r
}

// The links of a table, sound or not: of its slots between born numbers.
pub fn table_links(t: Table) -> [u64; 64]
    ensures { result ≡ link_words (table_holding t) }
{
    let born = access::start::born_outside(t.records, 0);
    slot_links(t.slots, born)
}

// A round: what is there, and what is one edge from it.
pub fn grown(words: &[u64; 64], s: u64) -> u64
    ensures { result ≡ grow (word_edge words.now) s }
{
    let mut found = s;
    for (x, word) in words.iter().enumerate() {
        if mask::has(s, x as u8) {
            found = mask::union(found, *word);
        }
    }
    found
}

// x alone; no number above 63 is in a set.
pub fn alone(x: u8) -> u64
    ensures { result ≡ only x }
{
    if x < 64 { mask::with(0, x) } else { 0 }
}

// What paths of edges reach from x, and in how many rounds: they are counted until one adds nothing.
pub fn reach(words: &[u64; 64], x: u8) -> Spread
    ensures { result ≡ spread_of (word_edge words.now) x }
{
    let mut s = alone(x);
    for k in 0..MOST_ROUNDS {
        let next = grown(words, s);
        if next == s {
            return Spread { set: s, rounds: k };
        }
        s = next;
    }
    Spread {
        set: s,
        rounds: MOST_ROUNDS,
    }
}
