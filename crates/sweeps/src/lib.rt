// Sets gone through number by number, lowest first: what the words of a set have together, a word put at each number of a set, and
// rounds that look at each number once.
#![tactic(auto)]

ghost use Rattle.std.specs.Prelude.{◌≡◌, ℕ, ◌<◌, length};
ghost use Rattle.std.specs.Iterator.{at_most};
ghost use Rattle.mask.specs.Sets.{excluding};
ghost use Rattle.relation.specs.Helpers.{count};
ghost use Rattle.links.specs.Links.{word_edge};
ghost use Rattle.links.specs.Helpers.{spread_of};
ghost use Rattle.sweeps.specs.Helpers.{Lowest, TakesLowest, near_of, PutEach, NotedEach};

use links::Spread;

// The lowest number of a set that has one.
pub fn lowest(set: u64) -> u8
    requires { 0 < set }
    ensures { Lowest set result }
{
    set.trailing_zeros() as u8
}

// The set without its lowest number. One less than a set differs from it in that number and in those below, of which it has none.
pub fn beyond(set: u64) -> u64
    requires { 0 < set }
    ensures { (n : ℕ) → Lowest set n → result ≡ excluding n set }
{
    mask::common(set, set - 1)
}

// A sweep through the numbers of a set, lowest first: those that are left.
#[derive(Drop)]
pub struct Sweep {
    left: u64,
}

impl Iterator for Sweep {
    type Item = u8;

    ghost next_gives = { λ s r t. TakesLowest s.left r t.left };

    ghost remaining = { λ s. at_most (count 64 s.left) };

    fn next(&mut self) -> Option<u8> {
        if self.left == 0 {
            return None;
        }
        let x = lowest(self.left);
        self.left = beyond(self.left);
        Some(x)
    }
}

// The numbers of a set, to go through them.
pub fn each(set: u64) -> Sweep
    ensures { result.left ≡ set }
{
    Sweep { left: set }
}

// What is one edge from a number of a set.
pub fn near(words: &[u64; 64], set: u64) -> u64
    ensures { result ≡ near_of (word_edge words.now) set }
{
    let mut found: u64 = 0;
    for x in each(set) {
        found = mask::union(found, words[x as usize]);
    }
    found
}

// The word, put at each number of a set.
pub fn put_each(words: &mut [u64; 64], set: u64, word: u64)
    requires { length words.old ≡ 64 }
    ensures { PutEach set word words.old words.new }
{
    for x in each(set) {
        words[x as usize] = word;
    }
}

// The number x, joined into the word of each number of a set.
pub fn note_each(words: &mut [u64; 64], set: u64, x: u8)
    requires { (length words.old ≡ 64) × (x < 64) }
    ensures { NotedEach set x words.old words.new }
{
    for y in each(set) {
        words[y as usize] = mask::with(words[y as usize], x);
    }
}

// The word, put at each number of a set, and what is one edge from a number of the set by other words: both in one go.
pub fn put_near(words: &mut [u64; 64], set: u64, word: u64, over: &[u64; 64]) -> u64
    requires { length words.old ≡ 64 }
    ensures { PutEach set word words.old words.new × (result ≡ near_of (word_edge over.now) set) }
{
    let mut found: u64 = 0;
    for y in each(set) {
        words[y as usize] = word;
        found = mask::union(found, over[y as usize]);
    }
    found
}

// What paths of edges reach from x, and in how many rounds, as `links::reach` has it. A round looks at what the round before added, and at
// nothing else: of the rest each edge was taken.
pub fn spread(words: &[u64; 64], x: u8) -> Spread
    ensures { result ≡ spread_of (word_edge words.now) x }
{
    let mut s = links::alone(x);
    let mut fresh = s;
    for k in 0..links::MOST_ROUNDS {
        let found = near(words, fresh);
        let next = mask::union(s, found);
        if next == s {
            return Spread { set: s, rounds: k };
        }
        fresh = mask::less(found, s);
        s = next;
    }
    Spread {
        set: s,
        rounds: links::MOST_ROUNDS,
    }
}
