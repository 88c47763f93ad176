// The chain that comes first among the shortest, over 64 words of links: layers counted back from its end, then forward through them, the
// lowest number each time.
#![tactic(auto)]

ghost use Rattle.std.specs.Prelude.{◌≡◌, true, [], ◌≤◌, ◌<◌};
ghost use Rattle.relation.specs.Closure.{grow, only};
ghost use Rattle.links.specs.Links.{word_edge};
ghost use Rattle.walks.specs.Chains.{layers_to, walk_down, least_chain, walked};
ghost use Rattle.walks.specs.Helpers.{latest_first, in_range};

// The numbers of a chain in turn, and zero past the count.
// Stays: a rule of the project, fixed memory: a chain has at most 63 numbers.
#[derive(Clone, Copy)]
pub struct Walked {
    pub numbers: [u8; 63],
    pub count: u8,
}

// What is within 0, 1, 2 .. links of the end, as many as `count` says.
// Stays: a rule of the project, fixed memory: there are at most 63 sets.
#[derive(Clone, Copy)]
struct Layers {
    sets: [u64; 63],
    count: usize,
}

// A round backwards: what is there, and what has a link into it.
fn grown_back(words: &[u64; 64], s: u64) -> u64
    ensures { result ≡ grow (λ a b. word_edge words.now b a) s }
{
    let mut found: u64 = 0;
    for (x, word) in words.iter().enumerate() {
        if mask::has(s, x as u8) | !mask::disjoint(s, *word) {
            found = mask::with(found, x as u8);
        }
    }
    found
}

// Layers about z, as far as x is one link from the latest.
fn layers_about(words: &[u64; 64], x: u8, z: u8) -> Layers
    requires { x < 64 }
    ensures { (result.count ≤ 63) × (latest_first result.sets result.count ≡ layers_to 62 (word_edge words.now) x (only z) []) }
{
    let onward = words[x as usize];
    let mut s = links::alone(z);
    let mut sets = [0u64; 63];
    sets[0] = s;
    for k in 0..62 {
        if !mask::disjoint(s, onward) {
            return Layers { sets, count: k + 1 };
        }
        s = grown_back(words, s);
        sets[k + 1] = s;
    }
    Layers { sets, count: 63 }
}

// Forward from x through the layers: of each the lowest number one link on.
fn through(words: &[u64; 64], x: u8, layers: Layers) -> Walked
    requires { (x < 64) × (layers.count ≤ 63) × (in_range (walk_down (word_edge words.now) x (latest_first layers.sets layers.count)) ≡ true) }
    ensures { result ≡ walked (walk_down (word_edge words.now) x (latest_first layers.sets layers.count)) }
{
    let sets = layers.sets;
    let count = layers.count;
    let mut numbers = [0u8; 63];
    let mut at = x as usize;
    for i in 0..count {
        let next = bounds::lowest(mask::common(sets[count - 1 - i], words[at]));
        numbers[i] = next as u8;
        at = next;
    }
    Walked {
        numbers,
        count: count as u8,
    }
}

// The chain from x to z that comes first among the shortest, where its numbers are in range.
pub fn least(words: &[u64; 64], x: u8, z: u8) -> Walked
    requires { (x < 64) × (in_range (least_chain (word_edge words.now) x z) ≡ true) }
    ensures { result ≡ walked (least_chain (word_edge words.now) x z) }
{
    let layers = layers_about(words, x, z);
    through(words, x, layers)
}
