// The rules of potential access on 256 words: the word at 64 * right + x has the numbers over which x has the right. Rights are
// numbered 0 rd, 1 wr, 2 wk, 3 tx.
#![tactic(auto)]

ghost use Rattle.std.specs.Prelude.{◌≡◌, ◌+◌, ◌*◌, ◌<◌};
ghost use Rattle.relation.specs.Helpers.{Full, feed, feed_all, shares, rules, held_over, row_pass, pass_of, Saturated};

// The rights. Stays: a right is a number and no enum, since its words stand at 64 times it; the words stay a bare array, which
// `saturate` takes and gives and whose length its type says, so a struct around them would say no more.
const RD: usize = 0;

const WR: usize = 1;

const WK: usize = 2;

const TX: usize = 3;

// A pair of numbers, x and y.
#[derive(Clone, Copy)]
struct Pair {
    x: usize,
    y: usize,
    ghost below: { (x < 64) × (y < 64) },
}

impl Pair {
    // The pair the other way round.
    fn back(self) -> Pair
        ensures { (result.x ≡ self.y) × (result.y ≡ self.x) }
    {
        Pair {
            x: self.y,
            y: self.x,
        }
    }
}

// Where p.x has the right g over p.y, word (s, q.y) is joined into word (d, q.x).
fn join_word(r: &mut [u64; 256], g: usize, p: Pair, d: usize, q: Pair, s: usize)
    requires { (g < 4) × (d < 4) × (s < 4) }
    ensures { r.new ≡ feed r.old (record { gate = g * 64 + p.x; over = p.y; dst = d * 64 + q.x; src = s * 64 + q.y }) }
{
    if (r[g * 64 + p.x] >> p.y) & 1 == 1 {
        r[d * 64 + q.x] |= r[s * 64 + q.y];
    }
}

// Where p.x has the right g over p.y, q.x comes to have every right that q.y has.
fn share(r: &mut [u64; 256], g: usize, p: Pair, q: Pair)
    requires { g < 4 }
    ensures { r.new ≡ feed_all r.old (shares g p.x p.y q.x q.y) }
{
    for b in 0..4 {
        join_word(r, g, p, b, q, b);
    }
}

// The rules at a pair: by rd x has what y has; by wk x has wk where y has rd or wk; by wr and tx y has what x has.
fn apply_rules(r: &mut [u64; 256], p: Pair)
    ensures { r.new ≡ feed_all r.old (rules p.x p.y) }
{
    let q = p.back();
    share(r, RD, p, p);
    join_word(r, WK, p, WK, p, RD);
    join_word(r, WK, p, WK, p, WK);
    share(r, WR, p, q);
    share(r, TX, p, q);
}

// The numbers over which x has some right.
fn held_over(r: &[u64; 256], x: usize) -> u64
    requires { x < 64 }
    ensures { result ≡ held_over r.now x }
{
    r[x] | r[64 + x] | r[128 + x] | r[192 + x]
}

// The rules at a pair, tried only where x has some right over y: at any other pair every rule is shut.
fn visit(r: &mut [u64; 256], p: Pair)
    ensures { r.new ≡ feed_all r.old (rules p.x p.y) }
{
    let over = held_over(r, p.x);
    if (over >> p.y) & 1 == 1 {
        apply_rules(r, p);
    }
}

// The rules at every pair of the holder x. One with no right at all is passed over whole: each of its pairs is shut.
fn visit_row(r: &mut [u64; 256], x: usize)
    requires { x < 64 }
    ensures { r.new ≡ row_pass r.old x 64 }
{
    let over = held_over(r, x);
    if over != 0 {
        for y in 0..64 {
            visit(r, Pair { x, y });
        }
    }
}

// The rules at every pair once.
fn pass(r: &mut [u64; 256])
    ensures { r.new ≡ pass_of r.old 4096 }
{
    for x in 0..64 {
        visit_row(r, x);
    }
}

// The rules, until they add nothing.
pub fn saturate(start: [u64; 256]) -> [u64; 256]
    requires { Full start }
    ensures { Saturated start result }
{
    let mut r = start;
    loop {
        let old = r;
        pass(&mut r);
        if old == r {
            return r;
        }
    }
}
