// Sets of the numbers 0 to 63, held as 64 bits: bit n for number n, bit 0 least significant.
// Every set step of the table goes through these functions.
// Stays: a set is a bare u64 and no struct, as document 01 has it ("held as 64 bits, bit n for number n") and C's masks.
#![tactic(auto)]

ghost use Rattle.std.specs.Prelude.{◌≡◌, ◌<◌};
ghost use Rattle.mask.specs.Sets.{has as has_bit, including, excluding, union_of, common_of, less_of, subset_of, disjoint_of};

// Is n in the set?
pub fn has(set: u64, n: u8) -> bool
    ensures { result ≡ has_bit n set }
{
    (n < 64) & ((set >> (n & 63)) & 1 == 1)
}

// The set with n in it.
pub fn with(set: u64, n: u8) -> u64
    requires { n < 64 }
    ensures { result ≡ including n set }
{
    set | (1u64 << n)
}

// The set without n.
pub fn without(set: u64, n: u8) -> u64
    requires { n < 64 }
    ensures { result ≡ excluding n set }
{
    set & !(1u64 << n)
}

// What is in a or in b.
pub fn union(a: u64, b: u64) -> u64
    ensures { result ≡ union_of a b }
{
    a | b
}

// What is in a and in b.
pub fn common(a: u64, b: u64) -> u64
    ensures { result ≡ common_of a b }
{
    a & b
}

// What is in a and not in b.
pub fn less(a: u64, b: u64) -> u64
    ensures { result ≡ less_of a b }
{
    a & !b
}

// Is each number of a in b?
pub fn subset(a: u64, b: u64) -> bool
    ensures { result ≡ subset_of a b }
{
    a & !b == 0
}

// Do a and b share no number?
pub fn disjoint(a: u64, b: u64) -> bool
    ensures { result ≡ disjoint_of a b }
{
    a & b == 0
}
