// What the program `confine` prints for its input, document 01, "The stored image": it decides, from the input's bytes to a number and a
// bound, and then prints these.
#![tactic(auto)]

pub mod deciding; // deciding.rt: from the input to a number and a bound

ghost use Rattle.std.specs.Prelude.{◌≡◌, ◌++◌, length, drop};
ghost use Rattle.report.specs.Printed.{printed_of};

// Puts what `confine` prints for the input at the buffer's start, and says how many bytes that is: at most 191. The bytes after
// them are left as they were.
pub fn confine(input: &[u8], out: &mut [u8; 256]) -> usize
    ensures count { result ≡ length (printed_of input.now) }
    ensures printed { out.new ≡ printed_of input.now ++ drop (length (printed_of input.now)) out.old }
{
    let decision = deciding::decide(input);
    lines::put_decision(out, decision)
}
