// The lines of a decision, put into a buffer one after the other. Each function says where the next line goes.
#![tactic(auto)]

ghost use Rattle.std.specs.Prelude.{◌≡◌, ◌+◌, ◌≤◌, ◌<◌, length, IfErr};
ghost use Rattle.lines.specs.Lines.{number_line, number_lines, refused_line, accepted_lines, lines_of};
ghost use Rattle.lines.specs.Helpers.{placed, begun, line_if};

// A refusal, by the paper's number.
#[derive(Debug, Clone, Copy, PartialEq, Eq)]
pub struct Refused {
    pub number: u8,
}

// What was decided: the bound of an acceptance, or the refusal.
pub type Decision = Result<u64, Refused>;

// A word first.
fn put_word(out: &mut [u8], word: &[u8]) -> usize
    requires { length word.now ≤ length out.old }
    ensures next { result ≡ length word.now }
    ensures left { out.new ≡ begun out.old word.now }
{
    out[..word.len()].copy_from_slice(word);
    word.len()
}

// A number's line: one digit or two, and the newline.
fn put_line(out: &mut [u8], at: usize, n: u8) -> usize
    requires { (at + 3 ≤ length out.old) × (n < 100) }
    ensures next { result ≡ at + length (number_line n) }
    ensures left { out.new ≡ placed out.old at (number_line n) }
{
    if n < 10 {
        out[at] = 48 + n;
        out[at + 1] = b'\n';
        return at + 2;
    }
    out[at] = 48 + n / 10;
    out[at + 1] = 48 + n % 10;
    out[at + 2] = b'\n';
    at + 3
}

// The line of a number that is in the set.
fn put_if(out: &mut [u8], at: usize, set: u64, n: u8) -> usize
    requires { (at + 3 ≤ length out.old) × (n < 100) }
    ensures next { result ≡ at + length (line_if set n) }
    ensures left { out.new ≡ placed out.old at (line_if set n) }
{
    if mask::has(set, n) {
        return put_line(out, at, n);
    }
    at
}

// A line for each number of the set, ascending: at most three bytes for each of 64.
fn put_numbers(out: &mut [u8], at: usize, set: u64) -> usize
    requires { at + 192 ≤ length out.old }
    ensures next { result ≡ at + length (number_lines set 64) }
    ensures left { out.new ≡ placed out.old at (number_lines set 64) }
{
    let mut next = at;
    for n in 0..64 {
        next = put_if(out, next, set, n);
    }
    next
}

// The whole of a refusal.
fn put_refused(out: &mut [u8], n: u8) -> usize
    requires { (256 ≤ length out.old) × (n < 100) }
    ensures next { result ≡ length (refused_line n) }
    ensures left { out.new ≡ begun out.old (refused_line n) }
{
    let at = put_word(out, b"refused ");
    put_line(out, at, n)
}

// The whole of an acceptance.
fn put_accepted(out: &mut [u8], bound: u64) -> usize
    requires { 256 ≤ length out.old }
    ensures next { result ≡ length (accepted_lines bound) }
    ensures left { out.new ≡ begun out.old (accepted_lines bound) }
{
    let at = put_word(out, b"accepted\n");
    put_numbers(out, at, bound)
}

// What is printed of a decision.
pub fn put_decision(out: &mut [u8], d: Decision) -> usize
    requires { (256 ≤ length out.old) × IfErr d (λ why. why.number < 100) }
    ensures next { result ≡ length (lines_of d) }
    ensures left { out.new ≡ begun out.old (lines_of d) }
{
    match d {
        Ok(bound) => put_accepted(out, bound),
        Err(why) => put_refused(out, why.number),
    }
}
