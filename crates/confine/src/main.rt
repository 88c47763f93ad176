// The program `confine`, document 01, "The stored image": reads an input, and prints what the library `report` answers to it.
#![tactic(auto)]

ghost use Rattle.std.specs.Prelude.{◌≤◌, IfOk};

use std::io::{self, ErrorKind, Read};

// What the system says of a read from a descriptor that is closed (EBADF).
const CLOSED: i32 = 9;

// How many bytes came, up to the input's end or until there is no more room. A read that was interrupted is made again; an input that is
// closed is an empty one.
fn read_input<R: Read>(from: &mut R, input: &mut [u8; 2443]) -> io::Result<usize>
    ensures { IfOk result (λ n. n ≤ 2443) }
{
    let mut got: usize = 0;
    for _ in 0..u64::MAX {
        match from.read(&mut input[got..]) {
            Ok(0) => return Ok(got),
            Ok(n) => got += n,
            Err(error) if error.raw_os_error() == Some(CLOSED) => return Ok(got),
            Err(error) if error.kind() != ErrorKind::Interrupted => return Err(error),
            Err(_) => {}
        }
    }
    Ok(got)
}

// The longest input that can be right has 1,932 + 2 * 255 bytes. One byte more is read, so that a longer input is seen to be too
// long: no count makes 2,443 bytes right, since that would be 511 bytes of entries.
fn main(rt: HostRuntime) -> io::Result<()> {
    let mut input = [0u8; 2443];
    let got = read_input(&mut rt.stdin(), &mut input)?;
    let mut out = [0u8; 256];
    let count = report::confine(&input[..got], &mut out);
    rt.write_all(&out[..count])
}
