// The bytes of a case, out of the file.
ghost use Rattle.std.specs.Prelude.{◌<◌, ◌^◌};

use std::io::{self, ErrorKind, Read, Write};

// A proved loop has to end, and nothing says that a file does, so a limit of cases that no file comes near stands in.
pub const LIMIT: u64 = 1000000;

// Whether the file has the bytes that fill the slice; where it ends before, the slice begins with those that it had left.
fn fill<R: Read>(from: &mut R, bytes: &mut [u8]) -> io::Result<bool> {
    match from.read_exact(bytes) {
        Ok(()) => Ok(true),
        Err(error) if error.kind() == ErrorKind::UnexpectedEof => Ok(false),
        Err(error) => Err(error),
    }
}

// The next N bytes of the file, or None where it ends before.
pub fn next<const N: usize, R: Read>(from: &mut R) -> io::Result<Option<[u8; N]>> {
    let mut bytes = [0u8; N];
    Ok(fill(from, &mut bytes)?.then_some(bytes))
}

// What `read` makes of the bytes of an image, which come next in the file: as many as the case says, and at most 4,096.
pub fn image<R: Read, T, F: FnOnce(&[u8]) -> T>(from: &mut R, length: u16, read: F) -> io::Result<T>
    requires { F.IsAlwaysCallable read }
{
    let mut space = [0u8; 4096];
    let n = usize::from(length).min(4096);
    fill(from, &mut space[..n])?;
    Ok(read(&space[..n]))
}

// Every case of N bytes, a line for each; how many there were.
pub fn cases<
    const N: usize,
    R: Read,
    W: Write,
    F: FnMut(&mut R, &mut W, u64, &[u8]) -> io::Result<()>,
>(from: &mut R, out: &mut W, mut line: F) -> io::Result<u64>
    requires size { N < 2 ^ 63 }
    requires line { F.IsAlwaysCallable line }
{
    for done in 0..LIMIT {
        let Some(bytes) = next::<N, R>(from)? else {
            return Ok(done);
        };
        line(from, out, done, &bytes)?;
    }
    Ok(LIMIT)
}
