// Tables of the older rigs brought in, as they cross to a caller of the library: on a refusal the unborn one. A case is the length of the
// bytes, in two bytes, and the bytes.
use crate::source;
use captable::Outcome;
use cases::digest;
use cases::input::Input;
use std::io::{self, Read, Write};

fn line<R: Read, W: Write>(from: &mut R, out: &mut W, number: u64, length: u16) -> io::Result<()> {
    let brought = Outcome::from(source::image(from, length, take_grant::import)?);
    let reply = brought.number;
    writeln!(
        out,
        "{number} {reply} {:08x}",
        digest::of_table(brought.table)
    )
}

pub fn all<R: Read, W: Write>(from: &mut R, out: &mut W) -> io::Result<u64> {
    source::cases::<2, _, _, _>(from, out, |from, out, number, head| {
        line(from, out, number, Input::new(head).short())
    })
}
