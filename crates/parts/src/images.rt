// Images read, and the tables written back in both versions; then tables written that need not be sound. A case of the first is two lengths, of
// the image and of the buffer, two bytes each, and the image; of the second the 1,984 bytes of a table and the buffer's length.
ghost use Rattle.std.specs.Prelude.{◌≡◌, length};

use crate::source;
use captable::Outcome;
use cases::digest;
use cases::input::Input;
use image::Version;
use numbers::number_of;
use std::io::{self, Read, Write};
use table::Table;

// A buffer before it is written: a byte that should have stayed then shows.
fn untouched() -> [u8; 4096]
    ensures { 4096 ≡ length result }
{
    [0xA5; 4096]
}

// Reads an image, prints the number and the table as they cross to a caller of the library, and gives the table: on a refusal the unborn one.
fn read<R: Read, W: Write>(from: &mut R, out: &mut W, length: u16) -> io::Result<Table> {
    let loaded = Outcome::from(source::image(from, length, image::read)?);
    let number = loaded.number;
    let t = loaded.table;
    write!(out, "{number} {:08x} ", digest::of_table(t))?;
    Ok(t)
}

// Writes a table into a buffer that is the start of a larger one, and prints the number and the larger one.
fn write_as<W: Write>(out: &mut W, t: Table, length: u16, v: Version) -> io::Result<()> {
    let mut space = untouched();
    let n = usize::from(length).min(4096);
    let number = number_of(&image_out::write(t, &mut space[..n], v));
    write!(out, "{number} {:08x}", digest::of_bytes(&space))
}

// The same as version 2, and then in the older form, which ends the line.
fn write<W: Write>(out: &mut W, t: Table, length: u16) -> io::Result<()> {
    write_as(out, t, length, Version::Two)?;
    write!(out, " ")?;
    write_as(out, t, length, Version::One)?;
    writeln!(out)
}

fn line<R: Read, W: Write>(from: &mut R, out: &mut W, number: u64, head: &[u8]) -> io::Result<()> {
    let mut lengths = Input::new(head);
    write!(out, "{number} ")?;
    let t = read(from, out, lengths.short())?;
    write(out, t, lengths.short())
}

pub fn all<R: Read, W: Write>(from: &mut R, out: &mut W) -> io::Result<u64> {
    source::cases::<4, _, _, _>(from, out, |from, out, number, head| {
        line(from, out, number, head)
    })
}

fn raw_line<W: Write>(out: &mut W, number: u64, bytes: &[u8]) -> io::Result<()> {
    let mut case = Input::new(bytes);
    let t = case.table();
    write!(out, "{number} ")?;
    write(out, t, case.short())
}

pub fn raw<R: Read, W: Write>(from: &mut R, out: &mut W) -> io::Result<u64> {
    source::cases::<1986, _, _, _>(from, out, |_, out, number, bytes| {
        raw_line(out, number, bytes)
    })
}
