// Chains shown, as they cross to a caller of the library. A case is that of a confinement test, and the object.
use crate::source;
use captable::ShownChain;
use cases::digest;
use cases::input::Input;
use std::io::{self, Read, Write};

fn line<W: Write>(out: &mut W, number: u64, bytes: &[u8]) -> io::Result<()> {
    let mut case = Input::new(bytes);
    let t = case.table();
    let members = case.set();
    let list = case.entry_list();
    let shown = ShownChain::from(chains::chain(t, members, list, case.byte()));
    let reply = shown.number;
    let count = shown.count;
    let numbers = shown.numbers;
    write!(out, "{number} {reply} {count} ")?;
    for n in numbers.iter().take(usize::from(count)) {
        write!(out, "{n} ")?;
    }
    writeln!(out, "{:08x}", digest::of_bytes(&numbers))
}

pub fn all<R: Read, W: Write>(from: &mut R, out: &mut W) -> io::Result<u64> {
    source::cases::<2010, _, _, _>(from, out, |_, out, number, bytes| {
        line(out, number, bytes)
    })
}
