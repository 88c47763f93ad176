// Links on the cases of the confinement tests: the table's; those between the born non-members with a holder of the list at the lowest
// member's number; in how many rounds, and what, that holder reaches.
use crate::source;
use bounds::EntryList;
use cases::digest;
use cases::input::Input;
use std::io::{self, Read, Write};
use table::Capability;

// The links of slots between numbers of `outside`, and of the list that x holds. A list that is too long, or no holder, adds none.
fn held(slots: [Capability; 512], outside: u64, list: EntryList, x: u8) -> [u64; 64] {
    let words = links::slot_links(slots, outside);
    let n = usize::from(list.count);
    let entries = list.entries;
    if 8 < n || 64 <= x {
        return words;
    }
    links::with_entries(words, entries, n, outside, x)
}

fn line<W: Write>(out: &mut W, number: u64, bytes: &[u8]) -> io::Result<()> {
    let mut case = Input::new(bytes);
    let t = case.table();
    let members = case.set();
    let list = case.entry_list();
    let whole = links::table_links(t);
    let outside = access::start::born_outside(t.records, members);
    let x = (bounds::lowest(members) % 256) as u8;
    let words = held(t.slots, outside, list, x);
    let spread = links::reach(&words, x);
    write!(out, "{number} {:08x}", digest::of_words(&whole))?;
    write!(out, " {:08x}", digest::of_words(&words))?;
    writeln!(out, " {} {:016x}", spread.rounds, spread.set)
}

pub fn all<R: Read, W: Write>(from: &mut R, out: &mut W) -> io::Result<u64> {
    source::cases::<2009, _, _, _>(from, out, |_, out, number, bytes| {
        line(out, number, bytes)
    })
}
