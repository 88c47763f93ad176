// Potential access, by the rules or by groups, as `find` finds it and as it crosses to a caller of the library. A case is the 1,984 bytes of a table.
use crate::source;
use access::AccessRefusal;
use captable::Relation;
use cases::digest;
use cases::input::Input;
use std::io::{self, Read, Write};
use table::Table;

type Answer = Result<[u64; 256], AccessRefusal>;

fn line<W: Write>(out: &mut W, number: u64, found: Answer) -> io::Result<()> {
    let relation = Relation::from(found);
    let reply = relation.number;
    let rows = relation.rows;
    writeln!(out, "{number} {reply} {:08x}", digest::of_words(&rows))
}

pub fn all<R: Read, W: Write, F: Fn(Table) -> Answer>(
    from: &mut R,
    out: &mut W,
    find: F,
) -> io::Result<u64>
    requires { F.IsAlwaysCallable find }
{
    source::cases::<1984, _, _, _>(from, out, |_, out, number, bytes| {
        line(out, number, find(Input::new(bytes).table()))
    })
}
