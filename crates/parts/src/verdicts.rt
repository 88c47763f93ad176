// Confinement tests, by rounds or by groups, as `test` makes them and as they cross to a caller of the library. A case is the 1,984 bytes of
// a table, the members (8 bytes), and a list: a count and eight entries.
use crate::source;
use bounds::{EntryList, Grown};
use captable::Finding;
use cases::input::Input;
use confinement::TestRefusal;
use std::io::{self, Read, Write};
use table::Table;

type Tested = Result<Grown, TestRefusal>;

fn line<W: Write>(out: &mut W, number: u64, tested: Tested) -> io::Result<()> {
    let found = Finding::from(tested);
    let verdict = found.number;
    let rounds = found.rounds;
    let bound = found.bound;
    writeln!(out, "{number} {verdict} {rounds} {bound:016x}")
}

pub fn all<R: Read, W: Write, F: Fn(Table, u64, EntryList) -> Tested>(
    from: &mut R,
    out: &mut W,
    test: F,
) -> io::Result<u64>
    requires { F.IsAlwaysCallable test }
{
    source::cases::<2009, _, _, _>(from, out, |_, out, number, bytes| {
        let mut case = Input::new(bytes);
        let t = case.table();
        let members = case.set();
        line(out, number, test(t, members, case.entry_list()))
    })
}
