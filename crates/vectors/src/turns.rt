// Requests: each on a table of its own, or in a chain where each gets the table that the one before it left.
// A case is the 1,984 bytes of a table and the 29 of a request; a chain is a table and then requests alone.
use captable::Outcome;
use cases::digest;
use cases::input::Input;
use parts::source;
use requests::{PairList, Request};
use std::io::{self, Read, Write};
use table::Table;

// Prints the line of a step.
fn line<W: Write>(out: &mut W, number: u64, after: Outcome) -> io::Result<()> {
    let reply = after.number;
    writeln!(
        out,
        "{number} {reply} {:08x}",
        digest::of_table(after.table)
    )
}

// A step by value.
pub fn by_value(t: Table, request: Request, list: PairList) -> Outcome {
    Outcome::from(kernel::step(t, request, list))
}

// A step on the table lent: the request is written as bytes, as the firmware hands it in. One whose list is too long has none, and is
// refused by 2 as well.
pub fn lent(t: Table, request: Request, list: PairList) -> Outcome {
    let written = wire_out::request_bytes(request, list);
    let bytes = written.bytes;
    captable::stepped_in_place(t, &bytes[..written.count.min(22)])
}

pub fn all<R: Read, W: Write>(from: &mut R, out: &mut W) -> io::Result<u64> {
    source::cases::<2013, _, _, _>(from, out, |_, out, number, bytes| {
        let mut case = Input::new(bytes);
        let t = case.table();
        let request = case.request();
        line(out, number, by_value(t, request, case.pair_list()))
    })
}

// Prints the line of one request of a chain, put to `step`, and gives the table after it.
fn link<W: Write, F: Fn(Table, Request, PairList) -> Outcome>(
    out: &mut W,
    number: u64,
    t: Table,
    bytes: &[u8],
    step: &F,
) -> io::Result<Table>
    requires { F.IsAlwaysCallable step.now }
{
    let mut case = Input::new(bytes);
    let request = case.request();
    let after = step(t, request, case.pair_list());
    line(out, number, after)?;
    Ok(after.table)
}

// The requests of a chain, each put to `step` with the table that the one before it left; how many there were.
pub fn chain<R: Read, W: Write, F: Fn(Table, Request, PairList) -> Outcome>(
    from: &mut R,
    out: &mut W,
    step: F,
) -> io::Result<u64>
    requires { F.IsAlwaysCallable step }
{
    let start: [u8; 1984] = source::next(from)?.unwrap_or([0; 1984]);
    let mut t = Input::new(&start).table();
    for done in 0..source::LIMIT {
        let Some(bytes) = source::next::<29, R>(from)? else {
            return Ok(done);
        };
        t = link(out, done, t, &bytes, &step)?;
    }
    Ok(source::LIMIT)
}
