// Runs the proved code on the cases of data/, which the reference model makes, and prints what it answers, a line for each case.
// The model also makes the expected output, so the gate compares two programs that share no code. The safety and the end of this
// program are proved; what it prints is tested.
#![tactic(auto)]

use parts::{images, imports, linked, relations, shown, verdicts};
use std::fs::File;
use std::io::{self, Write};

mod turns; // turns.rt: requests

// A part: its heading, a line for each case of a file, and their count.
fn run<W: Write, F: FnOnce(&mut File, &mut W) -> io::Result<u64>>(
    rt: &HostRuntime,
    out: &mut W,
    path: &str,
    heading: &str,
    part: F,
) -> io::Result<()>
    requires { F.IsAlwaysCallable part }
{
    writeln!(out, "{heading}")?;
    let done = part(&mut File::open(rt, path)?, out)?;
    writeln!(out, "{done} cases\n")
}

fn main(rt: HostRuntime) -> io::Result<()> {
    let mut out = rt.stdout();
    run(
        &rt,
        &mut out,
        "images",
        "images: case, read: number, table; written back: number, buffer; in the older form: number, buffer",
        images::all,
    )?;
    run(
        &rt,
        &mut out,
        "writes",
        "tables written, sound or not: case, number, buffer; in the older form: number, buffer",
        images::raw,
    )?;
    run(
        &rt,
        &mut out,
        "steps",
        "steps: case, number, table after",
        turns::all,
    )?;
    run(
        &rt,
        &mut out,
        "chain",
        "chain on one table: case, number, table after",
        |from, out| turns::chain(from, out, turns::by_value),
    )?;
    run(
        &rt,
        &mut out,
        "chain",
        "the same chain, the table lent: case, number, table after",
        |from, out| turns::chain(from, out, turns::lent),
    )?;
    run(
        &rt,
        &mut out,
        "edges",
        "edges of fields and lists, on one table: case, number, table after",
        |from, out| turns::chain(from, out, turns::by_value),
    )?;
    run(
        &rt,
        &mut out,
        "tests",
        "confinement tests: case, number, rounds, bound",
        |from, out| verdicts::all(from, out, confinement::test),
    )?;
    run(
        &rt,
        &mut out,
        "tests",
        "the same by groups: case, number, rounds, bound",
        |from, out| verdicts::all(from, out, group_tests::test),
    )?;
    run(
        &rt,
        &mut out,
        "access",
        "potential access: case, number, relation",
        |from, out| relations::all(from, out, access::potential_access),
    )?;
    run(
        &rt,
        &mut out,
        "access",
        "the same by groups: case, number, relation",
        |from, out| relations::all(from, out, groups::potential_access),
    )?;
    run(
        &rt,
        &mut out,
        "tests",
        "links of the same: case, table's links, with the list's holder, rounds, what it reaches",
        linked::all,
    )?;
    run(
        &rt,
        &mut out,
        "shown",
        "chains shown: case, number, count, numbers, digest of all 63",
        shown::all,
    )?;
    run(
        &rt,
        &mut out,
        "imports",
        "imports: case, number, table",
        imports::all,
    )?;
    out.flush()
}
