// The proved table as the case's firmware calls it from C or Rust; the crate `captable_c` exports each function here under its name. Everything
// that crosses is a number, a slice of bytes (its pointer, then its length) or a struct of document 01's fields. The step has its table lent; the
// other calls take the table by value, so that nothing can change it between their checks and their answer. Every answer is one of document
// 01's numbers, or from 18 on of document 02's; 0 is done.
#![tactic(auto)]

ghost use Rattle.std.specs.Prelude.{◌≡◌, ◌++◌, length, drop};
ghost use Rattle.refusals.specs.Replies.{number as reply_number};
ghost use Rattle.steps.specs.Steps.{step_of};
ghost use Rattle.access.specs.Answers.{access_of};
ghost use Rattle.confinement.specs.Tests.{test_of};
ghost use Rattle.chains.specs.Answers.{chain_of};
ghost use Rattle.table.specs.Cells.{unborn_table};
ghost use Rattle.image.specs.declared.Version.TheVariants.{One, Two};
ghost use Rattle.image.specs.Images.{read_of};
ghost use Rattle.take_grant.specs.Imports.{import_of};
ghost use Rattle.image_out.specs.Written.{write_refusal, written_of};
ghost use Rattle.report.specs.Printed.{printed_of};
ghost use Rattle.wire.specs.Wires.{ask_from};
ghost use Rattle.entries.specs.Entries.{entries_in};
ghost use Rattle.captable.specs.Crossing.{version, sound_number, stepped, related, found, chained, loaded, brought_in, written_number, given};

use access::AccessRefusal;
use bounds::Grown;
use chains::ChainRefusal;
use confinement::TestRefusal;
use image::Version;
use numbers::{Numbered, number_of};
use steps::Stepped;
use table::Table;
use walks::Walked;

// A table that a step, a reading of an image or an import gives, and its number. The table stands first, so that no copy of it has to be moved.
#[repr(C)]
#[derive(Clone, Copy)]
pub struct Outcome {
    pub table: Table,
    pub number: u8,
}

// Potential access: the row at 64 * right + holder has the numbers over which the holder has the right, rights in the order rd, wr,
// wk, tx.
#[repr(C)]
#[derive(Clone, Copy)]
pub struct Relation {
    pub rows: [u64; 256],
    pub number: u8,
}

// What the test found: the bound, and how many rounds added an object to it; empty and 0 on every refusal.
#[repr(C)]
#[derive(Clone, Copy)]
pub struct Finding {
    pub bound: u64,
    pub rounds: u8,
    pub number: u8,
}

// The chain that brings an object into the bound: `count` numbers, zero past them; none on every refusal.
#[repr(C)]
#[derive(Clone, Copy)]
pub struct ShownChain {
    pub numbers: [u8; 63],
    pub count: u8,
    pub number: u8,
}

// A step: the table after it, and the reply's number.
impl From<Stepped> for Outcome {
    ghost from_gives = { λ s o. o ≡ stepped s };

    fn from(done: Stepped) -> Outcome {
        Outcome {
            table: done.table,
            number: number_of(&done.reply),
        }
    }
}

// A table that was read or brought in; on a refusal the wholly unborn one.
impl<E: Numbered + Copy> From<Result<Table, E>> for Outcome {
    ghost from_gives = { λ r o. o ≡ given E.paper_number r };

    fn from(answer: Result<Table, E>) -> Outcome {
        match answer {
            Ok(table) => Outcome { table, number: 0 },
            Err(why) => Outcome {
                table: table::unborn_table(),
                number: why.number(),
            },
        }
    }
}

// On a refusal there are no rights.
impl From<Result<[u64; 256], AccessRefusal>> for Relation {
    ghost from_gives = { λ r o. o ≡ related r };

    fn from(answer: Result<[u64; 256], AccessRefusal>) -> Relation {
        match answer {
            Ok(rows) => Relation { rows, number: 0 },
            Err(why) => Relation {
                rows: [0; 256],
                number: why.number(),
            },
        }
    }
}

// On a refusal the bound is empty, and there is no round.
impl From<Result<Grown, TestRefusal>> for Finding {
    ghost from_gives = { λ r o. o ≡ found r };

    fn from(tested: Result<Grown, TestRefusal>) -> Finding {
        match tested {
            Ok(grown) => Finding {
                bound: grown.bound,
                rounds: grown.rounds,
                number: 0,
            },
            Err(why) => Finding {
                bound: 0,
                rounds: 0,
                number: why.number(),
            },
        }
    }
}

// On a refusal there is no number of a chain.
impl From<Result<Walked, ChainRefusal>> for ShownChain {
    ghost from_gives = { λ r o. o ≡ chained r };

    fn from(shown: Result<Walked, ChainRefusal>) -> ShownChain {
        match shown {
            Ok(walked) => {
                let numbers = walked.numbers;
                ShownChain {
                    numbers,
                    count: walked.count,
                    number: 0,
                }
            }
            Err(why) => ShownChain {
                numbers: [0; 63],
                count: 0,
                number: why.number(),
            },
        }
    }
}

// The version of these calls, for a caller to hold to that of the header it was built with.
pub fn captable_version() -> u32
    ensures { result ≡ version }
{
    2560
}

// The wholly unborn table: every record unborn, with the maker 64. A table of zeros is not it.
pub fn captable_unborn() -> Table
    ensures { result ≡ unborn_table }
{
    table::unborn_table()
}

// 0 for a sound table, 1 for any other.
pub fn captable_sound(table: Table) -> u8
    ensures { result ≡ sound_number table }
{
    if table::is_sound(table) { 0 } else { 1 }
}

// One request on a table by value: its reply's number, and the table after it. The bytes are the code and then document 01's
// fields; any others get 2. A refusal gives back the very table.
pub fn captable_step_by_value(table: Table, request: &[u8]) -> Outcome
    ensures { result ≡ stepped (step_of table (ask_from request.now)) }
{
    let asked = wire::request_in(request);
    Outcome::from(kernel::step(table, asked.request, asked.list))
}

// The same on a table that is lent: a refusal leaves it as it was.
pub fn captable_step(table: &mut Table, request: &[u8]) -> u8
    ensures { (result ≡ reply_number (step_of table.old (ask_from request.now)).reply) × (table.new ≡ (step_of table.old (ask_from request.now)).table) }
{
    let before = *table;
    let done = captable_step_by_value(before, request);
    *table = done.table;
    done.number
}

// The lent step by value, on a local that is lent for the call: whoever calls this one has no reference to a table.
pub fn stepped_in_place(table: Table, request: &[u8]) -> Outcome
    ensures in_place { result ≡ stepped (step_of table (ask_from request.now)) }
{
    let mut held = table;
    let number = captable_step(&mut held, request);
    Outcome {
        table: held,
        number,
    }
}

// Potential access, answered whole; for a table that is not sound the number 1 and no rights.
pub fn captable_access(table: Table) -> Relation
    ensures { result ≡ related (access_of table) }
{
    Relation::from(access::potential_access(table))
}

// The same answer, worked by groups (document 02, 2.9).
pub fn captable_access_by_groups(table: Table) -> Relation
    ensures { result ≡ related (access_of table) }
{
    Relation::from(groups::potential_access(table))
}

// The confinement test of a set of members and a list, two bytes for each entry: target, rights.
pub fn captable_test(table: Table, members: u64, list: &[u8]) -> Finding
    ensures { result ≡ found (test_of table members (entries_in list.now)) }
{
    let entries = entries::list_of(list);
    Finding::from(confinement::test(table, members, entries))
}

// The same answer, worked by groups (document 02, 2.9).
pub fn captable_test_by_groups(table: Table, members: u64, list: &[u8]) -> Finding
    ensures { result ≡ found (test_of table members (entries_in list.now)) }
{
    let entries = entries::list_of(list);
    Finding::from(group_tests::test(table, members, entries))
}

// A shortest chain of links from the stand-in to an object of the bound, the first of its length; the test is that of `captable_test`.
pub fn captable_chain(table: Table, members: u64, list: &[u8], object: u8) -> ShownChain
    ensures { result ≡ chained (chain_of table members (entries_in list.now) object) }
{
    let entries = entries::list_of(list);
    ShownChain::from(chains::chain(table, members, entries, object))
}

// Reads an image of either version; on every refusal with the wholly unborn table.
pub fn captable_read(image: &[u8]) -> Outcome
    ensures { result ≡ loaded (read_of image.now) }
{
    Outcome::from(image::read(image))
}

// Brings in a table of the older rigs, document 02, 2.2; on every refusal with the wholly unborn table.
pub fn captable_import(bytes: &[u8]) -> Outcome
    ensures { result ≡ brought_in (import_of bytes.now) }
{
    Outcome::from(take_grant::import(bytes))
}

// Writes a table's image of version 2 into the first 1,987 bytes of a buffer; a refusal leaves every byte.
pub fn captable_write(table: Table, buffer: &mut [u8]) -> u8
    ensures number { result ≡ written_number (write_refusal Two table buffer.old) }
    ensures left { buffer.new ≡ written_of Two table buffer.old }
{
    number_of(&image_out::write(table, buffer, Version::Two))
}

// The older form: an image of version 1 in the first 1,923 bytes. It has no place for a maker, so 23 where some maker is not 64.
pub fn captable_write_older(table: Table, buffer: &mut [u8]) -> u8
    ensures number { result ≡ written_number (write_refusal One table buffer.old) }
    ensures left { buffer.new ≡ written_of One table buffer.old }
{
    number_of(&image_out::write(table, buffer, Version::One))
}

// Puts what the program `confine` prints for the input at the buffer's start, and says how many bytes that is: at most 191. The
// bytes after them are left as they were.
pub fn captable_confine(input: &[u8], out: &mut [u8; 256]) -> usize
    ensures count { result ≡ length (printed_of input.now) }
    ensures printed { out.new ≡ printed_of input.now ++ drop (length (printed_of input.now)) out.old }
{
    report::confine(input, out)
}
