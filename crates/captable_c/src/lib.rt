// The calls of the library `captable` as C and Rust link them: each is exported under its name, with its contract, and does that call. What
// crosses is said there, and the table and the structs are declared in `table` and there.
#![tactic(auto)]

ghost use Rattle.std.specs.Prelude.{◌≡◌, ◌++◌, length, drop};
ghost use Rattle.refusals.specs.Replies.{number as reply_number};
ghost use Rattle.steps.specs.Steps.{step_of};
ghost use Rattle.access.specs.Answers.{access_of};
ghost use Rattle.confinement.specs.Tests.{test_of};
ghost use Rattle.chains.specs.Answers.{chain_of};
ghost use Rattle.table.specs.Cells.{unborn_table};
ghost use Rattle.image.specs.declared.Version.TheVariants.{One, Two};
ghost use Rattle.image.specs.Images.{read_of};
ghost use Rattle.take_grant.specs.Imports.{import_of};
ghost use Rattle.image_out.specs.Written.{write_refusal, written_of};
ghost use Rattle.report.specs.Printed.{printed_of};
ghost use Rattle.wire.specs.Wires.{ask_from};
ghost use Rattle.entries.specs.Entries.{entries_in};
ghost use Rattle.captable.specs.Crossing.{version, sound_number, stepped, related, found, chained, loaded, brought_in, written_number};

use captable::{Finding, Outcome, Relation, ShownChain};
use table::Table;

// The version of these calls, for a caller to hold to that of the header it was built with.
#[unsafe(no_mangle)]
pub extern "C" fn captable_version() -> u32
    ensures { result ≡ version }
{
    captable::captable_version()
}

// The wholly unborn table: every record unborn, with the maker 64. A table of zeros is not it.
#[unsafe(no_mangle)]
pub extern "C" fn captable_unborn() -> Table
    ensures { result ≡ unborn_table }
{
    captable::captable_unborn()
}

// 0 for a sound table, 1 for any other.
#[unsafe(no_mangle)]
pub extern "C" fn captable_sound(table: Table) -> u8
    ensures { result ≡ sound_number table }
{
    captable::captable_sound(table)
}

// One request on a table by value: its reply's number, and the table after it. The bytes are the code and then document 01's
// fields; any others get 2. A refusal gives back the very table.
#[unsafe(no_mangle)]
pub extern "C" fn captable_step_by_value(table: Table, request: &[u8]) -> Outcome
    ensures { result ≡ stepped (step_of table (ask_from request.now)) }
{
    captable::captable_step_by_value(table, request)
}

// The same on a table that is lent: a refusal leaves it as it was.
#[unsafe(no_mangle)]
pub extern "C" fn captable_step(table: &mut Table, request: &[u8]) -> u8
    ensures { (result ≡ reply_number (step_of table.old (ask_from request.now)).reply) × (table.new ≡ (step_of table.old (ask_from request.now)).table) }
{
    captable::captable_step(table, request)
}

// Potential access, answered whole; for a table that is not sound the number 1 and no rights.
#[unsafe(no_mangle)]
pub extern "C" fn captable_access(table: Table) -> Relation
    ensures { result ≡ related (access_of table) }
{
    captable::captable_access(table)
}

// The same answer, worked by groups (document 02, 2.9).
#[unsafe(no_mangle)]
pub extern "C" fn captable_access_by_groups(table: Table) -> Relation
    ensures { result ≡ related (access_of table) }
{
    captable::captable_access_by_groups(table)
}

// The confinement test of a set of members and a list, two bytes for each entry: target, rights.
#[unsafe(no_mangle)]
pub extern "C" fn captable_test(table: Table, members: u64, list: &[u8]) -> Finding
    ensures { result ≡ found (test_of table members (entries_in list.now)) }
{
    captable::captable_test(table, members, list)
}

// The same answer, worked by groups (document 02, 2.9).
#[unsafe(no_mangle)]
pub extern "C" fn captable_test_by_groups(table: Table, members: u64, list: &[u8]) -> Finding
    ensures { result ≡ found (test_of table members (entries_in list.now)) }
{
    captable::captable_test_by_groups(table, members, list)
}

// A shortest chain of links from the stand-in to an object of the bound, the first of its length; the test is that of `captable_test`.
#[unsafe(no_mangle)]
pub extern "C" fn captable_chain(table: Table, members: u64, list: &[u8], object: u8) -> ShownChain
    ensures { result ≡ chained (chain_of table members (entries_in list.now) object) }
{
    captable::captable_chain(table, members, list, object)
}

// Reads an image of either version; on every refusal with the wholly unborn table.
#[unsafe(no_mangle)]
pub extern "C" fn captable_read(image: &[u8]) -> Outcome
    ensures { result ≡ loaded (read_of image.now) }
{
    captable::captable_read(image)
}

// Brings in a table of the older rigs, document 02, 2.2; on every refusal with the wholly unborn table.
#[unsafe(no_mangle)]
pub extern "C" fn captable_import(bytes: &[u8]) -> Outcome
    ensures { result ≡ brought_in (import_of bytes.now) }
{
    captable::captable_import(bytes)
}

// Writes a table's image of version 2 into the first 1,987 bytes of a buffer; a refusal leaves every byte.
#[unsafe(no_mangle)]
pub extern "C" fn captable_write(table: Table, buffer: &mut [u8]) -> u8
    ensures number { result ≡ written_number (write_refusal Two table buffer.old) }
    ensures left { buffer.new ≡ written_of Two table buffer.old }
{
    captable::captable_write(table, buffer)
}

// The older form: an image of version 1 in the first 1,923 bytes. It has no place for a maker, so 23 where some maker is not 64.
#[unsafe(no_mangle)]
pub extern "C" fn captable_write_older(table: Table, buffer: &mut [u8]) -> u8
    ensures number { result ≡ written_number (write_refusal One table buffer.old) }
    ensures left { buffer.new ≡ written_of One table buffer.old }
{
    captable::captable_write_older(table, buffer)
}

// Puts what the program `confine` prints for the input at the buffer's start, and says how many bytes that is: at most 191. The
// bytes after them are left as they were.
#[unsafe(no_mangle)]
pub extern "C" fn captable_confine(input: &[u8], out: &mut [u8; 256]) -> usize
    ensures count { result ≡ length (printed_of input.now) }
    ensures printed { out.new ≡ printed_of input.now ++ drop (length (printed_of input.now)) out.old }
{
    captable::captable_confine(input, out)
}
