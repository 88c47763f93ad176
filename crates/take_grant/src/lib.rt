// The tables of the older rigs, document 02, 2.2: bytes in, a table out. A capability, then the entities, then what the head is checked for.
// Nothing is kept of bytes that are refused.
#![tactic(auto)]

ghost use Rattle.std.specs.Prelude.{◌≡◌, cond, ◌≤◌, length, drop};
ghost use Rattle.mask.specs.Sets.{has};
ghost use Rattle.take_grant.specs.Entities.{mapped as mapped_rights};
ghost use Rattle.take_grant.specs.Walk.{cap_from, entities_from};
ghost use Rattle.take_grant.specs.Imports.{entity_record, slot_for, imported, import_of};
ghost use Rattle.take_grant.specs.Helpers.{held_of};

use table::{Capability, Record, Table};

// Why bytes were not brought in.
#[derive(Debug, Clone, Copy, PartialEq, Eq)]
pub enum ImportRefusal {
    LengthWrong,
    VersionWrong,
    ValueWrong,
}

// The head: a length of two bytes, the version, the entity count.
const HEAD_LENGTH: usize = 4;

// What the right at a place becomes, if it is among the rights.
fn row(rights: u8, place: u8, becomes: u8) -> u8
    ensures { result ≡ cond (has place rights) becomes 0 }
{
    if mask::has(rights as u64, place) {
        return becomes;
    }
    0
}

// Read becomes rd, Write wr, Grant tx, Store rd and wr together. Create, at place 3, becomes nothing and has no row.
fn mapped(rights: u8) -> u8
    ensures { result ≡ mapped_rights rights }
{
    let read = row(rights, 0, 1);
    let write = row(rights, 1, 2);
    let grant = row(rights, 2, 8);
    let store = row(rights, 4, 3);
    read | write | grant | store
}

// The slot that a capability becomes: empty where no right is left.
fn slot_for(target: u8, rights: u8) -> Capability
    ensures { result ≡ slot_for (record { entity = target; rights = rights }) }
{
    let kept = mapped(rights);
    if kept == 0 {
        return Capability::EMPTY;
    }
    Capability {
        target: target,
        rights: kept,
    }
}

// The slot that the capability at a place becomes, byte by byte, in a table of `count` entities.
fn held_at(bytes: &[u8], at: usize, count: u8) -> Result<Capability, ImportRefusal>
    ensures { result ≡ held_of (cap_from count (drop at bytes.now)) }
{
    if bytes.len() <= at {
        return Err(ImportRefusal::LengthWrong);
    }
    if count <= bytes[at] {
        return Err(ImportRefusal::ValueWrong);
    }
    if bytes.len() <= at + 1 {
        return Err(ImportRefusal::LengthWrong);
    }
    if 31 < bytes[at + 1] {
        return Err(ImportRefusal::ValueWrong);
    }
    Ok(slot_for(bytes[at], bytes[at + 1]))
}

// What an entity becomes: alive, active, word 0, no stock, and made by nobody.
fn entity_record() -> Record
    ensures { result ≡ entity_record }
{
    Record {
        status: 1,
        kind: 1,
        maker: 64,
        word: 0,
        stock: 0,
    }
}

// The walk over the entities, which stand after the head and end where the bytes end. A table that is begun is given up at the first offence.
fn entities(bytes: &[u8], count: u8) -> Result<Table, ImportRefusal>
    requires { (count ≤ 64) × (4 ≤ length bytes.now) }
    ensures { result ≡ imported (entities_from count (drop 4 bytes.now)) }
{
    let mut t = table::unborn_table();
    let mut at = HEAD_LENGTH;
    'entities: for n in 0..count as usize {
        if bytes.len() <= at {
            return Err(ImportRefusal::LengthWrong);
        }
        let capabilities = bytes[at];
        if 8 < capabilities {
            return Err(ImportRefusal::ValueWrong);
        }
        at += 1;
        t.records[n] = entity_record();
        'capabilities: for k in 0..capabilities as usize {
            let slot = held_at(bytes, at, count)?;
            t.slots[n * 8 + k] = slot;
            at += 2;
        }
    }
    if at < bytes.len() {
        return Err(ImportRefusal::LengthWrong);
    }
    Ok(t)
}

// Brings a table in. The first cause decides: 20 for a length field that does not fit the slice, 21 for a version that is not known, 22 for too
// many entities; then what the walk stops at, 22 for a value that may not stand where it stands and 20 for a wrong end.
pub fn import(bytes: &[u8]) -> Result<Table, ImportRefusal>
    ensures { result ≡ import_of bytes.now }
{
    if bytes.len() < HEAD_LENGTH {
        return Err(ImportRefusal::LengthWrong);
    }
    let said = octets::number_of(&bytes[..2]);
    if said != bytes.len() as u64 {
        return Err(ImportRefusal::LengthWrong);
    }
    if bytes[2] != 1 {
        return Err(ImportRefusal::VersionWrong);
    }
    let count = bytes[3];
    if 64 < count {
        return Err(ImportRefusal::ValueWrong);
    }
    entities(bytes, count)
}
