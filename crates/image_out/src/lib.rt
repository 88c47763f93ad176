// Writing a table's image of either version into a buffer: slots, a record, the records, and then the whole with its checks.
#![tactic(auto)]

ghost use Rattle.std.specs.Prelude.{◌≡◌, ◌++◌, ◌≤◌, length, take, drop};
ghost use Rattle.image.specs.Layout.{head as head_of, record_length, image_length, slots_bytes, shared_bytes, stored_bytes, records_bytes, maker_lost};
ghost use Rattle.image_out.specs.Written.{some_lost, write_refusal, written_of};
ghost use Rattle.image_out.specs.Helpers.{with_last};

use image::{Stored, Version};
use table::{Capability, Table};

// Why an image was not written.
#[derive(Debug, Clone, Copy, PartialEq, Eq)]
pub enum WriteRefusal {
    TableUnsound,
    BufferShort,
    MakerRecorded,
}

// Fills sixteen bytes with eight slots.
fn write_slots(bytes: &mut [u8], slots: [Capability; 8])
    requires { length bytes.old ≡ 16 }
    ensures { bytes.new ≡ slots_bytes slots 8 }
{
    for (j, slot) in slots.iter().enumerate() {
        bytes[2 * j] = slot.target;
        bytes[2 * j + 1] = slot.rights;
    }
}

// The record writer of both versions: fills the thirty bytes that they share.
fn write_shared(part: &mut [u8], stored: Stored)
    requires { length part.old ≡ 30 }
    ensures { part.new ≡ shared_bytes stored }
{
    let object = stored.object;
    let slots = stored.slots;
    part[0] = object.status;
    part[1] = object.kind;
    octets::put_number(&mut part[2..6], object.word as u64);
    octets::put_number(&mut part[6..14], object.stock);
    write_slots(&mut part[14..30], slots);
}

// The maker, as last byte of a record's part in version 2; version 1 has no place for it.
fn write_maker(part: &mut [u8], maker: u8, v: Version)
    requires { length part.old ≡ record_length v }
    ensures { part.new ≡ with_last v maker part.old }
{
    match v {
        Version::One => {}
        Version::Two => {
            part[30] = maker;
        }
    }
}

// Fills a record's own part of the image.
fn write_record(part: &mut [u8], stored: Stored, v: Version)
    requires { length part.old ≡ record_length v }
    ensures { part.new ≡ stored_bytes v stored }
{
    let object = stored.object;
    write_shared(&mut part[0..30], stored);
    write_maker(part, object.maker, v);
}

// Fills the 64 records' parts of a buffer.
fn write_records(buffer: &mut [u8], t: Table, v: Version)
    requires { image_length v ≤ length buffer.old }
    ensures { buffer.new ≡ take 3 buffer.old ++ (records_bytes v t 64 ++ drop (image_length v) buffer.old) }
{
    let nothing = Capability::EMPTY;
    let long = image::record_length(v);
    'records: for n in 0..64 {
        let place = 3 + long * n;
        let mut slots = [nothing; 8];
        slots.copy_from_slice(&t.slots[n * 8..n * 8 + 8]);
        let stored = Stored {
            object: t.records[n],
            slots: slots,
        };
        write_record(&mut buffer[place..place + long], stored, v);
    }
}

// Stores the head of a version's images at a buffer's start.
fn write_head(buffer: &mut [u8], v: Version)
    requires { 3 ≤ length buffer.old }
    ensures { buffer.new ≡ head_of v ++ drop 3 buffer.old }
{
    buffer[..3].copy_from_slice(&image::head(v));
}

// Is there no place in the version for the maker?
fn maker_lost(maker: u8, v: Version) -> bool
    ensures { result ≡ maker_lost v maker }
{
    match v {
        Version::One => maker != 64,
        Version::Two => false,
    }
}

// Is there a maker that the version has no place for?
fn some_lost(t: Table, v: Version) -> bool
    ensures { result ≡ some_lost v t }
{
    t.records.iter().any(|r| maker_lost(r.maker, v))
}

// Writes a table's image of a version: 1 for a table that is not sound, 23 for a maker that the version has no place for, 16 for a buffer
// that is too short. A refusal leaves every byte of the buffer; success fills the version's length and touches no byte after it.
// Inlined, so that the table is not copied once more on the way.
#[inline(always)]
pub fn write(t: Table, buffer: &mut [u8], v: Version) -> Result<(), WriteRefusal>
    ensures reply { result ≡ write_refusal v t buffer.old }
    ensures left { buffer.new ≡ written_of v t buffer.old }
{
    if !table::is_sound(t) {
        return Err(WriteRefusal::TableUnsound);
    }
    if some_lost(t, v) {
        return Err(WriteRefusal::MakerRecorded);
    }
    if buffer.len() < image::image_length(v) {
        return Err(WriteRefusal::BufferShort);
    }
    write_head(buffer, v);
    write_records(buffer, t, v);
    Ok(())
}
