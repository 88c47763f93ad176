// The stored image of a table, big-endian: a head, then 64 records. Version 1, document 01: 1,923 bytes, records of 30. Version 2,
// document 02, 2.7: 1,987 bytes, records of 31, with the maker last. Reading takes both. It goes by slots, a record, the table, and then what
// an image is checked for.
#![tactic(auto)]

ghost use Rattle.std.specs.Prelude.{◌≡◌, ◌≤◌, length, ok_or, unwrap_or};
ghost use Rattle.table.specs.Lists.{tabulate};
ghost use Rattle.image.specs.Layout.{head as head_of, record_length, image_length, slot_from, maker_from, stored_with, stored_from, table_from};
ghost use Rattle.image.specs.declared.ReadRefusal.TheVariants.{VersionWrong};
ghost use Rattle.image.specs.declared.Version.TheVariants.{One};
ghost use Rattle.image.specs.Images.{version_as, head_refusal, read_of};

use table::{Capability, Record, Table};

// The versions of the layout.
#[derive(Debug, Clone, Copy, PartialEq, Eq)]
pub enum Version {
    One,
    Two,
}

// Every image of version 1 begins with these: length 1,923, version 1.
pub const HEAD_ONE: [u8; 3] = [0x07, 0x83, 0x01];

// And of version 2: length 1,987, version 2.
pub const HEAD_TWO: [u8; 3] = [0x07, 0xC3, 0x02];

// Why an image was not read.
#[derive(Debug, Clone, Copy, PartialEq, Eq)]
pub enum ReadRefusal {
    TableUnsound,
    LengthWrong,
    VersionWrong,
}

// The version that a version byte says, if it says one.
impl TryFrom<u8> for Version {
    type Error = ReadRefusal;

    ghost try_from_gives = { λ byte r. r ≡ ok_or (version_as byte) VersionWrong };

    fn try_from(byte: u8) -> Result<Version, ReadRefusal> {
        match byte {
            1 => Ok(Version::One),
            2 => Ok(Version::Two),
            _ => Err(ReadRefusal::VersionWrong),
        }
    }
}

// The same with no refusal: Two for the byte 2, and One for every other byte.
pub fn version_in(byte: u8) -> Version
    ensures { result ≡ unwrap_or (version_as byte) One }
{
    Version::try_from(byte).unwrap_or(Version::One)
}

// An object with its eight slots, as one record of the image.
#[derive(Clone, Copy)]
pub struct Stored {
    pub object: Record,
    pub slots: [Capability; 8],
}

// The head of a version's images.
pub fn head(v: Version) -> [u8; 3]
    ensures { result ≡ head_of v }
{
    match v {
        Version::One => HEAD_ONE,
        Version::Two => HEAD_TWO,
    }
}

// The bytes of a record.
pub fn record_length(v: Version) -> usize
    ensures { result ≡ record_length v }
{
    match v {
        Version::One => 30,
        Version::Two => 31,
    }
}

// The bytes of an image: the head and 64 records.
pub fn image_length(v: Version) -> usize
    ensures { result ≡ image_length v }
{
    match v {
        Version::One => 1923,
        Version::Two => 1987,
    }
}

// The eight slots of a record's part.
fn read_slots(part: &[u8]) -> [Capability; 8]
    requires { 30 ≤ length part.now }
    ensures { result ≡ tabulate 8 (slot_from part.now) }
{
    let nothing = Capability::EMPTY;
    let mut slots = [nothing; 8];
    for (j, slot) in slots.iter_mut().enumerate() {
        *slot = Capability {
            target: part[14 + 2 * j],
            rights: part[15 + 2 * j],
        };
    }
    slots
}

// The record reader of both versions: what the first thirty bytes of a record's own part say, with a maker. Numbers are read by four
// bytes, the stock in two halves.
fn read_shared(part: &[u8], maker: u8) -> Stored
    requires { 30 ≤ length part.now }
    ensures { result ≡ stored_with part.now maker }
{
    let word = octets::number_of(&part[2..6]) as u32;
    let high = octets::number_of(&part[6..10]);
    let low = octets::number_of(&part[10..14]);
    let stock = high * 4294967296 + low;
    let slots = read_slots(part);
    let object = Record {
        status: part[0],
        kind: part[1],
        maker: maker,
        word: word,
        stock: stock,
    };
    Stored {
        object: object,
        slots: slots,
    }
}

// The maker in a record's part: the last byte in version 2, and nobody in version 1, which has none.
fn maker_in(part: &[u8], v: Version) -> u8
    requires { length part.now ≡ record_length v }
    ensures { result ≡ maker_from v part.now }
{
    match v {
        Version::One => 64,
        Version::Two => part[30],
    }
}

// A record from its own part of the image.
fn read_record(part: &[u8], v: Version) -> Stored
    requires { length part.now ≡ record_length v }
    ensures { result ≡ stored_from v part.now }
{
    let maker = maker_in(part, v);
    read_shared(part, maker)
}

// The table of an image that has its length.
fn read_table(image: &[u8], v: Version) -> Table
    requires { length image.now ≡ image_length v }
    ensures { result ≡ table_from v image.now }
{
    let long = record_length(v);
    let mut t = table::unborn_table();
    'records: for n in 0..64 {
        let at = 3 + long * n;
        let stored = read_record(&image[at..at + long], v);
        t.records[n] = stored.object;
        t.slots[n * 8..n * 8 + 8].copy_from_slice(&stored.slots);
    }
    t
}

// The version of an image, or what its head is refused for: 14 below three bytes, 15 for a version byte that is neither 1 nor 2, then 14
// for another length than the version's own.
pub fn head_reply(image: &[u8]) -> Result<Version, ReadRefusal>
    ensures { result ≡ head_refusal image.now }
{
    if image.len() < 3 {
        return Err(ReadRefusal::LengthWrong);
    }
    let v = Version::try_from(image[2])?;
    if image.len() != image_length(v) || !image.starts_with(&head(v)) {
        return Err(ReadRefusal::LengthWrong);
    }
    Ok(v)
}

// Reads an image of either version: what its head is refused for, then 1 for a table that is not sound.
pub fn read(image: &[u8]) -> Result<Table, ReadRefusal>
    ensures { result ≡ read_of image.now }
{
    let v = head_reply(image)?;
    let found = read_table(image, v);
    if !table::is_sound(found) {
        return Err(ReadRefusal::TableUnsound);
    }
    Ok(found)
}
