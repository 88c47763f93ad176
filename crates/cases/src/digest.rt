// A short number for many bytes, so that a line can stand for a whole table, buffer or relation: a polynomial over the bytes,
// modulo the largest prime below 2 ^ 32. One byte changed always changes it.
use table::{Capability, Record, Table};

// The digest of no bytes.
pub const START: u32 = 2166136261;

// The digest with one more byte.
fn with_byte(h: u32, b: u8) -> u32 {
    (((u64::from(h) + u64::from(b)) * 16777619 + 1) % 4294967291) as u32
}

// The digest with more bytes, in their order.
fn with_bytes(h: u32, bytes: &[u8]) -> u32 {
    bytes.iter().fold(h, |all, b| with_byte(all, *b))
}

fn with_slots(h: u32, slots: &[Capability]) -> u32 {
    slots
        .iter()
        .fold(h, |all, c| with_bytes(all, &[c.target, c.rights]))
}

// The digest with an object: its record, its slots and its maker, in the order of a version 2 image.
fn with_object(h: u32, r: Record, slots: &[Capability]) -> u32 {
    let kinds = with_bytes(h, &[r.status, r.kind]);
    let word = with_bytes(kinds, &r.word.to_be_bytes());
    let stock = with_bytes(word, &r.stock.to_be_bytes());
    with_byte(with_slots(stock, slots), r.maker)
}

// Record by record, each with its eight slots.
pub fn of_table(t: Table) -> u32 {
    let objects = t.records.iter().zip(t.slots.chunks_exact(8));
    objects.fold(START, |all, (r, slots)| with_object(all, *r, slots))
}

pub fn of_bytes(bytes: &[u8]) -> u32 {
    with_bytes(START, bytes)
}

// The words of a relation or of links.
pub fn of_words(words: &[u64]) -> u32 {
    words
        .iter()
        .fold(START, |all, n| with_bytes(all, &n.to_be_bytes()))
}
