// The capability table of document 01, "Objects, slots, rights": one value of 64 records, each with its eight slots.
#![tactic(auto)]

ghost use Rattle.std.specs.Prelude.{◌≡◌, ◌&&◌, get_or};
ghost use Rattle.mask.specs.Sets.{has as has_bit, bits};
ghost use Rattle.table.specs.Cells.{is_alive, is_active, is_born, is_empty, no_record, unborn_table};
ghost use Rattle.table.specs.Soundness.{record_sound, maker_sound, idle_slot_sound, filled_sound, sound};
ghost use Rattle.table.specs.Helpers.{odd_slot, glance_more, clear_of};

// What a slot holds: a target and rights over it (1 rd, 2 wr, 4 wk, 8 tx). Target 0 with rights 0 is an empty slot.
#[repr(C)]
#[derive(Debug, Clone, Copy, PartialEq, Eq)]
pub struct Capability {
    pub target: u8,
    pub rights: u8,
}

impl Capability {
    // What an empty slot holds.
    pub const EMPTY: Capability = Capability {
        target: 0,
        rights: 0,
    };

    // Is the slot empty?
    pub fn is_empty(self) -> bool
        ensures { result ≡ is_empty self }
    {
        self == Capability::EMPTY
    }
}

// The maker of an object that was not made in a run.
pub const NOBODY: u8 = 64;

// An object's record. `maker` is the number of the object that made it, or 64 for one that was not made in a run; `stock` is the
// set of unborn numbers that the object alone may make objects of.
// Stays: status, kind and rights are numbers and maker 64 is nobody, since C has these structs (include/captable.h) and every value of a
// table has its answer: one with a status of 3 is not sound.
#[repr(C)]
#[derive(Debug, Clone, Copy, PartialEq, Eq)]
pub struct Record {
    pub status: u8,
    pub kind: u8,
    pub maker: u8,
    pub word: u32,
    pub stock: u64,
}

impl Record {
    // The record of an object that was never made.
    pub const UNBORN: Record = Record {
        status: 0,
        kind: 0,
        maker: NOBODY,
        word: 0,
        stock: 0,
    };

    // Is it that of an object that is there?
    pub fn is_alive(self) -> bool
        ensures { result ≡ is_alive self }
    {
        self.status == 1
    }

    // May the object ask for something?
    pub fn is_active(self) -> bool
        ensures { result ≡ is_active self }
    {
        self.kind == 1
    }
}

// Slot j of object n is at n * 8 + j.
#[repr(C)]
#[derive(Debug, Clone, Copy, PartialEq, Eq)]
pub struct Table {
    pub records: [Record; 64],
    pub slots: [Capability; 512],
}

// The wholly unborn table.
pub fn unborn_table() -> Table
    ensures { result ≡ unborn_table }
{
    Table {
        records: [Record::UNBORN; 64],
        slots: [Capability::EMPTY; 512],
    }
}

// Alive or dead.
pub fn is_born(r: Record) -> bool
    ensures { result ≡ is_born r }
{
    (r.status == 1) | (r.status == 2)
}

// The born numbers.
pub fn born_numbers(records: &[Record; 64]) -> u64
    ensures { result ≡ bits 64 (λ n. is_born (get_or records.now n no_record)) }
{
    let mut born: u64 = 0;
    'born: for (n, r) in records.iter().enumerate() {
        if is_born(*r) {
            born = mask::with(born, n as u8);
        }
    }
    born
}

// Is the record by itself as a sound table has it?
pub fn record_sound(r: Record) -> bool
    ensures { result ≡ record_sound r }
{
    if r.status == 1 {
        return r.kind <= 1;
    }
    if !((r.word == 0) & (r.stock == 0)) {
        return false;
    }
    if r.status == 0 {
        return r.kind == 0;
    }
    (r.status == 2) & (r.kind <= 1)
}

// Is the maker as a sound table has it? `born` are the born numbers.
pub fn maker_sound(r: Record, born: u64) -> bool
    ensures { result ≡ maker_sound r (has_bit r.maker born) }
{
    if r.maker == NOBODY {
        return true;
    }
    (r.status != 0) & mask::has(born, r.maker)
}

// Is a slot of the record as a sound table has it? `born` says whether its target is born.
pub fn slot_sound(r: Record, born: bool, c: Capability) -> bool
    ensures { result ≡ (idle_slot_sound r c && filled_sound born c) }
{
    if c.is_empty() {
        return true;
    }
    (r.status == 1) & (born & (1 <= c.rights) & (c.rights <= 15))
}

// What a glance over a record's slots notes: is one of them filled, is one of them odd, and which targets there are, where an
// empty slot's is 0.
#[derive(Clone, Copy)]
struct Glance {
    filled: bool,
    odd: bool,
    named: u64,
}

// A slot that is right in no table: a target above 63, rights above 15, or a target with no rights.
pub fn odd_slot(target: u8, rights: u8) -> bool
    ensures { result ≡ odd_slot target rights }
{
    (64 <= target) | (16 <= rights) | ((target != 0) & (rights == 0))
}

// One slot more.
fn note(g: Glance, c: Capability) -> Glance
    ensures { result ≡ glance_more g c.target c.rights }
{
    Glance {
        filled: g.filled | !c.is_empty(),
        odd: g.odd | odd_slot(c.target, c.rights),
        named: mask::with(g.named, c.target % 64),
    }
}

// Are the slots of the record right by what was noted of all of them? Where this says no they are tested one by one.
fn clear(g: Glance, r: Record, born: u64) -> bool
    ensures { result ≡ clear_of g r born }
{
    if !g.filled {
        return true;
    }
    (r.status == 1) & !g.odd & mask::subset(g.named, born)
}

// The soundness scan of records and slots: it ends at the first offence. `taken` are the numbers that no further stock
// may have: the born ones, and those of the stocks that were passed. Slots that a glance clears are not tested again.
pub fn is_sound(t: Table) -> bool
    ensures { result ≡ sound t }
{
    let born = born_numbers(&t.records);
    let mut taken = born;
    // Stays: document 01 has the scan left by a label, and `ok` says how it was left.
    let mut ok = true;
    'scan: for n in 0..64 {
        let r = t.records[n];
        if !(record_sound(r) & maker_sound(r, born) & mask::disjoint(r.stock, taken)) {
            ok = false;
            break 'scan;
        }
        taken = mask::union(taken, r.stock);
        let mut g = Glance {
            filled: false,
            odd: false,
            named: 0,
        };
        'glance: for k in 0..8 {
            g = note(g, t.slots[n * 8 + k]);
        }
        if clear(g, r, born) {
            continue 'scan;
        }
        'slots: for j in 0..8 {
            let c = t.slots[n * 8 + j];
            if !slot_sound(r, mask::has(born, c.target), c) {
                ok = false;
                break 'scan;
            }
        }
    }
    ok
}
