// Potential access, document 01: who can come to have which right over whom, answered whole for all 64 numbers. It is worked by
// the rules themselves, until they add nothing.
#![tactic(auto)]

use table::Table;

pub mod start; // start.rt: the words that the rules start from

ghost use Rattle.std.specs.Prelude.{◌≡◌};
ghost use Rattle.access.specs.Answers.{access_of};

// Why no relation is answered: the table is not sound.
#[derive(Debug, Clone, Copy, PartialEq, Eq)]
pub enum AccessRefusal {
    TableUnsound,
}

// The whole relation of a sound table, as rows of sets: the row at 64 * right + holder has the numbers over which the holder has
// the right, with rights in the order rd, wr, wk, tx.
pub fn potential_access(t: Table) -> Result<[u64; 256], AccessRefusal>
    ensures { result ≡ access_of t }
{
    if !table::is_sound(t) {
        return Err(AccessRefusal::TableUnsound);
    }
    let born = start::born_outside(t.records, 0);
    let words = relation::saturate(start::held_words(t.slots, born, born));
    Ok(words)
}
