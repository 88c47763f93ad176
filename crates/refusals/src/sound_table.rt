// A table that is sound, lent to a request.
#![tactic(auto)]

ghost use Rattle.std.specs.Prelude.{◌≡◌, true, length};
ghost use Rattle.table.specs.Soundness.{sound};

use table::Table;

// Who has one need not ask again. Behind the reference the lengths of the two arrays are a fact to state, which every table meets.
#[derive(Clone, Copy)]
pub struct SoundTable<'a> {
    pub table: &'a Table,
    pub ghost whole: { sound table.now ≡ true },
    pub ghost long: { (length table.now.records ≡ 64) × (length table.now.slots ≡ 512) },
}
