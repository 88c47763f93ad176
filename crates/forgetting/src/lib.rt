// What a reclaim takes out of the whole table, document 02, 2.8: every capability that names the number, whoever holds it, and every
// maker byte that names it.
#![tactic(auto)]

ghost use Rattle.std.specs.Prelude.{◌≡◌};
ghost use Rattle.forgetting.specs.Forgetting.{unnamed as unnamed_in, maker_left, slots_forgotten, makers_forgotten};

use table::{Capability, NOBODY, Table};

// What a slot holds once nothing names g: an empty slot in place of a capability that did.
pub fn unnamed(c: Capability, g: u8) -> Capability
    ensures { result ≡ unnamed_in g c }
{
    if c.target == g { Capability::EMPTY } else { c }
}

// Who is left as the maker once nothing names g: nobody in its place.
pub fn maker_left(maker: u8, g: u8) -> u8
    ensures { result ≡ maker_left g maker }
{
    if maker == g { NOBODY } else { maker }
}

// The table with every one of its 512 slots so.
pub fn slots_forgotten(t: Table, g: u8) -> Table
    ensures { result ≡ slots_forgotten t g }
{
    let mut u = t;
    'slots: for c in u.slots.iter_mut() {
        *c = unnamed(*c, g);
    }
    u
}

// The table with every one of its 64 maker bytes so.
pub fn makers_forgotten(t: Table, g: u8) -> Table
    ensures { result ≡ makers_forgotten t g }
{
    let mut u = t;
    'makers: for r in u.records.iter_mut() {
        r.maker = maker_left(r.maker, g);
    }
    u
}
