// What turns a request down, document 01, "Why something is turned down": the replies, and the checks of rows 2 to 6, which
// requests share. In the place of row 5, reclaim has row 24 of document 02, 2.8.
#![tactic(auto)]

ghost use Rattle.std.specs.Prelude.{◌≡◌, ◌↔◌, true, Err, IsTrue, Any};
ghost use Rattle.requests.specs.Asks.{pairs_of};
ghost use Rattle.refusals.specs.Refusals.{bad_list, wrong_status};
ghost use Rattle.refusals.specs.Helpers.{pair_bad, first_of, SlotChecked};

mod sound_table;

use requests::{Pair, PairList};
use rights::{Need, need_met};
pub use sound_table::SoundTable;

// The status that a request wants of its target: reclaim a dead one, every other an alive one.
// Stays: `check_slot`, which docs/TRACE.md names, takes any number for it (over a born target one that is neither gets 24), and an enum
// would ask more of callers.
pub const ALIVE: u8 = 1;

pub const DEAD: u8 = 2;

// Why a request was refused, with document 01's number. A reply is `Result<(), Refusal>`: done, or this.
#[derive(Clone, Copy, PartialEq, Eq, Debug)]
pub enum Refusal {
    TableUnsound = 1,
    FieldInvalid = 2,
    ActorUnfit = 3,
    SlotEmpty = 4,
    TargetDead = 5,
    RightAbsent = 6,
    TargetPassive = 7,
    ActorItself = 8,
    NotInStock = 9,
    TargetAlive = 24,
}

// What a request sees through its slot: the slot's capability and its target's kind.
#[derive(Clone, Copy, PartialEq, Eq, Debug)]
pub struct Opened {
    pub target: u8,
    pub rights: u8,
    pub kind: u8,
}

// Why a request was refused by rows 2 to 6, and what was seen through its slot: zeros where a field is out of range.
#[derive(Clone, Copy, PartialEq, Eq, Debug)]
pub struct Denied {
    pub why: Refusal,
    pub seen: Opened,
}

impl From<Denied> for Refusal {
    ghost from_gives = { λ d r. r ≡ d.why };

    fn from(denied: Denied) -> Refusal {
        denied.why
    }
}

// Is a slot of one of the pairs above 7?
fn slots_bad(pairs: &[Pair]) -> bool
    ensures { IsTrue result ↔ Any (λ p. pair_bad p ≡ true) pairs.now }
{
    pairs.iter().any(|p| (7 < p.from) | (7 < p.to))
}

// Is the list longer than 4, or is a slot of a pair above 7?
pub fn list_bad(l: PairList) -> bool
    ensures { result ≡ bad_list (pairs_of l) }
{
    let count = l.count as usize;
    if 4 < count {
        return true;
    }
    slots_bad(&l.pairs[..count])
}

// Row 5, of a target that is dead where an alive one is wanted, or row 24, the other way round.
fn wrong_status(wanted: u8) -> Refusal
    ensures { Err result ≡ wrong_status wanted }
{
    if wanted == ALIVE {
        return Refusal::TargetDead;
    }
    Refusal::TargetAlive
}

// The first of rows 2 to 6 whose cause holds. `why` is what is said of a target with another status than the wanted one.
pub fn first_of(
    bad: bool,
    unfit: bool,
    empty: bool,
    other: bool,
    why: Result<(), Refusal>,
    unable: bool,
) -> Result<(), Refusal>
    ensures { result ≡ first_of bad unfit empty other why unable }
{
    if bad {
        return Err(Refusal::FieldInvalid);
    }
    if unfit {
        return Err(Refusal::ActorUnfit);
    }
    if empty {
        return Err(Refusal::SlotEmpty);
    }
    if other {
        return why;
    }
    if unable {
        return Err(Refusal::RightAbsent);
    }
    Ok(())
}

// Rows 2 to 6 for the actor's slot s. `bad` says whether a field besides these two is out of range, `wanted` which status the
// target is to have. Inlined, so that a request, which wants the refusal alone, pays nothing for what was seen.
#[inline]
pub fn check_slot(
    t: SoundTable,
    actor: u8,
    s: u8,
    bad: bool,
    wanted: u8,
    need: Need,
) -> Result<Opened, Denied>
    ensures { SlotChecked t.entry.table.now actor s bad wanted need result }
{
    if (63 < actor) | (7 < s) | bad {
        return Err(Denied {
            why: Refusal::FieldInvalid,
            seen: Opened {
                target: 0,
                rights: 0,
                kind: 0,
            },
        });
    }
    let k = actor as usize;
    let a = t.table.records[k];
    let c = t.table.slots[k * 8 + s as usize];
    let g = c.target as usize;
    let b = t.table.records[g];
    let unfit = !a.is_alive() | !a.is_active();
    let empty = c.is_empty();
    let other = table::is_born(b) & (b.status != wanted);
    let met = need_met(need, c.rights);
    let why = wrong_status(wanted);
    let seen = Opened {
        target: c.target,
        rights: c.rights,
        kind: b.kind,
    };
    match first_of(false, unfit, empty, other, Err(why), !met) {
        Ok(()) => Ok(seen),
        Err(why) => Err(Denied { why, seen }),
    }
}
