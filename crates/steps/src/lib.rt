// A step, document 01: a table and a request in, the reply and the table out. Here are the five requests that change one cell, a word
// or a slot; each is its checks and then its effect, on a table that is sound. Each gives the table after it, or
// why it is refused, which leaves the caller's table as it is.
#![tactic(auto)]

ghost use Rattle.std.specs.Prelude.{◌≡◌};
ghost use Rattle.requests.specs.Asks.{read as read_ask, write as write_ask, fetch as fetch_ask, store as store_ask, revoke as revoke_ask};
ghost use Rattle.steps.specs.Outcomes.{outcome_of};

use copies::{fetched, landed};
use refusals::{ALIVE, Refusal, SoundTable, check_slot};
use rights::Need;
use table::{Capability, Table};

// What a step gives back: the reply, and the table after it.
#[derive(Clone, Copy)]
pub struct Stepped {
    pub reply: Result<(), Refusal>,
    pub table: Table,
}

// The actor's word becomes the target's word.
pub fn read(t: SoundTable, actor: u8, s: u8) -> Result<Table, Refusal>
    ensures { result ≡ outcome_of t.entry.table.now (read_ask actor s) }
{
    let seen = check_slot(t, actor, s, false, ALIVE, Need::ReadOrWeak)?;
    let mut u = *t.table;
    u.records[actor as usize].word = u.records[seen.target as usize].word;
    Ok(u)
}

// The target's word becomes the word.
pub fn write(t: SoundTable, actor: u8, s: u8, word: u32) -> Result<Table, Refusal>
    ensures { result ≡ outcome_of t.entry.table.now (write_ask actor s word) }
{
    let seen = check_slot(t, actor, s, false, ALIVE, Need::Write)?;
    let mut u = *t.table;
    u.records[seen.target as usize].word = word;
    Ok(u)
}

// The target's slot i to the actor's slot j, weakened if rd is absent. A copy that comes out empty changes nothing.
pub fn fetch(t: SoundTable, actor: u8, s: u8, i: u8, j: u8) -> Result<Table, Refusal>
    ensures { result ≡ outcome_of t.entry.table.now (fetch_ask actor s i j) }
{
    let seen = check_slot(t, actor, s, (7 < i) | (7 < j), ALIVE, Need::ReadOrWeak)?;
    let mut u = *t.table;
    let from = seen.target as usize * 8 + i as usize;
    let to = actor as usize * 8 + j as usize;
    let got = fetched(seen.rights, u.slots[from]);
    u.slots[to] = landed(u.slots[to], got);
    Ok(u)
}

// The actor's slot i to the target's slot j. An empty one changes nothing.
pub fn store(t: SoundTable, actor: u8, s: u8, i: u8, j: u8) -> Result<Table, Refusal>
    ensures { result ≡ outcome_of t.entry.table.now (store_ask actor s i j) }
{
    let seen = check_slot(t, actor, s, (7 < i) | (7 < j), ALIVE, Need::Write)?;
    let mut u = *t.table;
    let from = actor as usize * 8 + i as usize;
    let to = seen.target as usize * 8 + j as usize;
    let given = u.slots[from];
    u.slots[to] = landed(u.slots[to], given);
    Ok(u)
}

// The target's slot j is emptied.
pub fn revoke(t: SoundTable, actor: u8, s: u8, j: u8) -> Result<Table, Refusal>
    ensures { result ≡ outcome_of t.entry.table.now (revoke_ask actor s j) }
{
    let seen = check_slot(t, actor, s, 7 < j, ALIVE, Need::Write)?;
    let mut u = *t.table;
    u.slots[seen.target as usize * 8 + j as usize] = Capability::EMPTY;
    Ok(u)
}
