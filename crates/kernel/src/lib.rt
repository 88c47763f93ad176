// The step, document 01: a table and a request in, the reply and the table out. Here are the four requests that change more than one
// cell, on a table that is sound, and the choice by the request. Each request gives the table after it, or why it
// is refused; the step puts that together with the table that was there.
#![tactic(auto)]

ghost use Rattle.std.specs.Prelude.{◌≡◌};
ghost use Rattle.requests.specs.Asks.{ask_of, pairs_of, send as send_ask, allocate as allocate_ask, destroy as destroy_ask, reclaim as reclaim_ask};
ghost use Rattle.steps.specs.Steps.{step_of};
ghost use Rattle.steps.specs.Outcomes.{outcome_of};

use effects::{allocated, destroyed, reclaimed, sent};
use refusals::{ALIVE, DEAD, Refusal, SoundTable, check_slot, list_bad};
use requests::{PairList, Request};
use rights::Need;
use steps::Stepped;
use table::Table;

// The word, the pairs and the reply slot go to an active target.
fn send(
    t: SoundTable,
    actor: u8,
    s: u8,
    word: u32,
    l: PairList,
    reply: u8,
) -> Result<Table, Refusal>
    ensures { result ≡ outcome_of t.entry.table.now (send_ask actor s word (pairs_of l) reply) }
{
    let seen = check_slot(t, actor, s, list_bad(l) | (8 < reply), ALIVE, Need::Send)?;
    if !(seen.kind == 1) {
        return Err(Refusal::TargetPassive);
    }
    Ok(sent(*t.table, actor, seen.target, word, l, reply))
}

// n, of the actor's own stock, becomes alive.
fn allocate(
    t: SoundTable,
    actor: u8,
    n: u8,
    kind: u8,
    part: u64,
    i: u8,
    l: PairList,
) -> Result<Table, Refusal>
    ensures { result ≡ outcome_of t.entry.table.now (allocate_ask actor n kind part i (pairs_of l)) }
{
    if (63 < actor) | (63 < n) | (1 < kind) | (7 < i) | list_bad(l) {
        return Err(Refusal::FieldInvalid);
    }
    let a = t.table.records[actor as usize];
    if !a.is_alive() | !a.is_active() {
        return Err(Refusal::ActorUnfit);
    }
    if !mask::has(a.stock, n) | !mask::subset(part, mask::without(a.stock, n)) {
        return Err(Refusal::NotInStock);
    }
    Ok(allocated(*t.table, actor, n, kind, part, i, l))
}

// The target becomes dead, unless it is the actor itself.
fn destroy(t: SoundTable, actor: u8, s: u8) -> Result<Table, Refusal>
    ensures { result ≡ outcome_of t.entry.table.now (destroy_ask actor s) }
{
    let seen = check_slot(t, actor, s, false, ALIVE, Need::Write)?;
    if seen.target == actor {
        return Err(Refusal::ActorItself);
    }
    Ok(destroyed(*t.table, actor, seen.target))
}

// The number of a dead target becomes unborn and joins the actor's stock.
fn reclaim(t: SoundTable, actor: u8, s: u8) -> Result<Table, Refusal>
    ensures { result ≡ outcome_of t.entry.table.now (reclaim_ask actor s) }
{
    let seen = check_slot(t, actor, s, false, DEAD, Need::Write)?;
    Ok(reclaimed(*t.table, actor, seen.target))
}

// The table that one request leaves, or why it is refused: each has its own function.
fn outcome(t: SoundTable, request: Request, list: PairList) -> Result<Table, Refusal>
    ensures { result ≡ outcome_of t.entry.table.now (ask_of request list) }
{
    match request {
        Request::Read { actor, t: s } => steps::read(t, actor, s),
        Request::Write { actor, t: s, word } => steps::write(t, actor, s, word),
        Request::Fetch { actor, t: s, i, j } => steps::fetch(t, actor, s, i, j),
        Request::Store { actor, t: s, i, j } => steps::store(t, actor, s, i, j),
        Request::Revoke { actor, t: s, j } => steps::revoke(t, actor, s, j),
        Request::Send {
            actor,
            t: s,
            word,
            reply,
        } => send(t, actor, s, word, list, reply),
        Request::Allocate {
            actor,
            n,
            kind,
            part,
            i,
        } => allocate(t, actor, n, kind, part, i, list),
        Request::Destroy { actor, t: s } => destroy(t, actor, s),
        Request::Reclaim { actor, t: s } => reclaim(t, actor, s),
        Request::Unknown { code: _, actor: _ } => Err(Refusal::FieldInvalid),
    }
}

// One request on a table: the reply, and the table after it. A refused request gives back the very table.
pub fn step(t: Table, request: Request, list: PairList) -> Stepped
    ensures { result ≡ step_of t (ask_of request list) }
{
    if !table::is_sound(t) {
        return Stepped {
            reply: Err(Refusal::TableUnsound),
            table: t,
        };
    }
    match outcome(SoundTable { table: &t }, request, list) {
        Ok(u) => Stepped {
            reply: Ok(()),
            table: u,
        },
        Err(why) => Stepped {
            reply: Err(why),
            table: t,
        },
    }
}
