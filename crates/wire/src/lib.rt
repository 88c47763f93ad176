// A request from its bytes: the code, then document 01's fields in their order.
#![tactic(auto)]

ghost use Rattle.std.specs.Prelude.{◌≡◌, [], ◌≢◌};
ghost use Rattle.table.specs.Lists.{tabulate};
ghost use Rattle.requests.specs.Asks.{held_pairs};
ghost use Rattle.wire.specs.Wires.{code_in, actor_in, fits_of, ask_from, asked_of};
ghost use Rattle.wire.specs.Helpers.{pair_at, list_of, plain_of, asked_in};

use requests::{Pair, PairList, Request};

// A request and the list beside it.
#[derive(Clone, Copy)]
pub struct Asked {
    pub request: Request,
    pub list: PairList,
}

// The number of nobody, who asks where no byte says who does.
const NOBODY: u8 = 64;

// The most pairs that a list has.
const LONGEST: u8 = 4;

// Who asks: the byte after the code.
fn actor_in(bytes: &[u8]) -> u8
    ensures { result ≡ actor_in bytes.now }
{
    bytes.get(1).copied().unwrap_or(NOBODY)
}

// The code, and 0 where there are no bytes.
fn code_in(bytes: &[u8]) -> u8
    ensures { result ≡ code_in bytes.now }
{
    bytes.first().copied().unwrap_or(0)
}

// A request with an empty list beside it.
fn alone(request: Request) -> Asked
    ensures { result ≡ record { request = request; list = held_pairs [] } }
{
    let none = Pair { from: 0, to: 0 };
    let list = PairList {
        count: 0,
        pairs: [none; 4],
    };
    Asked { request, list }
}

// The pairs that a list's bytes are, and pairs of zeros past their end.
fn pairs_in(bytes: &[u8]) -> [Pair; 4]
    ensures { result ≡ tabulate 4 (pair_at bytes.now) }
{
    let mut pairs = [Pair { from: 0, to: 0 }; 4];
    for (k, pair) in pairs.iter_mut().enumerate() {
        *pair = Pair {
            from: octets::byte_at(bytes, 2 * k),
            to: octets::byte_at(bytes, 2 * k + 1),
        };
    }
    pairs
}

// The list of so many pairs that the bytes are, no fewer and no more, if it is not too long.
fn list_in(count: u8, bytes: &[u8]) -> Option<PairList>
    ensures { result ≡ list_of count bytes.now }
{
    let pairs = pairs_in(bytes);
    if count <= LONGEST && bytes.len() == 2 * usize::from(count) {
        return Some(PairList { count, pairs });
    }
    None
}

// The request that the bytes are, no fewer and no more, if they are one whose fields are numbers alone.
// Stays: what the bytes are may not change (`fields_of`), so the codes are the wire's own numbers; each is tested in one place.
fn plain_in(bytes: &[u8]) -> Option<Request>
    requires { (code_in bytes.now ≢ 6) × (code_in bytes.now ≢ 7) }
    ensures { result ≡ plain_of bytes.now }
{
    match bytes {
        &[1, actor, t] => Some(Request::Read { actor, t }),
        &[2, actor, t, a, b, c, d] => Some(Request::Write {
            actor,
            t,
            word: u32::from_be_bytes([a, b, c, d]),
        }),
        &[3, actor, t, i, j] => Some(Request::Fetch { actor, t, i, j }),
        &[4, actor, t, i, j] => Some(Request::Store { actor, t, i, j }),
        &[5, actor, t, j] => Some(Request::Revoke { actor, t, j }),
        &[8, actor, t] => Some(Request::Destroy { actor, t }),
        &[9, actor, t] => Some(Request::Reclaim { actor, t }),
        _ => None,
    }
}

// A send: its word, its list, and the reply after the list.
fn send_in(bytes: &[u8]) -> Option<Asked>
    requires { code_in bytes.now ≡ 6 }
    ensures { result ≡ asked_in bytes.now }
{
    let &[_, actor, t, w, x, y, z, count, ref list @ .., reply] = bytes else {
        return None;
    };
    let request = Request::Send {
        actor,
        t,
        word: u32::from_be_bytes([w, x, y, z]),
        reply,
    };
    let list = list_in(count, list)?;
    Some(Asked { request, list })
}

// An allocate: its part, its slot, and its list.
fn allocate_in(bytes: &[u8]) -> Option<Asked>
    requires { code_in bytes.now ≡ 7 }
    ensures { result ≡ asked_in bytes.now }
{
    let &[
        _,
        actor,
        n,
        kind,
        a,
        b,
        c,
        d,
        e,
        f,
        g,
        h,
        i,
        count,
        ref list @ ..,
    ] = bytes
    else {
        return None;
    };
    let request = Request::Allocate {
        actor,
        n,
        kind,
        part: u64::from_be_bytes([a, b, c, d, e, f, g, h]),
        i,
    };
    let list = list_in(count, list)?;
    Some(Asked { request, list })
}

// The request that the bytes are, no fewer and no more, if they are one.
fn asked_in(bytes: &[u8]) -> Option<Asked>
    ensures { result ≡ asked_in bytes.now }
{
    match code_in(bytes) {
        6 => send_in(bytes),
        7 => allocate_in(bytes),
        _ => Some(alone(plain_in(bytes)?)),
    }
}

// Are these the bytes of a request, no fewer and no more?
pub fn fits(bytes: &[u8]) -> bool
    ensures { result ≡ fits_of bytes.now }
{
    asked_in(bytes).is_some()
}

// The request of any bytes: those that are no request are one without fields, which the step refuses by 2.
pub fn request_in(bytes: &[u8]) -> Asked
    ensures { result ≡ asked_of (ask_from bytes.now) }
{
    let code = code_in(bytes);
    let actor = actor_in(bytes);
    asked_in(bytes).unwrap_or(alone(Request::Unknown { code, actor }))
}
