// A request's bytes: the code, then document 01's fields in their order.
#![tactic(auto)]

ghost use Rattle.std.specs.Prelude.{◌≡◌, ◌++◌, ◌≤◌, take, length};
ghost use Rattle.table.specs.Lists.{padded};
ghost use Rattle.requests.specs.Asks.{write, send, allocate, pairs_of, ask_of};
ghost use Rattle.wire_out.specs.Written.{list_bytes, held_bytes, written_of};

use requests::{PairList, Request};

// A request's bytes: the first `count` of them, and zeros after them.
// Stays: `request_bytes` promises the zeros after them too (`written_of`), which an `ArrayVec` would not show.
#[derive(Clone, Copy)]
pub struct Written {
    pub bytes: [u8; 22],
    pub count: usize,
}

// The bytes of fields, with zeros after them.
fn held(fields: &[u8]) -> Written
    requires { length fields.now ≤ 22 }
    ensures { result ≡ held_bytes fields.now }
{
    let mut bytes = [0u8; 22];
    let count = fields.len();
    bytes[..count].copy_from_slice(fields);
    Written { bytes, count }
}

// A write: its word.
fn write_bytes(actor: u8, t: u8, word: u32) -> Written
    ensures { result ≡ written_of (write actor t word) }
{
    let [a, b, c, d] = word.to_be_bytes();
    held(&[2, actor, t, a, b, c, d])
}

// A list where zeros stand, from its place on: its count and then its pairs.
fn with_list(bytes: [u8; 22], place: usize, list: PairList) -> [u8; 22]
    requires { (list.count ≤ 4) × (place ≤ 13) × (bytes ≡ padded 22 0 (take place bytes)) }
    ensures { result ≡ padded 22 0 (take place bytes ++ list_bytes (pairs_of list)) }
{
    let n = usize::from(list.count);
    let mut written = bytes;
    written[place] = list.count;
    for (k, p) in list.pairs[..n].iter().enumerate() {
        let at = place + 1 + 2 * k;
        written[at] = p.from;
        written[at + 1] = p.to;
    }
    written
}

// A send: its word, its list, and the reply after the list.
fn send_bytes(actor: u8, t: u8, word: u32, list: PairList, reply: u8) -> Written
    ensures { result ≡ written_of (send actor t word (pairs_of list) reply) }
{
    let n = usize::from(list.count);
    if 4 < n {
        return held(&[]);
    }
    let [a, b, c, d] = word.to_be_bytes();
    let fields = held(&[6, actor, t, a, b, c, d]);
    let mut bytes = with_list(fields.bytes, 7, list);
    bytes[8 + 2 * n] = reply;
    Written {
        bytes,
        count: 9 + 2 * n,
    }
}

// An allocate: its part, its slot, and its list.
fn allocate_bytes(actor: u8, n: u8, kind: u8, part: u64, i: u8, list: PairList) -> Written
    ensures { result ≡ written_of (allocate actor n kind part i (pairs_of list)) }
{
    let count = usize::from(list.count);
    if 4 < count {
        return held(&[]);
    }
    let [a, b, c, d, e, f, g, h] = part.to_be_bytes();
    let fields = held(&[7, actor, n, kind, a, b, c, d, e, f, g, h, i]);
    Written {
        bytes: with_list(fields.bytes, 13, list),
        count: 14 + 2 * count,
    }
}

// The bytes of a request; of one whose list is longer than 4, none.
pub fn request_bytes(request: Request, list: PairList) -> Written
    ensures { result ≡ written_of (ask_of request list) }
{
    match request {
        Request::Read { actor, t } => held(&[1, actor, t]),
        Request::Write { actor, t, word } => write_bytes(actor, t, word),
        Request::Fetch { actor, t, i, j } => held(&[3, actor, t, i, j]),
        Request::Store { actor, t, i, j } => held(&[4, actor, t, i, j]),
        Request::Revoke { actor, t, j } => held(&[5, actor, t, j]),
        Request::Send {
            actor,
            t,
            word,
            reply,
        } => send_bytes(actor, t, word, list, reply),
        Request::Allocate {
            actor,
            n,
            kind,
            part,
            i,
        } => allocate_bytes(actor, n, kind, part, i, list),
        Request::Destroy { actor, t } => held(&[8, actor, t]),
        Request::Reclaim { actor, t } => held(&[9, actor, t]),
        Request::Unknown { code, actor } => held(&[code, actor]),
    }
}
