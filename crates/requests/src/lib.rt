// What a request is, document 01, "The eight requests", and the ninth, reclaim, of document 02, 2.8: a request with its numbers, and
// the pair list beside it.
#![tactic(auto)]

// A pair is (actor's slot, destination slot).
#[repr(C)]
#[derive(Debug, Clone, Copy, PartialEq, Eq)]
pub struct Pair {
    pub from: u8,
    pub to: u8,
}

// A list of `count` pairs. A count above 4 is a list too long; pairs at or after the count are no part of it.
// Stays: a count beside an array, for memory is fixed, and a list too long has to be sayable, since it gets refusal 2 (`list_bad` of
// refusals). It is not compared by ==, which would look at pairs that are no part of it.
#[repr(C)]
#[derive(Debug, Clone, Copy)]
pub struct PairList {
    pub count: u8,
    pub pairs: [Pair; 4],
}

// `t` is the actor's slot that is used. The list of a send or an allocate stands beside the request.
#[derive(Debug, Clone, Copy, PartialEq, Eq)]
pub enum Request {
    Read {
        actor: u8,
        t: u8,
    },
    Write {
        actor: u8,
        t: u8,
        word: u32,
    },
    Fetch {
        actor: u8,
        t: u8,
        i: u8,
        j: u8,
    },
    Store {
        actor: u8,
        t: u8,
        i: u8,
        j: u8,
    },
    Revoke {
        actor: u8,
        t: u8,
        j: u8,
    },
    Send {
        actor: u8,
        t: u8,
        word: u32,
        reply: u8,
    },
    Allocate {
        actor: u8,
        n: u8,
        kind: u8,
        part: u64,
        i: u8,
    },
    Destroy {
        actor: u8,
        t: u8,
    },
    Reclaim {
        actor: u8,
        t: u8,
    },
    // A code that is not 1 to 9, and who asked.
    Unknown {
        code: u8,
        actor: u8,
    },
}
