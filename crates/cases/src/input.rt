// Tables, requests and lists out of a case's bytes, big-endian.
use bounds::EntryList;
use requests::{Pair, PairList, Request};
use std::array;
use table::{Capability, Record, Table};

// What is left to be read of a case's bytes, and each thing that can come next. A byte past the end reads as 0, so that no caller owes
// a bound.
#[derive(Clone, Copy)]
pub struct Input<'a> {
    left: &'a [u8],
}

impl<'a> Input<'a> {
    pub fn new(bytes: &'a [u8]) -> Input<'a> {
        Input { left: bytes }
    }

    pub fn byte(&mut self) -> u8 {
        match self.left.split_first() {
            Some((first, others)) => {
                self.left = others;
                *first
            }
            None => 0,
        }
    }

    fn bytes<const N: usize>(&mut self) -> [u8; N] {
        array::from_fn(|_| self.byte())
    }

    // A number of two bytes.
    pub fn short(&mut self) -> u16 {
        u16::from_be_bytes(self.bytes())
    }

    // A number of four bytes.
    pub fn word(&mut self) -> u32 {
        u32::from_be_bytes(self.bytes())
    }

    // A number of eight bytes.
    pub fn set(&mut self) -> u64 {
        u64::from_be_bytes(self.bytes())
    }

    fn capability(&mut self) -> Capability {
        Capability {
            target: self.byte(),
            rights: self.byte(),
        }
    }

    // An object of a version 2 image: its record, with its slots before its maker.
    fn object(&mut self, slots: &mut [Capability]) -> Record {
        let status = self.byte();
        let kind = self.byte();
        let word = self.word();
        let stock = self.set();
        for c in slots.iter_mut() {
            *c = self.capability();
        }
        Record {
            status,
            kind,
            word,
            stock,
            maker: self.byte(),
        }
    }

    // A table of 1,984 bytes, sound or not: a version 2 image without its head.
    pub fn table(&mut self) -> Table {
        let mut t = table::unborn_table();
        for (r, slots) in t.records.iter_mut().zip(t.slots.chunks_exact_mut(8)) {
            *r = self.object(slots);
        }
        t
    }

    // A request of 20 bytes: code, actor, t, i, j, n, kind, reply, word (4 bytes), part (8). A request leaves the bytes of other
    // requests' fields unused.
    // Stays: what a case's bytes are may not change (data/), so the codes are their own numbers; each is tested here alone.
    pub fn request(&mut self) -> Request {
        let [code, actor, t, i, j, n, kind, reply] = self.bytes::<8>();
        let word = self.word();
        let part = self.set();
        match code {
            1 => Request::Read { actor, t },
            2 => Request::Write { actor, t, word },
            3 => Request::Fetch { actor, t, i, j },
            4 => Request::Store { actor, t, i, j },
            5 => Request::Revoke { actor, t, j },
            6 => Request::Send {
                actor,
                t,
                word,
                reply,
            },
            7 => Request::Allocate {
                actor,
                n,
                kind,
                part,
                i,
            },
            8 => Request::Destroy { actor, t },
            9 => Request::Reclaim { actor, t },
            _ => Request::Unknown { code, actor },
        }
    }

    fn pair(&mut self) -> Pair {
        Pair {
            from: self.byte(),
            to: self.byte(),
        }
    }

    // The pair list of a request, 9 bytes: the count and four pairs.
    pub fn pair_list(&mut self) -> PairList {
        PairList {
            count: self.byte(),
            pairs: array::from_fn(|_| self.pair()),
        }
    }

    // A list of entries, 17 bytes: the count and eight entries.
    pub fn entry_list(&mut self) -> EntryList {
        EntryList {
            count: self.byte(),
            entries: array::from_fn(|_| self.capability()),
        }
    }
}
