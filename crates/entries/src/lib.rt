// The entries of a confinement test from their bytes, two for each: target, rights.
#![tactic(auto)]

ghost use Rattle.std.specs.Prelude.{◌≡◌, ◌*◌, ◌≤◌, length, replicate};
ghost use Rattle.table.specs.Cells.{empty_slot};
ghost use Rattle.table.specs.Lists.{tabulate, padded};
ghost use Rattle.entries.specs.Entries.{entry_in, held_entries};

use bounds::EntryList;
use table::Capability;

// The first n entries, and empty slots after them.
fn entries_in(bytes: &[u8], n: usize) -> [Capability; 8]
    requires { (n ≤ 8) × (2 * n ≤ length bytes.now) }
    ensures { result ≡ padded 8 empty_slot (tabulate n (entry_in bytes.now)) }
{
    let nothing = Capability::EMPTY;
    let mut entries = [nothing; 8];
    for (k, entry) in entries[..n].iter_mut().enumerate() {
        *entry = Capability {
            target: bytes[2 * k],
            rights: bytes[2 * k + 1],
        };
    }
    entries
}

// A list that is too long.
fn too_long() -> EntryList
    ensures { result ≡ record { count = 9; entries = replicate 8 empty_slot } }
{
    let nothing = Capability::EMPTY;
    EntryList {
        count: 9,
        entries: [nothing; 8],
    }
}

// The list of bytes, of which eight entries are held; one that is too long, or no list, is held by its count alone.
pub fn list_of(bytes: &[u8]) -> EntryList
    ensures { result ≡ held_entries bytes.now }
{
    let n = bytes.len() / 2;
    if bytes.len() % 2 != 0 {
        return too_long();
    }
    if 8 < n {
        return too_long();
    }
    let entries = entries_in(bytes, n);
    EntryList {
        count: n as u8,
        entries,
    }
}
