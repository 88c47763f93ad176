// Bytes, for whatever crosses as bytes: a byte at a place, and numbers of several bytes, "Big-endian", document 01.
#![tactic(auto)]

ghost use Rattle.std.specs.Prelude.{◌≡◌, ◌≤◌, length};
ghost use Rattle.octets.specs.BigEndian.{byte_at, bytes_of, number_of};

// The byte at a place, and 0 past the end.
pub fn byte_at(bytes: &[u8], k: usize) -> u8
    ensures { result ≡ byte_at bytes.now k }
{
    bytes.get(k).copied().unwrap_or(0)
}

// The number that the bytes are, the most significant first.
pub fn number_of(bytes: &[u8]) -> u64
    requires { length bytes.now ≤ 8 }
    ensures { result ≡ number_of bytes.now }
{
    let mut n = 0;
    for b in bytes {
        n = n * 256 + u64::from(*b);
    }
    n
}

// Fills the bytes with the number, the most significant first.
pub fn put_number(bytes: &mut [u8], n: u64)
    ensures { bytes.new ≡ bytes_of (length bytes.old) n }
{
    let mut rest = n;
    for i in (0..bytes.len()).rev() {
        bytes[i] = (rest % 256) as u8;
        rest /= 256;
    }
}
