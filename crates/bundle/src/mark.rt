// The first bytes of a bundle: its mark and version, and a byte that may lie past the end.
ghost use Rattle.std.specs.Prelude.{◌≡◌, ◌≤◌, length, get_or, take};
ghost use Rattle.paper.specs.Limits.{sizes_of};
ghost use Rattle.paper.specs.Numbers.{same};
ghost use Rattle.paper.specs.Bundle.{mark, mark_bytes, version_in};

use paper::{LETTERS_BYTES, Version};
use versions::sizes;

// The byte at i, 0 past the end.
pub fn byte_at(s: &[u8], i: usize) -> u8
    ensures { result ≡ get_or s.now i 0 }
{
    if i < s.len() {
        return s[i];
    }
    0
}

// The version that the bytes name: 2 in both bytes of its number, or else 1, against which every other number is then held.
pub fn version_in(s: &[u8]) -> Version
    ensures { result ≡ version_in s.now }
{
    let low = byte_at(s, LETTERS_BYTES);
    let high = byte_at(s, LETTERS_BYTES + 1);
    if low != 2 {
        return Version::One;
    }
    if high != 0 {
        return Version::One;
    }
    Version::Two
}

// The bundle begins with its mark and this version.
pub fn is_marked(s: &[u8], v: Version) -> bool
    requires { mark_bytes ≤ length s.now }
    ensures { result ≡ same (take mark_bytes s.now) (mark (sizes_of v)) }
{
    let z = sizes(v);
    if s[0] != b'R' {
        return false;
    }
    if s[1] != b'M' {
        return false;
    }
    if s[2] != b'A' {
        return false;
    }
    if s[LETTERS_BYTES] != z.version {
        return false;
    }
    s[LETTERS_BYTES + 1] == 0
}
