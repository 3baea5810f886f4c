// The first bytes of a buffer, as a part of it; all of it where it has no more.

pub fn first(s: &[u8], n: usize) -> &[u8] {
    if n <= s.len() {
        return &s[..n];
    }
    s
}

pub fn first_lent(s: &mut [u8], n: usize) -> &mut [u8] {
    if n <= s.len() {
        return &mut s[..n];
    }
    s
}
