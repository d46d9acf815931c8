//! Bytes of which most are zero.

/// Zero bytes except these, from that byte on.
pub fn bytes_from<const SIZE: usize>(first: usize, bytes: &[u8]) -> [u8; SIZE] {
    let mut all = [0; SIZE];
    for (to, from) in all.iter_mut().skip(first).zip(bytes) {
        *to = *from;
    }
    all
}

/// These bytes, and zero bytes after them.
pub fn filled<const SIZE: usize>(bytes: &[u8]) -> [u8; SIZE] {
    bytes_from(0, bytes)
}
