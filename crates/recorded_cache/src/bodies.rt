// The bodies of the recorded offers: byte i of the body of offer k is
//     (7 × k + (2 × (k / 256) + 1) × i) modulo 256
fn byte_at(k: u64, i: usize) -> u8 {
    let first = (k % 256 * 7 % 256) as u8;
    let rise = (k / 256 % 128 * 2 + 1) as u8;
    first.wrapping_add(rise.wrapping_mul((i % 256) as u8))
}

// No body of a list is longer.
pub const LONGEST: usize = 2048;

// Fills the body of offer k.
pub fn fill_body(body: &mut [u8], k: u64) {
    for (i, byte) in body.iter_mut().enumerate() {
        *byte = byte_at(k, i);
    }
}

// Whether every byte is that of the body of offer k.
pub fn same_bytes(body: &[u8], k: u64) -> bool {
    body.iter()
        .enumerate()
        .all(|(i, byte)| *byte == byte_at(k, i))
}
