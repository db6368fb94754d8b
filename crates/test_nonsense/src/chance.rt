// Random numbers that are the same in each run: a number below 2^31 leads to the next.
pub fn next(x: u64) -> u64 {
    (x % 2147483648 * 1103515245 + 12345) % 2147483648
}

// A number below n (0 for n = 0), by the upper bits of x, which are the better ones.
pub fn pick(x: u64, n: u64) -> usize {
    if n == 0 {
        0
    } else {
        (x / 65536 % 32768 % n) as usize
    }
}

pub fn byte_of(x: u64) -> u8 {
    (x / 65536 % 256) as u8
}
