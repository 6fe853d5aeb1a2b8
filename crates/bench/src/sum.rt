// A sum of what came out so far, on which the next turn depends, so that no turn can be left out.

// The sum with a value more.
pub(crate) fn mixed(sum: u32, value: u32) -> u32 {
    ((u64::from(sum) * 31 + u64::from(value)) % 4_294_967_291) as u32
}

// A rate that depends on the sum.
pub(crate) fn new_rate(turn: u32, sum: u32) -> u32 {
    ((u64::from(turn) * 7_919 + u64::from(sum)) % 1_000_000 + 1) as u32
}
