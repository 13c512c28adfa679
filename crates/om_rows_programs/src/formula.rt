// The formula that picks edits.

/// The number after another: that times 6364136223846793005, plus 1442695040888963407, modulo 2^64.
pub fn number_after(n: u64) -> u64 {
    n.wrapping_mul(6364136223846793005)
        .wrapping_add(1442695040888963407)
}
