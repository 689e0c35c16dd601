// A sum over a buffer that tells the places too: each number times twice its place and one, wrapping at 64 bits.
pub fn sum_of(words: &[u64]) -> u64 {
    let mut sum: u64 = 0;
    let mut placed: u64 = 0;
    for word in words.iter().rev() {
        sum = sum.wrapping_add(*word);
        placed = placed.wrapping_add(sum);
    }
    // `placed` has each number as often as its place and one.
    placed.wrapping_add(placed).wrapping_sub(sum)
}
