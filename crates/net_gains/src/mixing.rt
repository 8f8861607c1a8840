//! The numbers of a cube mixed into one word, which is hashed instead of them.

ghost use Rattle.std.specs.Prelude.{◌≡◌};
ghost use Rattle.net_gains.specs.Mixing.{mixed_with};

const MULTIPLIER: u64 = 0x9e37_79b9_7f4a_7c15;

/// One number for all numbers of a cube. Cubes that differ may have the same one, as with hashes.
pub(crate) fn mixed(numbers: &[u32]) -> u64
    ensures { result ≡ mixed_with 1 numbers.now }
{
    let mut made: u64 = 1;
    for at in 0..numbers.len() {
        made = made
            .wrapping_mul(MULTIPLIER)
            .wrapping_add(numbers[at] as u64);
    }
    made
}
