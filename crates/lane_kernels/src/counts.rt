//! How many bools are true.

ghost use Rattle.std.specs.Prelude.{◌≡◌, ℕ, ◌+◌, ◌≤◌, ◌∷◌, [], length};
ghost use Rattle.lane_kernels.specs.Counts.{truths};

use std::simd::prelude::*;

/// How many of eight bools are true.
fn count_eight(a: bool, b: bool, c: bool, d: bool, e: bool, f: bool, g: bool, h: bool) -> u32
    ensures { result ≡ truths (a ∷ b ∷ c ∷ d ∷ e ∷ f ∷ g ∷ h ∷ []) }
{
    let lanes = u8x8::from_array([
        a as u8, b as u8, c as u8, d as u8, e as u8, f as u8, g as u8, h as u8,
    ]);
    lanes.simd_ne(u8x8::splat(0)).to_bitmask().count_ones()
}

/// How many of the values are true.
pub fn count_true(values: &[bool]) -> usize
    ensures { result ≡ truths values.now }
{
    let mut count = 0;
    let mut at = 0;
    while at < values.len() {
        if values.len() - at >= 8 {
            count += count_eight(
                values[at],
                values[at + 1],
                values[at + 2],
                values[at + 3],
                values[at + 4],
                values[at + 5],
                values[at + 6],
                values[at + 7],
            ) as usize;
            at += 8;
        } else {
            if values[at] {
                count += 1;
            }
            at += 1;
        }
    }
    count
}
