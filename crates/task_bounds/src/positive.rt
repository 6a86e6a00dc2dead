//! The first number above 0.

ghost use Rattle.std.specs.Prelude.{◌≡◌, ℕ, ◌+◌, ◌<◌, ◌≤◌, length, IfSome, MatchOption};
ghost use Rattle.plain_certificates.specs.Tables.{at};

/// The first number above 0 from a place on, by how far it is from there.
pub fn first_positive(numbers: &[u64], begin: usize) -> Option<usize>
    requires { begin ≤ length numbers.now }
    ensures found { MatchOption result
        ((k : ℕ) → begin ≤ k → k < length numbers.now → at 0 numbers.now k ≡ 0)
        (λ v. (begin + v < length numbers.now) × (0 < at 0 numbers.now (begin + v))) }
    ensures first { IfSome result (λ v. (k : ℕ) → begin ≤ k → k < begin + v
        → at 0 numbers.now k ≡ 0) }
{
    for k in begin..numbers.len() {
        if numbers[k] > 0 {
            return Some(k - begin);
        }
    }
    None
}
