//! Whether numbers are small enough for the least reduced cost.

ghost use Rattle.std.specs.Prelude.{◌≡◌, true};
ghost use Rattle.lane_kernels.specs.Least.{AllModest};

/// Whether no number is above 2^60 in magnitude.
pub fn all_modest(values: &[i64]) -> bool
    ensures { result ≡ true → AllModest values.now }
{
    let bound: i64 = 1_152_921_504_606_846_976;
    for value in values {
        if *value < -bound {
            return false;
        }
        if *value > bound {
            return false;
        }
    }
    true
}
