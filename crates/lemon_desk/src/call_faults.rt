//! Calls of the system that fail, and their counts.

ghost use Rattle.std.specs.Prelude.{◌≡◌, ◌≤◌, IfOk, Ok, is_err};
ghost use Rattle.edge_io.specs.Causes.{counted};

use edge_io::Failed;

/// What the call of the system gave. Where it failed, the count rises by one.
pub fn noted<T, E: Drop>(given: Result<T, E>, count: &mut u64) -> Result<T, Failed>
    ensures value { IfOk result (λ value. given ≡ Ok value) }
    ensures failed { is_err result ≡ is_err given }
    ensures count { count.new ≡ counted (is_err given) count.old }
    ensures later { count.old ≤ count.new }
{
    match given {
        Ok(value) => Ok(value),
        Err(_) => {
            *count = count.saturating_add(1);
            Err(Failed)
        }
    }
}
