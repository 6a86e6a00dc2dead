//! What happens for good, as one type, so that what chains do at a loss exists once.

ghost use Rattle.std.specs.Prelude.{◌≡◌, ℕ, ◌≤◌};
ghost use Rattle.observe_core.specs.Losses.{CanLose, lost, leaves_at};

use crate::kinds::After;
use crate::observer::Observer;
use base_items::Fact;

/// What happens for good: an item is erased, or all are.
#[derive(Drop)]
pub enum Loss {
    Erase(Fact),
    Clear,
}

/// Tells an observer of a loss, which it can't refuse. The answer is whether it stays: `Detach`
/// exactly from a fuse that has nothing left after an erasure, and from every fuse at a clear.
pub fn lose<O: Observer>(o: &mut O, loss: &Loss) -> After
    requires { CanLose loss.now (O.watch o.old).seen }
    ensures lost { (O.watch o.new).seen ≡ lost loss.now (O.watch o.old).seen }
    ensures leaves { result ≡ leaves_at loss.now (O.watch o.old).seen }
    ensures room { (O.watch o.old).room ≤ (O.watch o.new).room }
    ensures reach { (O.watch o.old).reach ≤ (O.watch o.new).reach }
{
    match loss {
        Loss::Erase(f) => o.erase(*f),
        Loss::Clear => o.clear(),
    }
}
