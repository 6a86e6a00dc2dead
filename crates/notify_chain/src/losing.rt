//! What a chain does when something is lost for good: some seats leave.

ghost use Rattle.std.specs.Prelude.{◌≡◌, ◌+◌, ◌<◌, ◌≤◌, ◌++◌, length, slice_index, IfSome, IfNone};
ghost use Rattle.std.specs.Prelude.{vec_len, vec_capacity};
ghost use Rattle.observe_core.specs.Losses.{CanLose, lost, leaves_at};
ghost use Rattle.notify_chain.specs.Seats.{seat_at, seats_of, Became, Each, AllSeats};
ghost use Rattle.notify_chain.specs.Seats.{IsKept, Elsewhere, LacksKey};
ghost use Rattle.notify_chain.specs.Leaving.{stayers, goers, Stay};
ghost use Rattle.slab.specs.Slab.{ContainsKey};

use observe_core::{After, Loss, Observer, lose};
use slab::Slab;

/// Tells the observer at a key of a loss.
fn lose_at<O: Observer>(slab: &mut Slab<O>, key: usize, loss: &Loss) -> After
    requires there { ContainsKey slab.old key }
    requires can { CanLose loss.now (seat_at O.watch slab.old key).seen }
    ensures there { ContainsKey slab.new key }
    ensures lost { (seat_at O.watch slab.new key).seen ≡ lost loss.now (seat_at O.watch slab.old key).seen }
    ensures leaves { result ≡ leaves_at loss.now (seat_at O.watch slab.old key).seen }
    ensures room { (seat_at O.watch slab.old key).room ≤ (seat_at O.watch slab.new key).room }
    ensures reach { (seat_at O.watch slab.old key).reach ≤ (seat_at O.watch slab.new key).reach }
    ensures elsewhere { Elsewhere slab.old slab.new key }
{
    match slab.get_mut(key) {
        Some(o) => lose(o, loss),
        None => After::Keep,
    }
}

/// Tells the seats of a loss, the newest first. Those that leave are dropped, and their keys are
/// put to those that left.
pub fn lose_all<O: Observer>(
    slab: &mut Slab<O>,
    order: &mut Vec<usize>,
    left: &mut Vec<usize>,
    loss: &Loss,
)
    requires kept { IsKept slab.old order.old.items }
    requires room { vec_len left.old + vec_len order.old ≤ vec_capacity left.old }
    requires can { AllSeats (λ s. CanLose loss.now s.seen) (seats_of O.watch slab.old order.old.items) }
    ensures kept { IsKept slab.new order.new.items }
    ensures room { vec_len left.new + vec_len order.new ≤ vec_capacity left.new }
    ensures lost { Stay loss.now (seats_of O.watch slab.old order.old.items) (seats_of O.watch slab.new order.new.items) }
    ensures left { left.new.items ≡ left.old.items ++ goers loss.now (seats_of O.watch slab.old order.old.items) }
{
    let mut i = order.len();
    while i > 0 {
        i -= 1;
        let key = order[i];
        if let After::Detach = lose_at(slab, key, loss) {
            drop(slab.try_remove(key));
            order.remove(i);
            match left.push(key) {
                Ok(()) => (),
                Err(_) => unreachable!(),
            }
        }
    }
}

/// Where a key stands in the order. None exactly where it doesn't.
pub fn place_of(order: &[usize], key: usize) -> Option<usize>
    ensures found { IfSome result (λ i. (i < length order.now) × (slice_index order.now i ≡ key)) }
    ensures absent { IfNone result (LacksKey order.now key) }
{
    let mut i = 0;
    while i < order.len() {
        if order[i] == key {
            return Some(i);
        }
        i += 1;
    }
    None
}
