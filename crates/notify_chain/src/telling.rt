//! What a chain does at a change that may be refused: it tells all seats, or takes it back.

ghost use Rattle.std.specs.Prelude.{◌≡◌, ◌≤◌, length, OnOk, OnErr, IfErr};
ghost use Rattle.observe_core.specs.Changes.{told, untold, CanTell};
ghost use Rattle.notify_chain.specs.Seats.{seat_at, seen_at, seats_of, IsKept, Became};
ghost use Rattle.notify_chain.specs.Seats.{AnswersAt, Elsewhere, Between, Throughout};
ghost use Rattle.notify_chain.specs.Seats.{Untouched, EachBelow, Refuses, MayHear, MayUndo};
ghost use Rattle.slab.specs.Slab.{ContainsKey};

use crate::key::SeatKey;
use observe_core::{Change, Observer, Veto, tell, untell};
use slab::Slab;

/// Tells the observer at a key of a change.
fn tell_at<O: Observer>(slab: &mut Slab<O>, key: usize, change: &Change<'_>) -> Result<(), Veto>
    requires there { ContainsKey slab.old key }
    requires can { CanTell change.now (seen_at O.watch slab.old key) }
    ensures there { ContainsKey slab.new key }
    ensures told { AnswersAt O.watch key (told change.now) result slab.old slab.new }
    ensures room { (seat_at O.watch slab.old key).room ≤ (seat_at O.watch slab.new key).room }
    ensures reach { (seat_at O.watch slab.old key).reach ≤ (seat_at O.watch slab.new key).reach }
    ensures elsewhere { Elsewhere slab.old slab.new key }
{
    match slab.get_mut(key) {
        Some(o) => tell(o, change),
        None => Err(Veto::Memory),
    }
}

/// Tells the observer at a key that a change never counted.
fn untell_at<O: Observer>(slab: &mut Slab<O>, key: usize, change: &Change<'_>)
    requires there { ContainsKey slab.old key }
    requires can { MayUndo change.now (seat_at O.watch slab.old key) }
    ensures there { ContainsKey slab.new key }
    ensures untold { seen_at O.watch slab.new key ≡ untold change.now (seen_at O.watch slab.old key) }
    ensures room { (seat_at O.watch slab.old key).room ≤ (seat_at O.watch slab.new key).room }
    ensures reach { (seat_at O.watch slab.old key).reach ≤ (seat_at O.watch slab.new key).reach }
    ensures elsewhere { Elsewhere slab.old slab.new key }
{
    if let Some(o) = slab.get_mut(key) {
        untell(o, change);
    }
}

/// Takes a change back from the seats below a place, the newest first.
pub fn take_back<O: Observer>(
    slab: &mut Slab<O>,
    order: &[usize],
    below: usize,
    change: &Change<'_>,
)
    requires kept { IsKept slab.old order.now }
    requires within { below ≤ length order.now }
    requires can { EachBelow O.watch order.now (MayUndo change.now) slab.old below }
    ensures kept { IsKept slab.new order.now }
    ensures untold { Between O.watch order.now (Became (untold change.now)) slab.old slab.new 0 below }
    ensures rest { Untouched O.watch order.now slab.old slab.new below (length order.now) }
{
    let mut i = below;
    while i > 0 {
        i -= 1;
        untell_at(slab, order[i], change);
    }
}

/// Tells each seat of a change, the oldest first. Where one refuses, those already told are undone,
/// the last told first.
pub fn tell_all<O: Observer>(
    slab: &mut Slab<O>,
    order: &[usize],
    change: &Change<'_>,
) -> Result<(), (SeatKey, Veto)>
    requires kept { IsKept slab.old order.now }
    requires can { EachBelow O.watch order.now (MayHear change.now) slab.old (length order.now) }
    ensures kept { IsKept slab.new order.now }
    ensures ok { OnOk result (Throughout O.watch order.now (Became (told change.now)) slab.old slab.new) }
    ensures err { OnErr result (Throughout O.watch order.now (Became (λ s. s)) slab.old slab.new) }
    ensures refuser { IfErr result (λ e. Refuses (told change.now) (seats_of O.watch slab.old order.now) e.0.0 e.1) }
{
    let mut i = 0;
    while i < order.len() {
        let key = order[i];
        if let Err(veto) = tell_at(slab, key, change) {
            take_back(slab, order, i, change);
            return Err((SeatKey(key), veto));
        }
        i += 1;
    }
    Ok(())
}
