//! Digraphs by number, told to two chains of guards.

ghost use Rattle.std.specs.Prelude.{◌≤◌, IfSome};
ghost use Rattle.notify_chain.specs.Seats.{seats};
ghost use Rattle.static_digraph.specs.Told.{AreBlank};

use base_items::ItemSort;
use guard_kinds::{Guard, Quota};
use notify_chain::{Chain, SeatKey};
use observe_core::Observer;
use static_digraph::{FixFault, Fixed};
use std::alloc::Global;
use std::process::Abort;

// A chain whose one guard allows so many items.
fn quota_chain(alloc: Global, k: u32) -> Option<(Chain<Guard>, SeatKey)>
    requires { k ≤ 4194304 }
    ensures { IfSome result (λ made. AreBlank (seats ⟦<Guard as Observer>⟧.watch made.0)) }
{
    let mut chain = Chain::new(alloc);
    let mut guard = Quota::new(alloc);
    guard.arm(k);
    match chain.attach(guard, &[]) {
        Ok(key) => Some((chain, key)),
        Err(_) => None,
    }
}

// How many items the guard of the seat tracks.
fn tracked(chain: &Chain<Guard>, key: SeatKey) -> Option<u32> {
    Some(chain.get(key)?.readout().items)
}

#[test]
fn a_third_node_is_one_too_many(rt: HostRuntime) {
    let Some((mut on_nodes, few)) = quota_chain(rt.alloc(), 2) else {
        panic!(rt; "no memory for a chain");
    };
    let Some((mut on_arcs, many)) = quota_chain(rt.alloc(), 9) else {
        panic!(rt; "no memory for a chain");
    };
    let built = Fixed::build(rt.alloc(), &[4, 7, 9], &[], &mut on_nodes, &mut on_arcs);
    match built {
        Ok(_) => panic!(rt; "three nodes under a quota of two"),
        Err(fault) => assert_eq!(rt; fault, FixFault::Vetoed(ItemSort::Node, few)),
    }
    assert_eq!(rt; tracked(&on_nodes, few), Some(0));
    assert_eq!(rt; tracked(&on_arcs, many), Some(0));
}

#[test]
fn two_nodes_are_numbered_in_the_given_order(rt: HostRuntime) {
    let Some((mut on_nodes, few)) = quota_chain(rt.alloc(), 2) else {
        panic!(rt; "no memory for a chain");
    };
    let Some((mut on_arcs, many)) = quota_chain(rt.alloc(), 9) else {
        panic!(rt; "no memory for a chain");
    };
    let Ok(fixed) = Fixed::build(rt.alloc(), &[9, 4], &[], &mut on_nodes, &mut on_arcs) else {
        panic!(rt; "a digraph within its quotas");
    };
    assert_eq!(rt; (fixed.node_count(), fixed.arc_count()), (2, 0));
    assert_eq!(rt; tracked(&on_nodes, few), Some(2));
    assert_eq!(rt; tracked(&on_arcs, many), Some(0));
}
