//! The values of items by their ids, of which a kept view is made.

ghost use Rattle.std.specs.Prelude.{◌≡◌, ℕ, Bool, true, ℤ};
ghost use Rattle.view_tests.specs.Present.{passes, int_of};

use base_items::{Arc, Node};
use std::alloc::{AllocError, Global};
use view_core::{Filter, Rooms};

/// Which nodes and arcs pass, all of them where there is no filter, and each arc's capacity and
/// flow. Items without values don't pass, and have 0.
#[derive(Drop)]
pub struct Present {
    pub all: bool,
    pub nodes: Vec<bool>,
    pub arcs: Vec<bool>,
    pub caps: Vec<i64>,
    pub flows: Vec<i64>,
}

/// How many ids of each sort the tests have.
pub const IDS: u32 = 16;

// Whether an item passes.
fn flag(all: bool, flags: &[bool], id: u32) -> bool
    ensures { result ≡ passes all flags.now id }
{
    if all {
        return true;
    }
    if (id as usize) < flags.len() {
        return flags[id as usize];
    }
    false
}

// The int of an arc.
fn int(ints: &[i64], id: u32) -> i128
    ensures { result ≡ int_of ints.now id }
{
    if (id as usize) < ints.len() {
        return i128::from(ints[id as usize]);
    }
    0
}

// Another value at an id that there is.
fn put<V: Copy>(values: &mut [V], id: u32, value: V) {
    if (id as usize) < values.len() {
        values[id as usize] = value;
    }
}

impl Present {
    /// The values that new items have.
    pub fn new(alloc: Global, all: bool) -> Result<Present, AllocError> {
        Ok(Present {
            all,
            nodes: vec![in alloc; false; IDS as usize]?,
            arcs: vec![in alloc; false; IDS as usize]?,
            caps: vec![in alloc; 0i64; IDS as usize]?,
            flows: vec![in alloc; 0i64; IDS as usize]?,
        })
    }

    /// Whether a node passes from now on.
    pub fn pass_node(&mut self, id: u32, passes: bool) {
        put(self.nodes.as_mut_slice(), id, passes);
    }

    /// Whether an arc passes from now on.
    pub fn pass_arc(&mut self, id: u32, passes: bool) {
        put(self.arcs.as_mut_slice(), id, passes);
    }

    /// Whether a node passes.
    pub fn keeps_node(&self, id: u32) -> bool {
        flag(self.all, self.nodes.as_slice(), id)
    }

    /// Whether an arc passes.
    pub fn keeps_arc(&self, id: u32) -> bool {
        flag(self.all, self.arcs.as_slice(), id)
    }

    /// Whether the flow of an arc can grow, and whether it can fall.
    pub fn has_room(&self, id: u32) -> (bool, bool) {
        let flow = int(self.flows.as_slice(), id);
        (flow < int(self.caps.as_slice(), id), flow > 0)
    }

    /// The capacity and the flow of an arc from now on.
    pub fn set_room(&mut self, id: u32, cap: i64, flow: i64) {
        put(self.caps.as_mut_slice(), id, cap);
        put(self.flows.as_mut_slice(), id, flow);
    }
}

impl Filter for Present {
    ghost admits_node = { λ _ _. true };

    ghost admits_arc = { λ _ _. true };

    ghost keeps_node = { λ s id. passes s.all s.nodes.items id };

    ghost keeps_arc = { λ s id. passes s.all s.arcs.items id };

    fn node(&self, n: Node) -> bool {
        flag(self.all, self.nodes.as_slice(), n.0)
    }

    fn arc(&self, a: Arc) -> bool {
        flag(self.all, self.arcs.as_slice(), a.0)
    }
}

impl Rooms for Present {
    ghost admits = { λ _ _. true };

    ghost cap_of = { λ s id. int_of s.caps.items id };

    ghost flow_of = { λ s id. int_of s.flows.items id };

    fn cap(&self, a: Arc) -> i128 {
        int(self.caps.as_slice(), a.0)
    }

    fn flow(&self, a: Arc) -> i128 {
        int(self.flows.as_slice(), a.0)
    }
}
