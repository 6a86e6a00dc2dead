//! What layers ask of items: whether they pass, and how much room an arc has.

ghost use Rattle.std.specs.Prelude.{◌≡◌, ℕ, Bool, true, ℤ};

use base_items::{Arc, Node};

/// Which nodes and arcs of a view pass.
///
/// Only admitted items may be asked. Each of them has one answer, which no call changes.
pub trait Filter {
    ghost admits_node: { Self → ℕ → Bool };

    ghost admits_arc: { Self → ℕ → Bool };

    ghost keeps_node: { Self → ℕ → Bool };

    ghost keeps_arc: { Self → ℕ → Bool };

    /// Whether the node passes; it must be admitted.
    fn node(&self, n: Node) -> bool
        requires { admits_node self.now n.0 ≡ true }
        ensures { result ≡ keeps_node self.now n.0 };

    /// Whether the arc passes; it must be admitted.
    fn arc(&self, a: Arc) -> bool
        requires { admits_arc self.now a.0 ≡ true }
        ensures { result ≡ keeps_arc self.now a.0 };
}

impl<F: Filter> Filter for &F {
    ghost admits_node = { λ s. F.admits_node s.now };

    ghost admits_arc = { λ s. F.admits_arc s.now };

    ghost keeps_node = { λ s. F.keeps_node s.now };

    ghost keeps_arc = { λ s. F.keeps_arc s.now };

    fn node(&self, n: Node) -> bool {
        (**self).node(n)
    }

    fn arc(&self, a: Arc) -> bool {
        (**self).arc(a)
    }
}

/// The capacity and the flow of each arc of a view.
///
/// Only admitted arcs may be asked. Each of them has one answer of each call, which no call changes.
pub trait Rooms {
    ghost admits: { Self → ℕ → Bool };

    ghost cap_of: { Self → ℕ → ℤ };

    ghost flow_of: { Self → ℕ → ℤ };

    /// The capacity of the arc, which must be admitted.
    fn cap(&self, a: Arc) -> i128
        requires { admits self.now a.0 ≡ true }
        ensures { result ≡ cap_of self.now a.0 };

    /// The flow on the arc, which must be admitted.
    fn flow(&self, a: Arc) -> i128
        requires { admits self.now a.0 ≡ true }
        ensures { result ≡ flow_of self.now a.0 };
}

impl<C: Rooms> Rooms for &C {
    ghost admits = { λ s. C.admits s.now };

    ghost cap_of = { λ s. C.cap_of s.now };

    ghost flow_of = { λ s. C.flow_of s.now };

    fn cap(&self, a: Arc) -> i128 {
        (**self).cap(a)
    }

    fn flow(&self, a: Arc) -> i128 {
        (**self).flow(a)
    }
}
