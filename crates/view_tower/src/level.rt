//! One level of a tower, over any shown digraph below it.

ghost use Rattle.std.specs.Prelude.{◌≡◌, ◌≤◌, ◌^◌};
ghost use Rattle.view_core.specs.Admitted.{AdmitsNodes, AdmitsArcs};
ghost use Rattle.view_tower.specs.Levels.{asks_node, asks_arc};

use base_items::{Arc, Node};
use residual_view::Residual;
use view_adaptors::{Reverse, SplitNodes, Sub, Undirect};
use view_core::{Filter, Rooms, Shown};

/// What a level does with what is shown below it: it passes it on, or is one of the layers, with
/// its filters, or its capacity and flow.
#[derive(Drop)]
pub enum How<F, C> {
    Pass,
    Reverse,
    Sub(F),
    Undirect,
    Residual(C),
    Split,
}

/// One level of a tower. Each walk makes the adaptor of the level over what is below, and takes one
/// step of it.
#[derive(Drop)]
pub struct Level<G: Shown, F: Filter, C: Rooms> {
    below: G,
    how: How<F, C>,
    ghost small: { G.bound below ≤ 2 ^ 30 },
    ghost nodes_admitted: { AdmitsNodes (asks_node F.admits_node how) (G.graph below) },
    ghost arcs_admitted: { AdmitsArcs (asks_arc F.admits_arc C.admits how) (G.graph below) },
}

impl<G: Shown, F: Filter, C: Rooms> Level<G, F, C> {
    /// A level over a view whose ids are below 2^30, and whose items its filters and rooms admit.
    pub fn new(below: G, how: How<F, C>) -> Level<G, F, C>
        requires small { G.bound below ≤ 2 ^ 30 }
        requires nodes { AdmitsNodes (asks_node F.admits_node how) (G.graph below) }
        requires arcs { AdmitsArcs (asks_arc F.admits_arc C.admits how) (G.graph below) }
        ensures below { result.below ≡ below }
        ensures how { result.how ≡ how }
    {
        Level { below, how }
    }
}

impl<G: Shown, F: Filter, C: Rooms> Shown for Level<G, F, C> {
    ghost use Rattle.view_tower.specs.Levels.{level_of, level_bound, level_is_shown, level_below};

    ghost graph = { λ s. level_of F.keeps_node F.keeps_arc C.cap_of C.flow_of s.how
        (G.graph s.below) };

    ghost bound = { λ s. level_bound s.how (G.bound s.below) };

    fn id_bound(&self) -> u32 {
        match &self.how {
            How::Pass => self.below.id_bound(),
            How::Reverse => Reverse::new(&self.below).id_bound(),
            How::Sub(filter) => Sub::new(&self.below, filter).id_bound(),
            How::Undirect => Undirect::new(&self.below).id_bound(),
            How::Residual(rooms) => Residual::new(&self.below, rooms).id_bound(),
            How::Split => SplitNodes::new(&self.below).id_bound(),
        }
    }

    fn has_node(&self, n: Node) -> bool {
        match &self.how {
            How::Pass => self.below.has_node(n),
            How::Reverse => Reverse::new(&self.below).has_node(n),
            How::Sub(filter) => Sub::new(&self.below, filter).has_node(n),
            How::Undirect => Undirect::new(&self.below).has_node(n),
            How::Residual(rooms) => Residual::new(&self.below, rooms).has_node(n),
            How::Split => SplitNodes::new(&self.below).has_node(n),
        }
    }

    fn has_arc(&self, a: Arc) -> bool {
        match &self.how {
            How::Pass => self.below.has_arc(a),
            How::Reverse => Reverse::new(&self.below).has_arc(a),
            How::Sub(filter) => Sub::new(&self.below, filter).has_arc(a),
            How::Undirect => Undirect::new(&self.below).has_arc(a),
            How::Residual(rooms) => Residual::new(&self.below, rooms).has_arc(a),
            How::Split => SplitNodes::new(&self.below).has_arc(a),
        }
    }

    fn first_node(&self) -> Option<Node> {
        match &self.how {
            How::Pass => self.below.first_node(),
            How::Reverse => Reverse::new(&self.below).first_node(),
            How::Sub(filter) => Sub::new(&self.below, filter).first_node(),
            How::Undirect => Undirect::new(&self.below).first_node(),
            How::Residual(rooms) => Residual::new(&self.below, rooms).first_node(),
            How::Split => SplitNodes::new(&self.below).first_node(),
        }
    }

    fn next_node(&self, n: Node) -> Option<Node> {
        match &self.how {
            How::Pass => self.below.next_node(n),
            How::Reverse => Reverse::new(&self.below).next_node(n),
            How::Sub(filter) => Sub::new(&self.below, filter).next_node(n),
            How::Undirect => Undirect::new(&self.below).next_node(n),
            How::Residual(rooms) => Residual::new(&self.below, rooms).next_node(n),
            How::Split => SplitNodes::new(&self.below).next_node(n),
        }
    }

    fn first_out(&self, n: Node) -> Option<Arc> {
        match &self.how {
            How::Pass => self.below.first_out(n),
            How::Reverse => Reverse::new(&self.below).first_out(n),
            How::Sub(filter) => Sub::new(&self.below, filter).first_out(n),
            How::Undirect => Undirect::new(&self.below).first_out(n),
            How::Residual(rooms) => Residual::new(&self.below, rooms).first_out(n),
            How::Split => SplitNodes::new(&self.below).first_out(n),
        }
    }

    fn next_out(&self, a: Arc) -> Option<Arc> {
        match &self.how {
            How::Pass => self.below.next_out(a),
            How::Reverse => Reverse::new(&self.below).next_out(a),
            How::Sub(filter) => Sub::new(&self.below, filter).next_out(a),
            How::Undirect => Undirect::new(&self.below).next_out(a),
            How::Residual(rooms) => Residual::new(&self.below, rooms).next_out(a),
            How::Split => SplitNodes::new(&self.below).next_out(a),
        }
    }

    fn first_in(&self, n: Node) -> Option<Arc> {
        match &self.how {
            How::Pass => self.below.first_in(n),
            How::Reverse => Reverse::new(&self.below).first_in(n),
            How::Sub(filter) => Sub::new(&self.below, filter).first_in(n),
            How::Undirect => Undirect::new(&self.below).first_in(n),
            How::Residual(rooms) => Residual::new(&self.below, rooms).first_in(n),
            How::Split => SplitNodes::new(&self.below).first_in(n),
        }
    }

    fn next_in(&self, a: Arc) -> Option<Arc> {
        match &self.how {
            How::Pass => self.below.next_in(a),
            How::Reverse => Reverse::new(&self.below).next_in(a),
            How::Sub(filter) => Sub::new(&self.below, filter).next_in(a),
            How::Undirect => Undirect::new(&self.below).next_in(a),
            How::Residual(rooms) => Residual::new(&self.below, rooms).next_in(a),
            How::Split => SplitNodes::new(&self.below).next_in(a),
        }
    }

    fn ends(&self, a: Arc) -> (Node, Node) {
        match &self.how {
            How::Pass => self.below.ends(a),
            How::Reverse => Reverse::new(&self.below).ends(a),
            How::Sub(filter) => Sub::new(&self.below, filter).ends(a),
            How::Undirect => Undirect::new(&self.below).ends(a),
            How::Residual(rooms) => Residual::new(&self.below, rooms).ends(a),
            How::Split => SplitNodes::new(&self.below).ends(a),
        }
    }

    ghost valid = { λ s. level_is_shown F.keeps_node F.keeps_arc C.cap_of C.flow_of s.how
        (G.graph s.below)
        (G.valid s.below) };

    ghost below = { λ s. level_below F.keeps_node F.keeps_arc C.cap_of C.flow_of s.how
        (G.graph s.below)
        (G.bound s.below) (G.valid s.below) (G.below s.below) };
}

/// A tower of one level.
pub type Level1<G, F, C> = Level<G, F, C>;

/// A tower of two levels.
pub type Level2<G, F, C> = Level<Level1<G, F, C>, F, C>;

/// A tower of three levels.
pub type Level3<G, F, C> = Level<Level2<G, F, C>, F, C>;

/// A tower of four levels.
pub type Level4<G, F, C> = Level<Level3<G, F, C>, F, C>;

/// A tower of five levels.
pub type Level5<G, F, C> = Level<Level4<G, F, C>, F, C>;

/// A tower of six levels.
pub type Level6<G, F, C> = Level<Level5<G, F, C>, F, C>;

/// A tower of seven levels.
pub type Level7<G, F, C> = Level<Level6<G, F, C>, F, C>;

/// A tower of eight levels.
pub type Level8<G, F, C> = Level<Level7<G, F, C>, F, C>;
