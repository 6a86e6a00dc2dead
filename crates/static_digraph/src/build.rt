//! How a numbered digraph is made and told to two chains.

ghost use Rattle.std.specs.Prelude.{◌≡◌, ◌≤◌, IfOk, OnOk, OnErr, IfErr, length};
ghost use Rattle.notify_chain.specs.Seats.{seats, AllBecame, AreAsBefore};
ghost use Rattle.static_digraph.specs.Fixed.{HaveEnds, fixed_from};
ghost use Rattle.static_digraph.specs.Told.{nodes_built, arcs_built, AreBlank, Blames};

use crate::fault::FixFault;
use crate::fixed::Fixed;
use crate::told::tell_chains;
use base_items::Fact;
use notify_chain::Chain;
use observe_core::Observer;
use std::alloc::Global;

impl Fixed {
    /// Numbers nodes and arcs 0, 1, 2 in the given order, and tells each chain one build of the
    /// numbers, nodes first, with the number as stamp. The ends of the arcs are among the nodes,
    /// and the chains track nothing.
    ///
    /// `Vetoed` exactly where an observer refuses: it names the oldest that does, nodes before
    /// arcs. At an error both chains are as before.
    pub fn build<O: Observer>(
        alloc: Global,
        nodes: &[u32],
        arcs: &[Fact],
        on_nodes: &mut Chain<O>,
        on_arcs: &mut Chain<O>,
    ) -> Result<Fixed, FixFault>
        requires few_nodes { length nodes.now ≤ 1048576 }
        requires few_arcs { length arcs.now ≤ 4194304 }
        requires ends { HaveEnds nodes.now arcs.now }
        requires blank_nodes { AreBlank (seats O.watch on_nodes.old) }
        requires blank_arcs { AreBlank (seats O.watch on_arcs.old) }
        ensures numbered { IfOk result (λ fixed. fixed ≡ fixed_from nodes.now arcs.now) }
        ensures told_nodes { OnOk result
            (AllBecame O.watch (nodes_built nodes.now arcs.now) on_nodes.old on_nodes.new) }
        ensures told_arcs { OnOk result
            (AllBecame O.watch (arcs_built nodes.now arcs.now) on_arcs.old on_arcs.new) }
        ensures kept_nodes { OnErr result (AreAsBefore O.watch on_nodes.old on_nodes.new) }
        ensures kept_arcs { OnErr result (AreAsBefore O.watch on_arcs.old on_arcs.new) }
        ensures blamed { IfErr result
            (Blames (nodes_built nodes.now arcs.now) (arcs_built nodes.now arcs.now)
            (seats O.watch on_nodes.old) (seats O.watch on_arcs.old)) }
        ensures left_nodes { on_nodes.new.left ≡ on_nodes.old.left }
        ensures left_arcs { on_arcs.new.left ≡ on_arcs.old.left }
    {
        let fixed = Fixed::number(alloc, nodes, arcs)?;
        let facts = fixed.facts(alloc)?;
        match tell_chains(&facts.nodes, &facts.arcs, on_nodes, on_arcs) {
            Ok(()) => Ok(fixed),
            Err(fault) => Err(fault),
        }
    }
}
