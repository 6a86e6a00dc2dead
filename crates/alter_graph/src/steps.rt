//! One step that may be refused, on the digraph alone, and how it is taken back.

ghost use Rattle.std.specs.Prelude.{◌≡◌, List, [], ◌∷◌, OnOk, OnErr, IfOk, IfErr};
ghost use Rattle.plain_digraph.specs.Items.{IsLive};
ghost use Rattle.plain_digraph.specs.PlainSteps.{after_step};
ghost use Rattle.plain_digraph.specs.Valid.{IsValid};
ghost use Rattle.alter_graph.specs.Present.{fact_at};
ghost use Rattle.alter_graph.specs.Steps.{plain_step, CanTake, done_of, done_sort, change_of};
ghost use Rattle.alter_graph.specs.Steps.{fact_in, before, CanUntake};
ghost use Rattle.alter_graph.specs.Room.{HasRoomFor, IsFull};

use base_items::{Arc, Fact, ItemSort, Limit, Node};
use list_digraph::{AddFault, ListDigraph};
use observe_core::Change;

/// A step that observers may refuse.
#[derive(Clone, Copy, Debug, PartialEq, Eq)]
pub enum Step {
    AddNode,
    AddArc(Node, Node),
    MoveFrom(Arc, Node),
    MoveTo(Arc, Node),
    Turn(Arc),
    Place(Fact),
}

/// A step that was taken, with what is needed to take it back.
#[derive(Clone, Copy, Debug, PartialEq, Eq)]
pub enum Done {
    /// The new item's fact, and how many ids were used before.
    Added(ItemSort, Fact, u32),
    /// An arc's fact before and after.
    Moved(Fact, Fact),
}

impl Done {
    /// Which chain is told.
    pub fn sort(&self) -> ItemSort
        ensures { result ≡ done_sort self.now }
    {
        match self {
            Done::Added(sort, _, _) => *sort,
            Done::Moved(_, _) => ItemSort::Arc,
        }
    }

    /// What it is told.
    pub fn change(&self) -> Change<'static>
        ensures { result ≡ change_of self.now }
    {
        match self {
            Done::Added(_, fact, _) => Change::Add(*fact),
            Done::Moved(old, now) => Change::Shift(*old, *now),
        }
    }

    /// The item's fact after the step.
    pub fn fact(&self) -> Fact
        ensures { result ≡ fact_in self.now }
    {
        match self {
            Done::Added(_, fact, _) => *fact,
            Done::Moved(_, now) => *now,
        }
    }
}

/// Takes a step on the digraph.
pub fn take_step(graph: &mut ListDigraph, step: Step) -> Result<Done, AddFault>
    requires valid { IsValid graph.old.graph }
    requires can { CanTake (plain_step step) graph.old.graph }
    ensures done { IfOk result (λ d. d ≡ done_of (plain_step step) graph.old.graph) }
    ensures taken { OnOk result (graph.new.graph ≡ after_step graph.old.graph (plain_step step)) }
    ensures room { OnOk result (HasRoomFor (plain_step step ∷ []) graph.old.graph) }
    ensures same { OnErr result (graph.new.graph ≡ graph.old.graph) }
    ensures full { IfErr result (IsFull (plain_step step) graph.old.graph) }
{
    match step {
        Step::AddNode => {
            let used = graph.used(ItemSort::Node);
            match graph.add_node() {
                Ok(fact) => Ok(Done::Added(ItemSort::Node, fact, used)),
                Err(fault) => Err(fault),
            }
        }
        Step::AddArc(u, v) => {
            let used = graph.used(ItemSort::Arc);
            match graph.add_arc(u, v) {
                Ok(fact) => Ok(Done::Added(ItemSort::Arc, fact, used)),
                Err(fault) => Err(fault),
            }
        }
        Step::MoveFrom(a, u) => {
            if graph.stamps_left() == 0 {
                return Err(AddFault::Full(Limit::Stamps));
            }
            let old = told_of(graph, ItemSort::Arc, a.0);
            let now = graph.move_from(a, u);
            Ok(Done::Moved(old, now))
        }
        Step::MoveTo(a, v) => {
            if graph.stamps_left() == 0 {
                return Err(AddFault::Full(Limit::Stamps));
            }
            let old = told_of(graph, ItemSort::Arc, a.0);
            let now = graph.move_to(a, v);
            Ok(Done::Moved(old, now))
        }
        Step::Turn(a) => {
            if graph.stamps_left() == 0 {
                return Err(AddFault::Full(Limit::Stamps));
            }
            let old = told_of(graph, ItemSort::Arc, a.0);
            let now = graph.turn(a);
            Ok(Done::Moved(old, now))
        }
        Step::Place(fact) => {
            if graph.stamps_left() == 0 {
                return Err(AddFault::Full(Limit::Stamps));
            }
            let old = graph.place(fact);
            Ok(Done::Moved(old, fact))
        }
    }
}

/// What is told of a live item.
pub fn told_of(graph: &ListDigraph, sort: ItemSort, id: u32) -> Fact
    requires valid { IsValid graph.now.graph }
    requires live { IsLive graph.now.graph sort id }
    ensures { result ≡ fact_at graph.now.graph sort id }
{
    match graph.fact(sort, id) {
        Some(fact) => fact,
        None => unreachable!(),
    }
}

/// Takes the last step back on the digraph.
pub fn untake(graph: &mut ListDigraph, done: &Done)
    requires { CanUntake done.now graph.old.graph }
    ensures { graph.new.graph ≡ before graph.old.graph done.now }
{
    match done {
        Done::Added(sort, fact, used) => graph.take_back(*sort, *fact, *used),
        Done::Moved(old, _) => graph.put_back(*old),
    }
}
