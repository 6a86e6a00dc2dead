//! Items and their labels.

ghost use Rattle.std.specs.Prelude.{◌≡◌, ◌≤◌, ◌∷◌, [], Some, IfOk, OnOk, IfNone};
ghost use Rattle.index_maps.specs.RefViews.{IsFreeLabel};
ghost use Rattle.plain_digraph.specs.Items.{IsLive};
ghost use Rattle.plain_world.specs.World as plain;
ghost use Rattle.plain_world.specs.Demands.{item_named};
ghost use Rattle.plain_world.specs.Demands as demands;
ghost use Rattle.desk_seats.specs.Forms.{HasForm, labels_form};
ghost use Rattle.desk_world.specs.Plain.{plain_of, tables_of, look_of};
ghost use Rattle.desk_world.specs.InStep.{IsInStep};
ghost use Rattle.desk_world.specs.Entries.{labels_at};
ghost use Rattle.desk_world.specs.Faults.{Meets, MeetsAll};

use crate::refusals::{taken, unknown};
use crate::tables::ItemTables;
use crate::world::World;
use base_items::{ItemSort, MAX_ARCS, MAX_NODES};
use desk_seats::Seat;
use observe_core::Observer;
use report_text::{Fault, StepFault};
use std::alloc::Global;
use token_text::Text;

impl<B: Observer> World<Seat<B>> {
    /// What is attached to the items of a sort.
    pub(crate) fn tables(&self, sort: ItemSort) -> &ItemTables
        ensures { result.now ≡ tables_of self.now sort }
    {
        match sort {
            ItemSort::Node => &self.nodes,
            ItemSort::Arc => &self.arcs,
        }
    }

    /// The seat of the labels of a sort.
    pub(crate) fn labels(&self, sort: ItemSort) -> &Seat<B>
        requires { IsInStep ⟦<Seat<B> as Observer>⟧.watch self.now }
        ensures form { HasForm labels_form (⟦<Seat<B> as Observer>⟧.watch result.now) }
        ensures seen { look_of ⟦<Seat<B> as Observer>⟧.watch self.now sort
            (tables_of self.now sort).labels.0
            ≡ Some (⟦<Seat<B> as Observer>⟧.watch result.now).seen }
    {
        match self.graph.seat(sort, self.tables(sort).labels) {
            Some(seat) => seat,
            None => unreachable!(),
        }
    }

    /// The item that has the label. None exactly where no item has it.
    pub(crate) fn item_named(&self, sort: ItemSort, name: &Text) -> Option<u32>
        requires { IsInStep ⟦<Seat<B> as Observer>⟧.watch self.now }
        ensures named { result
            ≡ item_named (plain_of ⟦<Seat<B> as Observer>⟧.watch self.now) sort name.now }
        ensures free { IfNone result (IsFreeLabel name.now
            (labels_at ⟦<Seat<B> as Observer>⟧.watch self.now sort)) }
    {
        self.labels(sort).find_label(name)
    }

    /// The label of a live item.
    pub(crate) fn label_of(&self, sort: ItemSort, id: u32) -> &Text
        requires in_step { IsInStep ⟦<Seat<B> as Observer>⟧.watch self.now }
        requires live { IsLive self.now.graph.graph.graph sort id }
        ensures { result.now
            ≡ plain.label_of (plain_of ⟦<Seat<B> as Observer>⟧.watch self.now) sort id }
    {
        self.label_in(self.labels(sort), sort, id)
    }

    /// The label of a live item, looked up in the seat of the labels of its sort: walks take the
    /// seat once.
    pub(crate) fn label_in<'a>(&self, labels: &'a Seat<B>, sort: ItemSort, id: u32) -> &'a Text
        requires in_step { IsInStep ⟦<Seat<B> as Observer>⟧.watch self.now }
        requires seen { look_of ⟦<Seat<B> as Observer>⟧.watch self.now sort
            (tables_of self.now sort).labels.0
            ≡ Some (⟦<Seat<B> as Observer>⟧.watch labels.now).seen }
        requires live { IsLive self.now.graph.graph.graph sort id }
        ensures { result.now
            ≡ plain.label_of (plain_of ⟦<Seat<B> as Observer>⟧.watch self.now) sort id }
    {
        match labels.label(id) {
            Some(label) => label,
            None => unreachable!(),
        }
    }

    /// The item that has the label. `Unknown` where no item has it.
    pub(crate) fn find_item(
        &self,
        alloc: Global,
        sort: ItemSort,
        name: &Text,
    ) -> Result<u32, StepFault>
        requires { IsInStep ⟦<Seat<B> as Observer>⟧.watch self.now }
        ensures meets { let world = plain_of ⟦<Seat<B> as Observer>⟧.watch self.now in
            Meets world (demands.There (demands.Labels sort) name.now) result }
        ensures found { let world = plain_of ⟦<Seat<B> as Observer>⟧.watch self.now in
            IfOk result (λ id. item_named world sort name.now ≡ Some id) }
    {
        match self.item_named(sort, name) {
            Some(id) => Ok(id),
            None => Err(unknown(alloc, name)),
        }
    }

    /// An item and a node, each by its label. `Unknown` of the first label that none has.
    pub(crate) fn find_with_node(
        &self,
        alloc: Global,
        sort: ItemSort,
        name: &Text,
        node: &Text,
    ) -> Result<(u32, u32), StepFault>
        requires { IsInStep ⟦<Seat<B> as Observer>⟧.watch self.now }
        ensures meets { let world = plain_of ⟦<Seat<B> as Observer>⟧.watch self.now in
            MeetsAll world (demands.There (demands.Labels sort) name.now
            ∷ demands.There (demands.Labels ItemSort.Node) node.now ∷ []) result }
        ensures found { let world = plain_of ⟦<Seat<B> as Observer>⟧.watch self.now in
            IfOk result (λ ids. item_named world sort name.now ≡ Some ids.0) }
        ensures node { let world = plain_of ⟦<Seat<B> as Observer>⟧.watch self.now in
            IfOk result (λ ids. item_named world ItemSort.Node node.now ≡ Some ids.1) }
    {
        let id = self.find_item(alloc, sort, name)?;
        let end = self.find_item(alloc, ItemSort::Node, node)?;
        Ok((id, end))
    }

    /// Asks that no item has the label. `Taken` where one has it.
    pub(crate) fn ask_new_label(
        &self,
        alloc: Global,
        sort: ItemSort,
        name: &Text,
    ) -> Result<(), StepFault>
        requires { IsInStep ⟦<Seat<B> as Observer>⟧.watch self.now }
        ensures meets { let world = plain_of ⟦<Seat<B> as Observer>⟧.watch self.now in
            Meets world (demands.New (demands.Labels sort) name.now) result }
        ensures free { OnOk result (IsFreeLabel name.now
            (labels_at ⟦<Seat<B> as Observer>⟧.watch self.now sort)) }
    {
        match self.item_named(sort, name) {
            Some(_) => Err(taken(alloc, name)),
            None => Ok(()),
        }
    }

    /// Asks for room for some nodes and arcs more. `Full` where one of the limits would be passed,
    /// that of the nodes first.
    pub(crate) fn ask_room(&self, nodes: u32, arcs: u32) -> Result<(), StepFault>
        requires in_step { IsInStep ⟦<Seat<B> as Observer>⟧.watch self.now }
        requires few_nodes { nodes ≤ MAX_NODES }
        requires few_arcs { arcs ≤ MAX_ARCS }
        ensures { let world = plain_of ⟦<Seat<B> as Observer>⟧.watch self.now in
            Meets world (demands.HasRoom nodes arcs) result }
    {
        if self.graph.graph().count(ItemSort::Node) > MAX_NODES - nodes {
            return Err(StepFault::Refused(Fault::Full(ItemSort::Node, MAX_NODES)));
        }
        if self.graph.graph().count(ItemSort::Arc) > MAX_ARCS - arcs {
            return Err(StepFault::Refused(Fault::Full(ItemSort::Arc, MAX_ARCS)));
        }
        Ok(())
    }
}
