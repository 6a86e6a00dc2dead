//! Reads of what a seat holds, one call for each kind of content. No other variant has such items.

use crate::seat::Seat;
use kept_views::{KeptArcs, KeptNodes};
use observe_core::Observer;
use token_text::Text;

impl<B: Observer> Seat<B> {
    ghost use Rattle.std.specs.Prelude.{◌≡◌, IsTrue, Some, [], MatchOption, Contains};
    ghost use Rattle.observe_core.specs.Held.{entry_id, tie_id};
    ghost use Rattle.observe_core.specs.Items.{has_id, Lacks};
    ghost use Rattle.lane_kernels.specs.Sums.{total_of};
    ghost use Rattle.lane_kernels.specs.Counts.{truths};
    ghost use Rattle.value_maps.specs.Entries.{HasValue, values_in};
    ghost use Rattle.value_maps.specs.LeastEntry.{IsLeastEntry};
    ghost use Rattle.index_maps.specs.RefViews.{HasLabel, HasNoLabel, IsFreeLabel};
    ghost use Rattle.index_maps.specs.Counted.{how_often};
    ghost use Rattle.index_maps.specs.Trues.{first_true, low_after};
    ghost use Rattle.index_maps.specs.TieEntries.{tie_to};
    ghost use Rattle.desk_seats.specs.Forms.{HasForm};
    ghost use Rattle.desk_seats.specs.Forms as form;
    ghost use Rattle.desk_seats.specs.Contents.{ints_in, bools_in, texts_in, labels_in, trues_in};
    ghost use Rattle.desk_seats.specs.Contents.{ends_in, ties_in, marked_in, role_in};
    ghost use Rattle.observe_core.specs.Held.{KeptArcs as RoleArcs};
    ghost use Rattle.kept_views.specs.Views.{nodes_of, arcs_of};

    /// The int of a live item of a map of ints.
    pub fn int(&self, id: u32) -> i64
        requires form { HasForm form.ints_form (⟦<Seat<B> as Observer>⟧.watch self.now) }
        requires live { let seen = (⟦<Seat<B> as Observer>⟧.watch self.now).seen in
            IsTrue (has_id entry_id id (ints_in seen)) }
        ensures { HasValue id result (ints_in (⟦<Seat<B> as Observer>⟧.watch self.now).seen) }
    {
        match self {
            Seat::Ints(map) => map.get(id),
            _ => unreachable!(),
        }
    }

    /// The sum of the ints of all live items of a map of ints.
    pub fn total(&self) -> i128
        requires { HasForm form.ints_form (⟦<Seat<B> as Observer>⟧.watch self.now) }
        ensures { let seen = (⟦<Seat<B> as Observer>⟧.watch self.now).seen in
            result ≡ total_of (values_in (ints_in seen)) }
    {
        match self {
            Seat::Ints(map) => map.total(),
            _ => unreachable!(),
        }
    }

    /// The least int of a map of ints, with the least id that has it. None exactly where no item is
    /// live.
    pub fn least(&self) -> Option<(u32, i64)>
        requires { HasForm form.ints_form (⟦<Seat<B> as Observer>⟧.watch self.now) }
        ensures { let seen = (⟦<Seat<B> as Observer>⟧.watch self.now).seen in
            MatchOption result
            (ints_in seen ≡ [])
            (λ found. IsLeastEntry (ints_in seen) found.0 found.1) }
    {
        match self {
            Seat::Ints(map) => map.least(),
            _ => unreachable!(),
        }
    }

    /// The bool of a live item of a map of bools.
    pub fn bool(&self, id: u32) -> bool
        requires form { HasForm form.bools_form (⟦<Seat<B> as Observer>⟧.watch self.now) }
        requires live { let seen = (⟦<Seat<B> as Observer>⟧.watch self.now).seen in
            IsTrue (has_id entry_id id (bools_in seen)) }
        ensures { HasValue id result (bools_in (⟦<Seat<B> as Observer>⟧.watch self.now).seen) }
    {
        match self {
            Seat::Bools(map) => map.get(id),
            _ => unreachable!(),
        }
    }

    /// How many live items of a map of bools are true.
    pub fn count(&self) -> u32
        requires { HasForm form.bools_form (⟦<Seat<B> as Observer>⟧.watch self.now) }
        ensures { let seen = (⟦<Seat<B> as Observer>⟧.watch self.now).seen in
            result ≡ truths (values_in (bools_in seen)) }
    {
        match self {
            Seat::Bools(map) => map.count(),
            _ => unreachable!(),
        }
    }

    /// The text of a live item of a map of texts.
    pub fn text(&self, id: u32) -> &Text
        requires form { HasForm form.texts_form (⟦<Seat<B> as Observer>⟧.watch self.now) }
        requires live { let seen = (⟦<Seat<B> as Observer>⟧.watch self.now).seen in
            IsTrue (has_id entry_id id (texts_in seen)) }
        ensures { HasValue id result.now (texts_in (⟦<Seat<B> as Observer>⟧.watch self.now).seen) }
    {
        match self {
            Seat::Texts(map) => map.get(id),
            _ => unreachable!(),
        }
    }

    /// The label of an item. None exactly where no item of the id is live, or it has no label.
    pub fn label(&self, id: u32) -> Option<&Text>
        requires { HasForm form.labels_form (⟦<Seat<B> as Observer>⟧.watch self.now) }
        ensures { MatchOption result
            (HasNoLabel id (labels_in (⟦<Seat<B> as Observer>⟧.watch self.now).seen))
            (λ label. HasLabel id (Some label.now)
            (labels_in (⟦<Seat<B> as Observer>⟧.watch self.now).seen)) }
    {
        match self {
            Seat::Refs(refs) => refs.label(id),
            _ => unreachable!(),
        }
    }

    /// The item that has the label. None exactly where there is none.
    pub fn find_label(&self, label: &Text) -> Option<u32>
        requires { HasForm form.labels_form (⟦<Seat<B> as Observer>⟧.watch self.now) }
        ensures { MatchOption result
            (IsFreeLabel label.now (labels_in (⟦<Seat<B> as Observer>⟧.watch self.now).seen))
            (λ id. HasLabel id (Some label.now)
            (labels_in (⟦<Seat<B> as Observer>⟧.watch self.now).seen)) }
    {
        match self {
            Seat::Refs(refs) => refs.find(label),
            _ => unreachable!(),
        }
    }

    /// How many arcs a degree map counts at a node.
    pub fn degree(&self, node: u32) -> u32
        requires { HasForm form.degrees_form (⟦<Seat<B> as Observer>⟧.watch self.now) }
        ensures { result ≡ how_often node (ends_in (⟦<Seat<B> as Observer>⟧.watch self.now).seen) }
    {
        match self {
            Seat::Degrees(map) => map.get(node),
            _ => unreachable!(),
        }
    }

    /// The least true item of an index above one, or the least. None exactly where there is none.
    pub fn next_true(&self, after: Option<u32>) -> Option<u32>
        requires { HasForm form.trues_form (⟦<Seat<B> as Observer>⟧.watch self.now) }
        ensures { let seen = (⟦<Seat<B> as Observer>⟧.watch self.now).seen in
            result
            ≡ first_true (low_after after) (trues_in seen) }
    {
        match self {
            Seat::Trues(items) => items.next(after),
            _ => unreachable!(),
        }
    }

    /// The item of a tie. None exactly where there is no such tie.
    pub fn tie(&self, tie: u32) -> Option<u32>
        requires { HasForm form.ties_form (⟦<Seat<B> as Observer>⟧.watch self.now) }
        ensures { let seen = (⟦<Seat<B> as Observer>⟧.watch self.now).seen in
            MatchOption result
            (Lacks tie_id tie (ties_in seen))
            (λ id. Contains (ties_in seen) (tie_to tie id)) }
    {
        match self {
            Seat::Ties(ties) => ties.item(tie),
            _ => unreachable!(),
        }
    }

    /// The nodes of a kept view.
    pub fn kept_nodes(&self) -> &KeptNodes
        requires { HasForm form.nodes_form (⟦<Seat<B> as Observer>⟧.watch self.now) }
        ensures { nodes_of result.now ≡ marked_in (⟦<Seat<B> as Observer>⟧.watch self.now).seen }
    {
        match self {
            Seat::KeptNodes(nodes) => nodes,
            _ => unreachable!(),
        }
    }

    /// The arcs of a kept view.
    pub fn kept_arcs(&self) -> &KeptArcs
        requires { HasForm form.arcs_form (⟦<Seat<B> as Observer>⟧.watch self.now) }
        ensures arcs { arcs_of result.now
            ≡ marked_in (⟦<Seat<B> as Observer>⟧.watch self.now).seen }
        ensures shape { RoleArcs result.now.shape
            ≡ role_in (⟦<Seat<B> as Observer>⟧.watch self.now).seen }
    {
        match self {
            Seat::KeptArcs(arcs) => arcs,
            _ => unreachable!(),
        }
    }
}
