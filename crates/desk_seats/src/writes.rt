//! Writes to what a seat holds, one call for each kind of write. No other variant has such an item.

use crate::seat::Seat;
use observe_core::Observer;
use std::alloc::AllocError;
use token_text::Text;

impl<B: Observer> Seat<B> {
    ghost use Rattle.std.specs.Prelude.{◌≡◌, ◌+◌, ◌≤◌, IsTrue, Some, None, false, OnOk, OnErr};
    ghost use Rattle.std.specs.Prelude.{List};
    ghost use Rattle.base_items.specs.declared.items.Fact.{Fact};
    ghost use Rattle.plain_digraph.specs.Facts.{fact_id};
    ghost use Rattle.plain_digraph.specs.Rising.{swapped, with_item, without_item};
    ghost use Rattle.observe_core.specs.Fits.{HeldFits};
    ghost use Rattle.observe_core.specs.Held.{Values, Ints as IntValues, Bools as BoolValues};
    ghost use Rattle.observe_core.specs.Held.{Texts as TextValues, Labels, Trues as TrueValues};
    ghost use Rattle.observe_core.specs.Held.{Kept, Ties as TiesHeld, entry_id, marked_id, tie_id};
    ghost use Rattle.observe_core.specs.Items.{has_id, Lacks};
    ghost use Rattle.columns.specs.Views.{entry};
    ghost use Rattle.value_maps.specs.Entries.{HasValue};
    ghost use Rattle.index_maps.specs.RefViews.{with_label, HasLabel, HasSomeLabel, IsFreeLabel};
    ghost use Rattle.index_maps.specs.TieEntries.{tie_to};
    ghost use Rattle.kept_views.specs.ItemViews.{marked_set, marks};
    ghost use Rattle.desk_seats.specs.Forms.{HasForm};
    ghost use Rattle.desk_seats.specs.Forms as form;
    ghost use Rattle.desk_seats.specs.Contents.{ints_in, bools_in, texts_in, labels_in, trues_in};
    ghost use Rattle.desk_seats.specs.Contents.{marked_in, shows_all, role_in, ties_in};
    ghost use Rattle.desk_seats.specs.Contents.{holding, StillFits};

    /// Writes the int of a live item of a map of ints.
    pub fn set_int(&mut self, id: u32, value: i64)
        requires form { HasForm form.ints_form (⟦<Seat<B> as Observer>⟧.watch self.old) }
        requires live { let old = (⟦<Seat<B> as Observer>⟧.watch self.old).seen in
            IsTrue (has_id entry_id id (ints_in old)) }
        ensures seen { let old = (⟦<Seat<B> as Observer>⟧.watch self.old).seen in
            (⟦<Seat<B> as Observer>⟧.watch self.new).seen
            ≡ holding (Values IntValues (swapped entry_id (entry id value) (ints_in old))) old }
        ensures fits { StillFits (⟦<Seat<B> as Observer>⟧.watch self.old).seen
            (⟦<Seat<B> as Observer>⟧.watch self.new).seen }
    {
        match self {
            Seat::Ints(map) => map.set(id, value),
            _ => unreachable!(),
        }
    }

    /// Writes the bool of a live item of a map of bools.
    pub fn set_bool(&mut self, id: u32, value: bool)
        requires form { HasForm form.bools_form (⟦<Seat<B> as Observer>⟧.watch self.old) }
        requires live { let old = (⟦<Seat<B> as Observer>⟧.watch self.old).seen in
            IsTrue (has_id entry_id id (bools_in old)) }
        ensures seen { let old = (⟦<Seat<B> as Observer>⟧.watch self.old).seen in
            (⟦<Seat<B> as Observer>⟧.watch self.new).seen
            ≡ holding (Values BoolValues (swapped entry_id (entry id value) (bools_in old))) old }
        ensures fits { StillFits (⟦<Seat<B> as Observer>⟧.watch self.old).seen
            (⟦<Seat<B> as Observer>⟧.watch self.new).seen }
    {
        match self {
            Seat::Bools(map) => map.set(id, value),
            _ => unreachable!(),
        }
    }

    /// Writes the text of a live item of a map of texts. The text from before.
    pub fn set_text(&mut self, id: u32, value: Text) -> Text
        requires form { HasForm form.texts_form (⟦<Seat<B> as Observer>⟧.watch self.old) }
        requires live { let old = (⟦<Seat<B> as Observer>⟧.watch self.old).seen in
            IsTrue (has_id entry_id id (texts_in old)) }
        ensures seen { let old = (⟦<Seat<B> as Observer>⟧.watch self.old).seen in
            (⟦<Seat<B> as Observer>⟧.watch self.new).seen
            ≡ holding (Values TextValues (swapped entry_id (entry id value) (texts_in old))) old }
        ensures old { HasValue id result (texts_in (⟦<Seat<B> as Observer>⟧.watch self.old).seen) }
        ensures fits { StillFits (⟦<Seat<B> as Observer>⟧.watch self.old).seen
            (⟦<Seat<B> as Observer>⟧.watch self.new).seen }
    {
        match self {
            Seat::Texts(map) => map.set(id, value),
            _ => unreachable!(),
        }
    }

    /// Writes whether a live item of an index is true.
    pub fn write_true(&mut self, id: u32, value: bool)
        requires form { HasForm form.trues_form (⟦<Seat<B> as Observer>⟧.watch self.old) }
        requires live { let old = (⟦<Seat<B> as Observer>⟧.watch self.old).seen in
            IsTrue (has_id entry_id id (trues_in old)) }
        ensures seen { let old = (⟦<Seat<B> as Observer>⟧.watch self.old).seen in
            (⟦<Seat<B> as Observer>⟧.watch self.new).seen
            ≡ holding (Values TrueValues (swapped entry_id (entry id value) (trues_in old))) old }
        ensures fits { StillFits (⟦<Seat<B> as Observer>⟧.watch self.old).seen
            (⟦<Seat<B> as Observer>⟧.watch self.new).seen }
    {
        match self {
            Seat::Trues(map) => map.write(id, value),
            _ => unreachable!(),
        }
    }

    /// Makes room for a label that isn't there. The error is want of memory; all is then as before.
    pub fn reserve_label(&mut self, label: &Text) -> Result<(), AllocError>
        requires form { HasForm form.labels_form (⟦<Seat<B> as Observer>⟧.watch self.old) }
        requires free { let old = (⟦<Seat<B> as Observer>⟧.watch self.old).seen in
            IsFreeLabel label.now (labels_in old) }
        ensures same { (⟦<Seat<B> as Observer>⟧.watch self.new).seen
            ≡ (⟦<Seat<B> as Observer>⟧.watch self.old).seen }
        ensures ok { OnOk result (1 ≤ (⟦<Seat<B> as Observer>⟧.watch self.new).room) }
        ensures room { (⟦<Seat<B> as Observer>⟧.watch self.old).room
            ≤ (⟦<Seat<B> as Observer>⟧.watch self.new).room }
    {
        match self {
            Seat::Refs(refs) => refs.reserve(label),
            _ => unreachable!(),
        }
    }

    /// Gives a label that isn't there to a live item without one, by the room of one label.
    pub fn put_label(&mut self, id: u32, label: Text)
        requires form { HasForm form.labels_form (⟦<Seat<B> as Observer>⟧.watch self.old) }
        requires live { HasLabel id None (labels_in (⟦<Seat<B> as Observer>⟧.watch self.old).seen) }
        requires free { let old = (⟦<Seat<B> as Observer>⟧.watch self.old).seen in
            IsFreeLabel label (labels_in old) }
        requires room { 1 ≤ (⟦<Seat<B> as Observer>⟧.watch self.old).room }
        ensures seen { let old = (⟦<Seat<B> as Observer>⟧.watch self.old).seen in
            (⟦<Seat<B> as Observer>⟧.watch self.new).seen
            ≡ holding (Values Labels
            (swapped entry_id (with_label id (Some label)) (labels_in old))) old }
        ensures fits { StillFits (⟦<Seat<B> as Observer>⟧.watch self.old).seen
            (⟦<Seat<B> as Observer>⟧.watch self.new).seen }
        ensures room { (⟦<Seat<B> as Observer>⟧.watch self.old).room
            ≤ (⟦<Seat<B> as Observer>⟧.watch self.new).room + 1 }
    {
        match self {
            Seat::Refs(refs) => refs.put(id, label),
            _ => unreachable!(),
        }
    }

    /// Gives another label, which isn't there, to an item with one, by the room of one label. The
    /// old label.
    pub fn replace_label(&mut self, id: u32, label: Text) -> Text
        requires form { HasForm form.labels_form (⟦<Seat<B> as Observer>⟧.watch self.old) }
        requires labelled { let old = (⟦<Seat<B> as Observer>⟧.watch self.old).seen in
            HasSomeLabel id (labels_in old) }
        requires free { let old = (⟦<Seat<B> as Observer>⟧.watch self.old).seen in
            IsFreeLabel label (labels_in old) }
        requires room { 1 ≤ (⟦<Seat<B> as Observer>⟧.watch self.old).room }
        ensures seen { let old = (⟦<Seat<B> as Observer>⟧.watch self.old).seen in
            (⟦<Seat<B> as Observer>⟧.watch self.new).seen
            ≡ holding (Values Labels
            (swapped entry_id (with_label id (Some label)) (labels_in old))) old }
        ensures old { HasLabel id (Some result)
            (labels_in (⟦<Seat<B> as Observer>⟧.watch self.old).seen) }
        ensures fits { StillFits (⟦<Seat<B> as Observer>⟧.watch self.old).seen
            (⟦<Seat<B> as Observer>⟧.watch self.new).seen }
        ensures room { (⟦<Seat<B> as Observer>⟧.watch self.old).room
            ≤ (⟦<Seat<B> as Observer>⟧.watch self.new).room + 1 }
    {
        match self {
            Seat::Refs(refs) => refs.replace(id, label),
            _ => unreachable!(),
        }
    }

    /// Places a live node of a kept view by its present value. Where there is no filter it is
    /// shown.
    pub fn set_node(&mut self, id: u32, shown: bool)
        requires form { HasForm form.nodes_form (⟦<Seat<B> as Observer>⟧.watch self.old) }
        requires live { let old = (⟦<Seat<B> as Observer>⟧.watch self.old).seen in
            IsTrue (has_id marked_id id (marked_in old)) }
        requires all { let old = (⟦<Seat<B> as Observer>⟧.watch self.old).seen in
            IsTrue (shows_all old) → IsTrue shown }
        ensures seen { let old = (⟦<Seat<B> as Observer>⟧.watch self.old).seen in
            (⟦<Seat<B> as Observer>⟧.watch self.new).seen
            ≡ holding (Kept (role_in old) (shows_all old)
            (marked_set id (marks shown false false) (marked_in old))) old }
        ensures fits { StillFits (⟦<Seat<B> as Observer>⟧.watch self.old).seen
            (⟦<Seat<B> as Observer>⟧.watch self.new).seen }
    {
        match self {
            Seat::KeptNodes(nodes) => nodes.set(id, shown),
            _ => unreachable!(),
        }
    }

    /// Places a live arc of a kept view by its present values. Where there is no filter it is
    /// shown.
    pub fn set_arc(&mut self, id: u32, shown: bool, forward: bool, backward: bool)
        requires form { HasForm form.arcs_form (⟦<Seat<B> as Observer>⟧.watch self.old) }
        requires live { let old = (⟦<Seat<B> as Observer>⟧.watch self.old).seen in
            IsTrue (has_id marked_id id (marked_in old)) }
        requires all { let old = (⟦<Seat<B> as Observer>⟧.watch self.old).seen in
            IsTrue (shows_all old) → IsTrue shown }
        ensures seen { let old = (⟦<Seat<B> as Observer>⟧.watch self.old).seen in
            (⟦<Seat<B> as Observer>⟧.watch self.new).seen
            ≡ holding (Kept (role_in old) (shows_all old)
            (marked_set id (marks shown forward backward) (marked_in old))) old }
        ensures fits { StillFits (⟦<Seat<B> as Observer>⟧.watch self.old).seen
            (⟦<Seat<B> as Observer>⟧.watch self.new).seen }
    {
        match self {
            Seat::KeptArcs(arcs) => arcs.set(id, shown, forward, backward),
            _ => unreachable!(),
        }
    }

    /// Ties a number that isn't tied to an item. The error is want of memory; all is then as
    /// before.
    pub fn put_tie(&mut self, tie: u32, id: u32) -> Result<(), AllocError>
        requires form { HasForm form.ties_form (⟦<Seat<B> as Observer>⟧.watch self.old) }
        requires free { Lacks tie_id tie (ties_in (⟦<Seat<B> as Observer>⟧.watch self.old).seen) }
        ensures ok { let old = (⟦<Seat<B> as Observer>⟧.watch self.old).seen in
            OnOk result ((⟦<Seat<B> as Observer>⟧.watch self.new).seen
            ≡ holding (TiesHeld (with_item tie_id (tie_to tie id) (ties_in old))) old) }
        ensures err { OnErr result ((⟦<Seat<B> as Observer>⟧.watch self.new).seen
            ≡ (⟦<Seat<B> as Observer>⟧.watch self.old).seen) }
        ensures fits { (live : List Fact) → IsTrue (has_id fact_id id live)
            → HeldFits (⟦<Seat<B> as Observer>⟧.watch self.old).seen.held live
            → HeldFits (⟦<Seat<B> as Observer>⟧.watch self.new).seen.held live }
    {
        match self {
            Seat::Ties(ties) => ties.put(tie, id),
            _ => unreachable!(),
        }
    }

    /// Ends a tie, if there is one of the number.
    pub fn drop_tie(&mut self, tie: u32)
        requires form { HasForm form.ties_form (⟦<Seat<B> as Observer>⟧.watch self.old) }
        ensures seen { let old = (⟦<Seat<B> as Observer>⟧.watch self.old).seen in
            (⟦<Seat<B> as Observer>⟧.watch self.new).seen
            ≡ holding (TiesHeld (without_item tie_id tie (ties_in old))) old }
        ensures fits { StillFits (⟦<Seat<B> as Observer>⟧.watch self.old).seen
            (⟦<Seat<B> as Observer>⟧.watch self.new).seen }
    {
        match self {
            Seat::Ties(ties) => ties.drop_tie(tie),
            _ => unreachable!(),
        }
    }
}
