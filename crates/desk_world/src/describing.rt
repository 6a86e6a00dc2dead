//! What the rows of a document say of its items.

ghost use Rattle.std.specs.Prelude.{◌≡◌, ◌≤◌, IfOk, OnOk, length};
ghost use Rattle.plain_digraph.specs.Items.{IsLive};
ghost use Rattle.plain_world.specs.World.{attached};
ghost use Rattle.plain_world.specs.Documents.{described, item_label, item_texts, with_texts};
ghost use Rattle.plain_world.specs.Effects.{with_maps};
ghost use Rattle.desk_world.specs.Loading.{all_described, values_of};
ghost use Rattle.desk_world.specs.Describing.{HasColumns, IsWithin, IsReady, AreReady};
ghost use Rattle.desk_world.specs.Plain.{plain_of};
ghost use Rattle.desk_world.specs.InStep.{AreInStep};

use crate::values::Value;
use crate::world::World;
use base_items::{ItemSort, List, MAX_ARCS};
use desk_seats::Seat;
use itoa::Buffer;
use lgf_file::Link;
use observe_core::Observer;
use std::alloc::{AllocError, Global};
use token_text::{Text, copy_text};

// The label and the texts of an item.
#[derive(Drop)]
struct ItemCells {
    label: Text,
    texts: List<Text>,
}

// The cells of a row apart: the label in its column, or where there is none the id in decimal, and
// the rest.
fn split_row(
    alloc: Global,
    place: Option<usize>,
    id: u32,
    cells: List<Text>,
) -> Result<ItemCells, AllocError>
    requires { IsWithin place cells }
    ensures label { IfOk result (λ item. item.label ≡ item_label place cells id) }
    ensures texts { IfOk result (λ item. item.texts ≡ item_texts place cells) }
{
    let Some(place) = place else {
        let mut buffer = Buffer::new();
        let label = copy_text(alloc, buffer.format(id).as_bytes())?;
        return Ok(ItemCells {
            label,
            texts: cells,
        });
    };
    let mut rest = cells.into_vec();
    let label = rest.remove(place);
    Ok(ItemCells {
        label,
        texts: List::from_vec(rest),
    })
}

impl<B: Observer> World<Seat<B>> {
    /// Gives the nodes, from 0 on, the labels and texts of these rows. The error is want of memory.
    pub(crate) fn describe_nodes(
        &mut self,
        alloc: Global,
        place: Option<usize>,
        columns: &[Text],
        rows: List<List<Text>>,
    ) -> Result<(), AllocError>
        requires in_step { AreInStep ⟦<Seat<B> as Observer>⟧.watch self.old }
        requires ready { AreReady ItemSort.Node place columns.now
            (plain_of ⟦<Seat<B> as Observer>⟧.watch self.old) 0 rows }
        requires few { length rows ≤ MAX_ARCS }
        ensures told { OnOk result (plain_of ⟦<Seat<B> as Observer>⟧.watch self.new
            ≡ all_described ItemSort.Node place
            (plain_of ⟦<Seat<B> as Observer>⟧.watch self.old) 0 rows) }
        ensures in_step { AreInStep ⟦<Seat<B> as Observer>⟧.watch self.new }
        ensures pool { self.new.pool ≡ self.old.pool }
    {
        let mut id: u32 = 0;
        for cells in rows.into_vec() {
            self.describe(alloc, ItemSort::Node, place, columns, id, cells)?;
            id += 1;
        }
        Ok(())
    }

    /// Gives the arcs, from 0 on, the labels and texts of these rows. The error is want of memory.
    pub(crate) fn describe_arcs(
        &mut self,
        alloc: Global,
        place: Option<usize>,
        columns: &[Text],
        arcs: List<Link>,
    ) -> Result<(), AllocError>
        requires in_step { AreInStep ⟦<Seat<B> as Observer>⟧.watch self.old }
        requires ready { AreReady ItemSort.Arc place columns.now
            (plain_of ⟦<Seat<B> as Observer>⟧.watch self.old) 0 (values_of arcs) }
        requires few { length arcs ≤ MAX_ARCS }
        ensures told { OnOk result (plain_of ⟦<Seat<B> as Observer>⟧.watch self.new
            ≡ all_described ItemSort.Arc place
            (plain_of ⟦<Seat<B> as Observer>⟧.watch self.old) 0 (values_of arcs)) }
        ensures in_step { AreInStep ⟦<Seat<B> as Observer>⟧.watch self.new }
        ensures pool { self.new.pool ≡ self.old.pool }
    {
        let mut id: u32 = 0;
        for arc in arcs.into_vec() {
            self.describe(alloc, ItemSort::Arc, place, columns, id, arc.values)?;
            id += 1;
        }
        Ok(())
    }

    // Gives an item the label and the texts of a row. The error is want of memory.
    fn describe(
        &mut self,
        alloc: Global,
        sort: ItemSort,
        place: Option<usize>,
        columns: &[Text],
        id: u32,
        cells: List<Text>,
    ) -> Result<(), AllocError>
        requires in_step { AreInStep ⟦<Seat<B> as Observer>⟧.watch self.old }
        requires ready { IsReady sort place columns.now
            (plain_of ⟦<Seat<B> as Observer>⟧.watch self.old) id cells }
        ensures told { OnOk result (plain_of ⟦<Seat<B> as Observer>⟧.watch self.new
            ≡ described (plain_of ⟦<Seat<B> as Observer>⟧.watch self.old) sort id place cells) }
        ensures in_step { AreInStep ⟦<Seat<B> as Observer>⟧.watch self.new }
        ensures pool { self.new.pool ≡ self.old.pool }
    {
        let ItemCells { label, texts } = split_row(alloc, place, id, cells)?;
        self.write_texts(sort, columns, id, texts);
        self.reserve_label(sort, &label)?;
        self.put_label(sort, id, label);
        Ok(())
    }

    // Writes a text of a live item to each of the maps in turn.
    fn write_texts(&mut self, sort: ItemSort, columns: &[Text], id: u32, texts: List<Text>)
        requires in_step { AreInStep ⟦<Seat<B> as Observer>⟧.watch self.old }
        requires live { IsLive self.old.graph.graph.graph sort id }
        requires columns { HasColumns (plain_of ⟦<Seat<B> as Observer>⟧.watch self.old) sort
            columns.now }
        requires wide { length texts ≡ length columns.now }
        ensures written { plain_of ⟦<Seat<B> as Observer>⟧.watch self.new
            ≡ with_maps (plain_of ⟦<Seat<B> as Observer>⟧.watch self.old) sort
            (with_texts (attached (plain_of ⟦<Seat<B> as Observer>⟧.watch self.old) sort).maps id
            texts) }
        ensures in_step { AreInStep ⟦<Seat<B> as Observer>⟧.watch self.new }
        ensures graph { self.new.graph.graph ≡ self.old.graph.graph }
        ensures pool { self.new.pool ≡ self.old.pool }
    {
        let mut place = 0;
        for text in texts.into_vec() {
            self.write_at(sort, place, &columns[place], id, Value::Text(text));
            place += 1;
        }
    }
}
