//! The world that scripts are run on: boxes sit where guards do.

ghost use Rattle.std.specs.Prelude.{◌≡◌, IfOk, map, option_map};
ghost use Rattle.lemon_desk.specs.Found.{found_in, in_seat};

use crate::boxed::Boxed;
use base_items::ItemSort;
use desk_seats::Seat;
use lgf_file::Doc;
use observe_core::Observer;
use report_text::{Reply, StepFault};
use script_runs::Desk;
use script_words::Command;
use std::alloc::{AllocError, Global};

/// A world whose guards are boxed observers.
pub type World = desk_world::World<Seat<Boxed>>;

/// The world that a run hands back, if any.
#[derive(Drop)]
pub enum Final {
    /// The words have no shape, or not all lines were answered.
    Nothing,
    /// The world after the last line.
    Desk(World),
}

/// A world as runs of scripts see it.
#[derive(Drop)]
pub struct Played<B> {
    world: desk_world::World<Seat<B>>,
}

impl<B: Observer> Desk for Played<B> {
    ghost use Rattle.plain_digraph.specs.Lists.{AllOf};
    ghost use Rattle.desk_world.specs.InStep.{IsInStep};
    ghost use Rattle.desk_world.specs.Plain.{plain_of, kinds_of};
    ghost use Rattle.lemon_desk.specs.Pool.{IsUntoldGuard};

    type Pool = Vec<B>;

    ghost plain = { λ played. plain_of ⟦<Seat<B> as Observer>⟧.watch played.world };

    ghost in_step = { λ played. IsInStep ⟦<Seat<B> as Observer>⟧.watch played.world };

    ghost kinds = { λ pool. kinds_of B.watch pool.items };

    ghost untold = { λ pool. AllOf (λ b. IsUntoldGuard (B.watch b).seen) pool.items };

    fn load(alloc: Global, doc: Doc, pool: Vec<B>) -> Result<Played<B>, AllocError> {
        let seats = seat_all(alloc, pool)?;
        let world = desk_world::World::load(alloc, doc, seats)?;
        Ok(Played { world })
    }

    fn built(command: &Command) -> bool {
        desk_world::built(command)
    }

    fn live(&self, sort: ItemSort) -> u32 {
        self.world.live(sort)
    }

    fn step(&mut self, alloc: Global, command: &Command) -> Result<Reply, StepFault> {
        self.world.step(alloc, command)
    }
}

// Each of them in a seat.
fn seat_all<B: Drop>(alloc: Global, pool: Vec<B>) -> Result<Vec<Seat<B>>, AllocError>
    ensures { IfOk result (λ seats. seats.items ≡ map in_seat pool.items) }
{
    let mut seats = Vec::new(alloc);
    for guard in pool {
        seats.push(Seat::Boxed(guard))?;
    }
    Ok(seats)
}

/// Boxes as observers.
pub fn wrap_boxes(alloc: Global, pool: Vec<Box<dyn Observer>>) -> Result<Vec<Boxed>, AllocError>
    ensures { IfOk result (λ boxes.
        boxes.items ≡ map (λ it. record { it = it }) pool.items) }
{
    let mut boxes = Vec::new(alloc);
    for it in pool {
        boxes.push(Boxed::new(it))?;
    }
    Ok(boxes)
}

/// The world, where there is one.
pub fn as_final(found: Option<Played<Boxed>>) -> Final
    ensures { found_in result ≡ option_map (λ played. played.world) found }
{
    match found {
        Some(played) => Final::Desk(played.world),
        None => Final::Nothing,
    }
}
