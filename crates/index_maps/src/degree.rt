//! How many arcs go from each node, or to it.

use base_items::Fact;
use observe_core::{After, Kind, Observer, Readout, Veto};
use std::alloc::{AllocError, Global};

/// The degree of each node by the arcs that were told: how many go from it, or to it.
#[derive(Drop)]
pub struct Degree {
    out: bool,
    counts: Vec<u32>,
}

impl Degree {
    ghost use Rattle.std.specs.Prelude.{◌≡◌, ◌<◌, ◌≤◌, OnOk, OnErr, IsOk, [], vec_len};
    ghost use Rattle.observe_core.specs.Facts.{end_of};
    ghost use Rattle.observe_core.specs.Held.{Degree as DegreeHeld};
    ghost use Rattle.observe_core.specs.Seen.{map_seen};
    ghost use Rattle.observe_core.specs.Items.{put_number, drop_number};
    ghost use Rattle.index_maps.specs.Counted.{how_often};
    ghost use Rattle.index_maps.specs.DegreeViews.{degree_seen, ends_of_degree, turned_ends};
    ghost use Rattle.index_maps.specs.DegreeViews.{reach_of};

    /// No arcs. They are counted at their sources if `out`, and else at their targets.
    pub fn new(out: bool, alloc: Global) -> Degree
        ensures { degree_seen result ≡ map_seen (DegreeHeld out []) }
    {
        Degree {
            out,
            counts: Vec::new(alloc),
        }
    }

    /// How many arcs that were told go from the node, or to it.
    pub fn get(&self, node: u32) -> u32
        ensures { result ≡ how_often node (ends_of_degree self.now) }
    {
        let at = node as usize;
        if at < self.counts.len() {
            return self.counts[at];
        }
        0
    }

    /// The end by which an arc is counted.
    fn end(&self, f: &Fact) -> u32
        ensures { result ≡ end_of self.now.out f.now }
    {
        if self.out { f.from } else { f.to }
    }

    /// Makes a count for a node, if there is none.
    fn make_room(&mut self, node: u32) -> Result<(), AllocError>
        requires { node < 4194304 }
        ensures same { degree_seen self.new ≡ degree_seen self.old }
        ensures room { OnOk result (node < vec_len self.new.counts) }
        ensures succeeds { node < reach_of self.old → IsOk result }
        ensures reach { reach_of self.old ≤ reach_of self.new }
    {
        let at = node as usize;
        if self.counts.len() <= at {
            self.counts.resize(at + 1, 0)?;
        }
        Ok(())
    }

    /// One arc more at a node.
    fn raise(&mut self, node: u32) -> Result<(), AllocError>
        requires bounded { node < 4194304 }
        requires small { how_often node (ends_of_degree self.old) < 4294967295 }
        ensures ok { OnOk result (degree_seen self.new
            ≡ map_seen (DegreeHeld self.old.out (put_number node (ends_of_degree self.old)))) }
        ensures err { OnErr result (degree_seen self.new ≡ degree_seen self.old) }
        ensures succeeds { node < reach_of self.old → IsOk result }
        ensures reach { reach_of self.old ≤ reach_of self.new }
    {
        self.make_room(node)?;
        self.counts[node as usize] += 1;
        Ok(())
    }

    /// One arc less at a node.
    fn lower(&mut self, node: u32)
        ensures seen { degree_seen self.new
            ≡ map_seen (DegreeHeld self.old.out (drop_number node (ends_of_degree self.old))) }
        ensures reach { reach_of self.old ≤ reach_of self.new }
    {
        let at = node as usize;
        if at < self.counts.len() {
            self.counts[at] = self.counts[at].saturating_sub(1);
        }
    }

    /// An arc at one node in place of another.
    fn turn(&mut self, old: &Fact, new: &Fact)
        requires bounded { end_of self.old.out new.now < 4194304 }
        requires room { end_of self.old.out new.now < reach_of self.old }
        requires small { how_often (end_of self.old.out new.now)
            (turned_ends self.old old.now new.now) ≤ 4294967295 }
        ensures seen { degree_seen self.new
            ≡ map_seen (DegreeHeld self.old.out (turned_ends self.old old.now new.now)) }
        ensures reach { reach_of self.old ≤ reach_of self.new }
    {
        let from = self.end(old);
        let to = self.end(new);
        self.lower(from);
        if self.raise(to).is_err() {
            unreachable!();
        }
    }

    /// No arc at any node.
    fn reset(&mut self)
        ensures seen { degree_seen self.new ≡ map_seen (DegreeHeld self.old.out []) }
        ensures reach { reach_of self.old ≤ reach_of self.new }
    {
        self.counts.clear();
    }
}

impl Observer for Degree {
    ghost use Rattle.index_maps.specs.DegreeViews.{degree_seen, reach_of};
    ghost use Rattle.index_maps.specs.DegreeSound.{degree-sound, degree-reaches};

    ghost watch = { λ d. record {
      seen = degree_seen d;
      room = 0;
      reach = reach_of d;
      sound = degree-sound d;
      reaches = degree-reaches d;
    } };

    fn kind(&self) -> Kind {
        Kind::Map
    }

    fn readout(&self) -> Readout {
        Readout {
            items: 0,
            k: 0,
            left: 0,
            added: 0,
            erased: 0,
            moved: 0,
        }
    }

    fn arm(&mut self, k: u32) {
        let _ = k;
    }

    fn add(&mut self, f: Fact) -> Result<(), Veto> {
        let node = self.end(&f);
        match self.raise(node) {
            Ok(()) => Ok(()),
            Err(_) => Err(Veto::Memory),
        }
    }

    fn undo_add(&mut self, f: Fact) {
        let node = self.end(&f);
        self.lower(node);
    }

    fn shift(&mut self, old: Fact, new: Fact) -> Result<(), Veto> {
        let node = self.end(&new);
        if self.make_room(node).is_err() {
            return Err(Veto::Memory);
        }
        self.turn(&old, &new);
        Ok(())
    }

    fn undo_shift(&mut self, old: Fact, new: Fact) {
        self.turn(&new, &old);
    }

    fn build(&mut self, all: &[Fact]) -> Result<(), Veto> {
        for f in all {
            let node = self.end(f);
            match self.raise(node) {
                Ok(()) => {}
                Err(_) => {
                    self.reset();
                    return Err(Veto::Memory);
                }
            }
        }
        Ok(())
    }

    fn undo_build(&mut self) {
        self.reset();
    }

    fn erase(&mut self, f: Fact) -> After {
        let node = self.end(&f);
        self.lower(node);
        After::Keep
    }

    fn clear(&mut self) -> After {
        self.reset();
        After::Keep
    }
}
