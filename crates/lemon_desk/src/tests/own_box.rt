//! A box of the test's own.

use super::{CHAIN, PLAIN, Row, shelf_of, words_of};
use crate::desk::Final;
use crate::serve::serve;
use base_items::Fact;
use edge_io::MemSink;
use guard_kinds::{Guard, Quota};
use observe_core::{After, Kind, Observer, Readout, Veto};
use plain_machine::Status;
use std::test::Fail;

/// A quota that finds no memory where an item is added.
#[derive(Drop)]
struct Short {
    it: Guard,
}

impl Observer for Short {
    ghost watch = { λ s. ⟦<Guard as Observer>⟧.watch s.it };

    fn kind(&self) -> Kind {
        self.it.kind()
    }

    fn readout(&self) -> Readout {
        self.it.readout()
    }

    fn arm(&mut self, k: u32) {
        self.it.arm(k);
    }

    fn add(&mut self, f: Fact) -> Result<(), Veto> {
        let _ = f;
        Err(Veto::Memory)
    }

    fn undo_add(&mut self, f: Fact) {
        self.it.undo_add(f);
    }

    fn shift(&mut self, old: Fact, new: Fact) -> Result<(), Veto> {
        self.it.shift(old, new)
    }

    fn undo_shift(&mut self, old: Fact, new: Fact) {
        self.it.undo_shift(old, new);
    }

    fn build(&mut self, all: &[Fact]) -> Result<(), Veto> {
        self.it.build(all)
    }

    fn undo_build(&mut self) {
        self.it.undo_build();
    }

    fn erase(&mut self, f: Fact) -> After {
        self.it.erase(f)
    }

    fn clear(&mut self) -> After {
        self.it.clear()
    }
}

#[test]
fn a_box_without_memory_ends_the_run(rt: HostRuntime) -> Result<(), Fail> {
    let alloc = rt.alloc();
    let row = Row {
        files: &[
            (b"g", CHAIN),
            (b"s", b"guard q node quota 9\naddnode x\nnodes base\n"),
        ],
        ..PLAIN
    };
    let mut shelf = shelf_of(alloc, &row)?;
    let words = words_of(alloc, row.words)?;
    let mut report = MemSink::new(alloc);
    let mut pool: Vec<Box<dyn Observer>> = Vec::new(alloc);
    pool.push(Box::new(
        alloc,
        Short {
            it: Quota::new(alloc),
        },
    )?)?;
    let (status, last) = serve(alloc, words.as_slice(), &mut shelf, &mut report, pool);
    let has_world = match last {
        Final::Nothing => false,
        Final::Desk(_) => true,
    };
    assert_eq!(&rt; status, Status::Memory);
    assert_eq!(&rt; has_world, false);
    assert_eq!(&rt; report.taken(), b"".as_slice());
    Ok(())
}
