//! Calls of the real files and of a writer as standard output is one, and the exit statuses.

use crate::exit_codes::exit_code;
use crate::file_shelf::FileShelf;
use crate::out_sink::OutSink;
use edge_io::{Shelf, Sink};
use plain_machine::Status;
use std::alloc::Global;
use std::io::{ErrorKind, Write};
use std::process::ExitCode;
use std::string::String;
use std::test::Fail;
use std::{fs, io, process};

#[test]
fn has_eight_exit_statuses(rt: HostRuntime) {
    assert_eq!(rt; exit_code(Status::Done), ExitCode::from(0));
    assert_eq!(rt; exit_code(Status::SomeRefused), ExitCode::from(1));
    assert_eq!(rt; exit_code(Status::Usage), ExitCode::from(2));
    assert_eq!(rt; exit_code(Status::BadGraph), ExitCode::from(3));
    assert_eq!(rt; exit_code(Status::ReadFault), ExitCode::from(4));
    assert_eq!(rt; exit_code(Status::WriteFault), ExitCode::from(5));
    assert_eq!(rt; exit_code(Status::Memory), ExitCode::from(6));
    assert_eq!(rt; exit_code(Status::TooLong), ExitCode::from(7));
}

// ---- files

// A path of a file that isn't there yet.
fn path_for(rt: &HostRuntime, purpose: &str) -> Result<String<Global>, Fail> {
    let id = process::id(rt.process());
    Ok(format!(in rt.alloc(); "/tmp/lgdesk-{id}-{purpose}")?)
}

#[test]
fn files_are_stored_and_read(rt: HostRuntime) -> Result<(), Fail> {
    let path = path_for(&rt, "stored")?;
    let name = path.as_bytes();
    let mut shelf = FileShelf::new(&rt);
    let mut bytes = [0u8; 8];
    assert!(rt; shelf.store(name, b"four").is_ok());
    assert_eq!(rt;
        fs::read(&rt, path.as_str())?.as_slice(),
        b"four".as_slice()
    );
    assert_eq!(rt; shelf.read_at(name, 1, &mut bytes), Ok(3));
    assert_eq!(rt; &bytes[..3], b"our".as_slice());
    assert_eq!(rt; shelf.read_at(name, 4, &mut bytes), Ok(0));
    assert_eq!(rt; (shelf.read_faults(), shelf.store_faults()), (0, 0));
    fs::remove_file(&rt, path.as_str())?;
    assert!(rt; shelf.read_at(name, 0, &mut bytes).is_err());
    assert_eq!(rt; (shelf.read_faults(), shelf.store_faults()), (1, 0));
    Ok(())
}

#[test]
fn a_file_that_another_replaces_is_read_to_its_end(rt: HostRuntime) -> Result<(), Fail> {
    let path = path_for(&rt, "replaced")?;
    let other = path_for(&rt, "other")?;
    let name = path.as_bytes();
    let mut shelf = FileShelf::new(&rt);
    let mut bytes = [0u8; 2];
    fs::write(&rt, path.as_str(), b"four")?;
    fs::write(&rt, other.as_str(), b"nine!")?;
    assert_eq!(rt; shelf.read_at(name, 0, &mut bytes), Ok(2));
    fs::rename(&rt, other.as_str(), path.as_str())?;
    assert_eq!(rt; shelf.read_at(name, 2, &mut bytes), Ok(2));
    assert_eq!(rt; &bytes[..], b"ur".as_slice());
    assert_eq!(rt; shelf.read_at(name, 4, &mut bytes), Ok(0));
    assert_eq!(rt; shelf.read_at(name, 0, &mut bytes), Ok(2));
    assert_eq!(rt; &bytes[..], b"ni".as_slice());
    fs::remove_file(&rt, path.as_str())?;
    Ok(())
}

#[test]
fn calls_on_what_is_no_file_fail(rt: HostRuntime) -> Result<(), Fail> {
    let path = path_for(&rt, "none/file")?;
    let mut shelf = FileShelf::new(&rt);
    let mut bytes = [0u8; 8];
    assert!(rt; shelf.store(path.as_bytes(), b"four").is_err());
    assert_eq!(rt; (shelf.read_faults(), shelf.store_faults()), (0, 1));
    assert!(rt; shelf.read_at(b"/tmp", 0, &mut bytes).is_err());
    assert_eq!(rt; (shelf.read_faults(), shelf.store_faults()), (1, 1));
    assert!(rt; shelf.store(b"/tmp/\xFF", b"four").is_err());
    assert_eq!(rt; (shelf.read_faults(), shelf.store_faults()), (1, 2));
    assert!(rt; shelf.read_at(b"/tmp/\xFF", 0, &mut bytes).is_err());
    assert_eq!(rt; (shelf.read_faults(), shelf.store_faults()), (2, 2));
    Ok(())
}

// ---- the report

// A writer that takes a number of bytes at most each time, and whose flush fails or doesn't.
#[derive(Drop)]
struct Tray {
    most: usize,
    flush_fails: bool,
    flushes: u64,
}

impl Write for Tray {
    fn write(&mut self, bytes: &[u8]) -> io::Result<usize> {
        Ok(bytes.len().min(self.most))
    }

    fn flush(&mut self) -> io::Result<()> {
        self.flushes = self.flushes.saturating_add(1);
        if self.flush_fails {
            Err(io::Error::from(ErrorKind::BrokenPipe))
        } else {
            Ok(())
        }
    }
}

#[test]
fn each_piece_is_flushed(rt: HostRuntime) {
    let mut tray = Tray {
        most: 3,
        flush_fails: false,
        flushes: 0,
    };
    let mut sink = OutSink::new(&mut tray);
    assert_eq!(rt; sink.put(b"four"), Ok(3));
    assert_eq!(rt; sink.put(b"r"), Ok(1));
    assert_eq!(rt; sink.put(b""), Ok(0));
    assert_eq!(rt; sink.faults(), 0);
    assert_eq!(rt; tray.flushes, 3);
}

#[test]
fn a_piece_of_which_nothing_is_taken_is_a_fault(rt: HostRuntime) {
    let tray = Tray {
        most: 0,
        flush_fails: false,
        flushes: 0,
    };
    let mut sink = OutSink::new(tray);
    assert!(rt; sink.put(b"four").is_err());
    assert_eq!(rt; sink.faults(), 1);
}

#[test]
fn a_piece_that_is_not_flushed_is_a_fault(rt: HostRuntime) {
    let tray = Tray {
        most: 8,
        flush_fails: true,
        flushes: 0,
    };
    let mut sink = OutSink::new(tray);
    assert!(rt; sink.put(b"four").is_err());
    assert_eq!(rt; sink.faults(), 1);
}
