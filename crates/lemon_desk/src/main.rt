//! lgdesk: runs a script on a graph and reports its answers.
#![tactic(auto)]

mod boxed;
mod call_faults;
pub mod desk;
#[cfg(test)]
mod edge_tests;
mod exit_codes;
mod file_shelf;
mod out_sink;
pub mod pool;
pub mod serve;
#[cfg(test)]
mod tests;
mod unfiled;

use exit_codes::exit_code;
use file_shelf::FileShelf;
use out_sink::OutSink;
use plain_machine::Status;
use pool::serve_with_boxes;
use std::alloc::{AllocError, Global};
use std::process::ExitCode;
use std::{env, io};

fn main(rt: HostRuntime) -> ExitCode {
    exit_code(run(&rt))
}

// Runs the program over the real files and standard output.
fn run(rt: &HostRuntime) -> Status {
    let Ok(words) = words(rt) else {
        return Status::Memory;
    };
    let mut shelf = FileShelf::new(rt);
    let mut report = OutSink::new(io::writer(rt));
    match serve_with_boxes(rt.alloc(), words.as_slice(), &mut shelf, &mut report) {
        Ok((status, _)) => status,
        Err(_) => Status::Memory,
    }
}

// The words after the program's name. Words that can't be had as text count as none.
fn words(rt: &HostRuntime) -> Result<Vec<Vec<u8>>, AllocError> {
    let alloc: Global = rt.alloc();
    let mut words = Vec::new(alloc);
    if let Ok(args) = env::args(rt) {
        for arg in args.skip(1) {
            let word = Vec::from_slice(alloc, arg.as_bytes())?;
            words.push(word)?;
        }
    }
    Ok(words)
}
