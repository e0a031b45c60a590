//! The program: real files on a shelf, the standard output as a sink, and the words of its command line.
#![tactic(auto)]

mod fault;
mod measured;
mod open_file;
mod real_shelf;
mod real_sink;
mod sharing;
#[cfg(test)]
mod tests;
mod unsealed;
mod walk;

use cook_top::{Order, Status, cook, read_words, write_line};
use fault::Fault;
use real_shelf::RealShelf;
use real_sink::RealSink;
use std::fs::File;
use std::os::fd::AsFd;
use std::process::ExitCode;
use std::{env, io};
use unsealed::Sealing;

/// The words behind the program's name. A word that isn't UTF-8 is an error.
fn words_of(system: &HostRuntime) -> io::Result<Vec<String>> {
    let words = env::args(system)?.skip(1).collect(system.alloc())?;
    Ok(words)
}

/// A package is to be on the disk before its report is written, since originals are deleted on the strength of it. Of files
/// that are restored the large ones are, as a sync of each small one takes longer than all else.
fn sealing_of(words: &[String]) -> Sealing {
    match read_words(words) {
        Ok(Order::Pack { .. }) => Sealing::OnDisk,
        _ => Sealing::LargeOnDisk,
    }
}

fn is_open<F: AsFd>(stream: &F) -> bool {
    stream.as_fd().try_clone_to_owned().is_ok()
}

/// Takes the numbers of the standard streams that are closed. Else the next file would be opened under one of them, and the
/// report go into that file.
fn take_streams(system: &HostRuntime) -> Result<Option<[File; 3]>, Fault> {
    if is_open(&system.stdin()) && is_open(&system.stdout()) && is_open(&system.stderr()) {
        return Ok(None);
    }
    match three_files(system, "/dev/null") {
        Ok(files) => Ok(Some(files)),
        Err(error) => Err(Fault::at(system.alloc(), "/dev/null", error)),
    }
}

fn three_files(system: &HostRuntime, name: &str) -> io::Result<[File; 3]> {
    Ok([
        File::open(system, name)?,
        File::open(system, name)?,
        File::open(system, name)?,
    ])
}

/// Tells on the standard error what the system said of which name, where that ended the work.
fn tell_fault(system: &HostRuntime, fault: &Fault) -> io::Result<()> {
    let error = &fault.error;
    match &fault.name {
        Some(name) => eprintln!(system; "cook: {name}: {error}"),
        None => eprintln!(system; "cook: {error}"),
    }
}

/// Does what the words say, on the files of the system.
fn run(system: HostRuntime, words: &[String]) -> Status {
    let mut shelf = RealShelf::new(system, sealing_of(words));
    let mut out = RealSink::new(system);
    let status = cook(system.alloc(), words, &mut shelf, &mut out);
    if let (Status::ShelfFault, Some(fault)) = (&status, &shelf.last_fault) {
        let _ = tell_fault(&system, fault);
    }
    status
}

/// Ends before any work, for a fault.
fn give_up(system: HostRuntime, fault: &Fault) -> Status {
    let _ = tell_fault(&system, fault);
    let _ = write_line(&mut RealSink::new(system), &Status::ShelfFault);
    Status::ShelfFault
}

/// Does what the words say. A command line that can't be read is as faulty as one without words.
fn main(rt: HostRuntime) -> ExitCode {
    let status = match take_streams(&rt) {
        Ok(_streams) => {
            let words = match words_of(&rt) {
                Ok(words) => words,
                Err(_) => Vec::new(rt.alloc()),
            };
            run(rt, words.as_slice())
        }
        Err(fault) => give_up(rt, &fault),
    };
    ExitCode::from(status.number())
}
