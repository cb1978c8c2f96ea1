//! The program `plugd FOLDER play`: one session over the volume in a folder. It reads lines from standard input, and writes replies to
//! standard output and why it ended otherwise to standard error.
//!
//! All that it promises stands at `run`; here are only the words, the folder and the exit codes.
#![tactic(auto)]

mod ack;
mod calls;
mod coordinator;
#[cfg(test)]
mod crash_tests;
mod dir_storage;
#[cfg(test)]
mod fixture;
mod found;
mod heard;
mod kernel;
mod log_one;
mod noting;
mod play;
mod reply;
mod run;
mod server;
mod session;
mod statement;
#[cfg(test)]
mod tests;
mod xids;

use crate::dir_storage::{DirStorage, OpenDir, lock_folder};
use crate::run::{Status, run};
use disk_model::Volume;
use engine_api::Engine;
use journal_engine::JournalEngine;
use outer_io::{StdSink, StdSource};
use row_format::Name;
use std::env;
use std::process::ExitCode;

// The first file of JOURNAL's journal. (This project's own.)
const JOURNAL_FILE: u32 = 16;

fn main(rt: HostRuntime) -> ExitCode {
    let alloc = rt.alloc();
    let words = match env::args(&rt) {
        Ok(words) => words,
        Err(_) => return ended(&rt, &Status::NoMemory),
    };
    let words: Vec<String> = match words.collect(alloc) {
        Ok(words) => words,
        Err(_) => return ended(&rt, &Status::NoMemory),
    };
    let status = match words.as_slice() {
        [_, folder, words @ ..] => serve_folder(&rt, folder.as_str(), words),
        _ => Status::Usage { place: 0 },
    };
    ended(&rt, &status)
}

// The run over a folder, which is locked meanwhile.
fn serve_folder(rt: &HostRuntime, folder: &str, words: &[String]) -> Status {
    let alloc = rt.alloc();
    let lock = match lock_folder(rt, folder) {
        Ok(lock) => lock,
        Err(_) => return Status::Device,
    };
    let Ok(own) = rt.clone() else {
        return Status::NoMemory;
    };
    let storage = match DirStorage::open(own, folder) {
        Ok(storage) => storage,
        Err(OpenDir::Failed) => return Status::Device,
        Err(OpenDir::Memory) => return Status::NoMemory,
    };
    let Ok(storage) = Box::new(alloc, storage) else {
        return Status::NoMemory;
    };
    let Ok(engine) = JournalEngine::new(JOURNAL_FILE, alloc) else {
        return Status::NoMemory;
    };
    let Ok(engine) = Box::new(alloc, engine) else {
        return Status::NoMemory;
    };
    let mut shelf: Vec<Box<dyn Engine + Send>> = Vec::new(alloc);
    if shelf.push(engine).is_err() {
        return Status::NoMemory;
    }
    let mut source = StdSource::new(rt.stdin());
    let mut sink = StdSink::new(rt.stdout());
    let volume = Volume::new(storage);
    let (outcome, volume) = run(alloc, words, &mut source, &mut sink, volume, shelf);
    drop(volume);
    drop(lock);
    outcome.status
}

// Says how the run ended, and gives its exit code.
fn ended(rt: &HostRuntime, status: &Status) -> ExitCode {
    let said = match status {
        Status::Ok => return ExitCode::from(0),
        Status::Usage { place } => eprintln!(rt; "plugd: usage at {place}"),
        Status::NotAVolume { file } => eprintln!(rt; "plugd: not a volume {file}"),
        Status::Device => eprintln!(rt; "plugd: device"),
        Status::EngineMissing { name } => {
            let name = text_of(name);
            eprintln!(rt; "plugd: engine missing {name}")
        }
        Status::Ahead {
            engine,
            engine_last,
            log_last,
        } => {
            let name = text_of(engine);
            eprintln!(rt; "plugd: ahead {name} {engine_last} {log_last}")
        }
        Status::SourceFault => eprintln!(rt; "plugd: input failed"),
        Status::SinkFault => eprintln!(rt; "plugd: output failed"),
        Status::InputTooLong => eprintln!(rt; "plugd: input too long"),
        Status::NoMemory => eprintln!(rt; "plugd: memory"),
    };
    drop(said);
    ExitCode::from(code_of(status))
}

// The name of an engine, to be printed.
fn text_of(name: &Name) -> &str {
    str::from_utf8(name.as_bytes()).unwrap_or("?")
}

// The exit code of a status. (This project's own.)
fn code_of(status: &Status) -> u8 {
    match status {
        Status::Ok => 0,
        Status::Usage { .. } => 1,
        Status::NotAVolume { .. } => 2,
        Status::Device => 3,
        Status::EngineMissing { .. } => 4,
        Status::Ahead { .. } => 5,
        Status::SourceFault => 6,
        Status::SinkFault => 7,
        Status::InputTooLong => 8,
        Status::NoMemory => 9,
    }
}
