//! One run of the server over a volume: the log is opened, the engine is brought to it, the input is played, and the end has one status.
ghost use Rattle.std.specs.Prelude.{◌≡◌, ◌≤◌, ◌↔◌, ℕ, List, [], map, IsTrue};
ghost use Rattle.disk_model.specs.Disk.{Disk};
ghost use Rattle.disk_model.specs.Object.{object};
ghost use Rattle.engine_api.specs.Many.{working};
ghost use Rattle.plugd.specs.Session.{world};
ghost use Rattle.plugd.specs.Run.{Ended, Runs, IsPlay, IsShelf, IsStatus, OnShelf, fault_status, halted_status, plain_status};

use crate::ack::Ack;
use crate::coordinator::Coordinator;
use crate::kernel::Kernel;
use crate::play::{Ending, PIECE, play_all};
use crate::reply::HaltCause;
use crate::session::Session;
use disk_model::{Storage, Volume};
use engine_api::Engine;
use outer_io::{Sink, Source};
use row_format::Name;
use std::alloc::Global;
use xid_recovery::OpenFault;

/// The longest log, in bytes. (This project's own.)
pub const LOG_LIMIT: u32 = 2_147_483_647;

/// How a run ended.
#[derive(Drop)]
pub enum Status {
    /// All lines were played.
    Ok,
    /// The words are not the one word `play`; `place` is 0.
    Usage {
        place: usize,
    },
    /// This file of the volume is not what its format says: at the opening, or, where contents are not told, when an engine met it later.
    NotAVolume {
        file: u32,
    },
    /// The device failed.
    Device,
    /// The log names this engine, and it was not handed in.
    EngineMissing {
        name: Name,
    },
    /// The last number of this engine exceeds that of the log.
    Ahead {
        engine: Name,
        engine_last: u64,
        log_last: u64,
    },
    /// A read of the input failed.
    SourceFault,
    /// A write of the replies failed.
    SinkFault,
    /// The input has more than 16,777,216 bytes.
    InputTooLong,
    /// Want of memory.
    NoMemory,
}

/// How a run ended, and each transaction that it acknowledged.
#[derive(Drop)]
pub struct Outcome {
    pub status: Status,
    pub acks: Vec<Ack>,
}

// The status of a halted run.
fn status_of_halt(cause: HaltCause) -> Status
    ensures { result ≡ halted_status cause }
{
    match cause {
        HaltCause::Device => Status::Device,
        HaltCause::NotAVolume { file } => Status::NotAVolume { file },
    }
}

// The status of a run that is not halted.
fn status_of_ending(ending: Ending) -> Status
    ensures { result ≡ plain_status ending }
{
    match ending {
        Ending::EndOfInput => Status::Ok,
        Ending::SourceFailed => Status::SourceFault,
        Ending::SinkFailed => Status::SinkFault,
        Ending::TooLong => Status::InputTooLong,
        Ending::OutOfMemory => Status::NoMemory,
    }
}

fn status_of(ending: Ending, halted: Option<HaltCause>) -> Status
    ensures { IsStatus ending halted result }
{
    if ending == Ending::OutOfMemory {
        return Status::NoMemory;
    }
    match halted {
        Some(cause) => status_of_halt(cause),
        None => status_of_ending(ending),
    }
}

fn status_of_fault(fault: OpenFault) -> Status
    ensures { result ≡ fault_status fault }
{
    match fault {
        OpenFault::NotAVolume { file } => Status::NotAVolume { file },
        OpenFault::Device => Status::Device,
        OpenFault::EngineMissing { name } => Status::EngineMissing { name },
        OpenFault::Ahead {
            engine,
            engine_last,
            log_last,
        } => Status::Ahead {
            engine,
            engine_last,
            log_last,
        },
        OpenFault::Memory => Status::NoMemory,
    }
}

// Whether the words ask for a run.
fn is_play(words: &[String]) -> bool
    ensures { IsTrue result ↔ IsPlay words.now }
{
    match words {
        [word] => word.as_str() == "play",
        _ => false,
    }
}

// The run with the engine on the shelf, over a volume whose log may get so many bytes long.
pub(crate) fn run_over<S: Source, K: Sink>(
    alloc: Global,
    words: &[String],
    source: &mut S,
    sink: &mut K,
    volume: Volume,
    shelf: Vec<Box<dyn Engine + Send>>,
    limit: u32,
) -> (Outcome, Volume)
    requires limit { limit ≤ 2147483647 }
    requires shelf { IsShelf (map (λ e. kind e) shelf.items) }
    ensures ended { OnShelf
        (map (λ e. working (kind e) (reading e) (state e) (holds e)) shelf.items)
        (λ engine. Ended limit words.now engine
        (world (disk (object volume.storage)) (S.left source.old) (S.source_faults source.old)
        (K.held sink.old) (K.sink_faults sink.old))
        (result.0).status (result.0).acks.items
        (world (disk (object (result.1).storage)) (S.left source.new) (S.source_faults source.new)
        (K.held sink.new) (K.sink_faults sink.new))) }
{
    if !is_play(words) {
        let status = Status::Usage { place: 0 };
        let acks = Vec::new(alloc);
        return (Outcome { status, acks }, volume);
    }
    let mut shelf = shelf;
    let engine = shelf.remove(0);
    let kernel = match Kernel::open(alloc, volume, engine, limit) {
        Ok(kernel) => kernel,
        Err(refusal) => {
            let status = status_of_fault(refusal.fault);
            let acks = Vec::new(alloc);
            return (Outcome { status, acks }, refusal.volume);
        }
    };
    let mut session = Session::new(alloc, kernel);
    let mut buf = [0; PIECE];
    let ending = play_all(&mut session, source, sink, &mut buf);
    let status = status_of(ending, session.core.halted());
    let (volume, acks) = session.core.close();
    (Outcome { status, acks }, volume)
}

/// Runs the server over a volume: the one word `play` opens the log in file 0, brings the engine on the shelf to it, and plays the lines
/// of the input. Each reply is written before more is read. The volume comes back as the run left it.
///
/// The shelf has one engine, JOURNAL (`shelf`). What a run does has three parts (`Runs`): how it ends, what it wrote and acknowledged, and
/// what it has left of the volume (`ended`); where nothing failed, it is Ok or found no memory (`complete`); and over a volume that could
/// be recovered a crash at any moment leaves one that can be (`recoverable`).
pub fn run<S: Source, K: Sink>(
    alloc: Global,
    words: &[String],
    source: &mut S,
    sink: &mut K,
    volume: Volume,
    shelf: Vec<Box<dyn Engine + Send>>,
) -> (Outcome, Volume)
    requires shelf { IsShelf (map (λ e. kind e) shelf.items) }
    ensures runs { OnShelf
        (map (λ e. working (kind e) (reading e) (state e) (holds e)) shelf.items)
        (Runs 2147483647 words.now
        (world (disk (object volume.storage)) (S.left source.old) (S.source_faults source.old)
        (K.held sink.old) (K.sink_faults sink.old))
        (result.0).status (result.0).acks.items
        (world (disk (object (result.1).storage)) (S.left source.new) (S.source_faults source.new)
        (K.held sink.new) (K.sink_faults sink.new))) }
{
    run_over(alloc, words, source, sink, volume, shelf, LOG_LIMIT)
}
