//! Reading the input piece by piece, playing its lines, and writing their replies.
//!
//! All replies to what was read are written before the next read, so that a client that waits for them is answered.
ghost use Rattle.std.specs.Prelude.{◌≡◌, ◌≤◌, ◌<◌, ◌+◌, [], ℕ, List, length};
ghost use Rattle.plugd.specs.Coordinator.{SameReader};
ghost use Rattle.plugd.specs.Session.{input_limit, IsStanding, IsReading, IsFresh, EndsIn, World, world, Reading};
ghost use Rattle.plugd.specs.Piece.{wrote, PlaysBytes, Closes, PlaysPiece, PlaysAll};
ghost use Rattle.plugd.specs.Serve.{Base};

use crate::coordinator::Coordinator;
use crate::session::Session;
use outer_io::{Sink, Source};

/// The longest input, in bytes. (This project's own.)
pub const INPUT_LIMIT: usize = 16_777_216;

// How many bytes are read at once.
pub(crate) const PIECE: usize = 16_384;

/// Why no more input is read.
#[derive(Clone, Copy, Debug, PartialEq, Eq)]
pub enum Ending {
    /// All of it was read.
    EndOfInput,
    /// A read failed.
    SourceFailed,
    /// A write failed.
    SinkFailed,
    /// The input has more than 16,777,216 bytes.
    TooLong,
    /// Want of memory.
    OutOfMemory,
}

// Plays these bytes and writes the replies. For want of memory the replies so far are written as far as the sink takes them.
fn play_bytes<C: Coordinator, K: Sink>(
    session: &mut Session<C>,
    sink: &mut K,
    bytes: &[u8],
) -> Result<(), Ending>
    requires standing { IsStanding C.serves session.old (length bytes.now) }
    ensures same { SameReader (C.reads session.old.core) (C.reads session.new.core) }
    ensures plays { PlaysBytes C.serves C.rests bytes.now session.old session.new result
        (wrote (K.held sink.old) (K.sink_faults sink.old)
        (K.held sink.new) (K.sink_faults sink.new)) }
{
    if session.take_all(bytes).is_err() {
        let _ = session.flush(sink);
        return Err(Ending::OutOfMemory);
    }
    match session.flush(sink) {
        Ok(()) => Ok(()),
        Err(_) => Err(Ending::SinkFailed),
    }
}

// Plays the line that the input's end leaves open.
fn close<C: Coordinator, K: Sink>(session: &mut Session<C>, sink: &mut K) -> Result<(), Ending>
    requires standing { IsStanding C.serves session.old 2 }
    ensures same { SameReader (C.reads session.old.core) (C.reads session.new.core) }
    ensures closes { Closes C.serves C.rests session.old session.new result
        (wrote (K.held sink.old) (K.sink_faults sink.old)
        (K.held sink.new) (K.sink_faults sink.new)) }
{
    if session.front.is_empty() {
        return Ok(());
    }
    play_bytes(session, sink, b"\r\n")
}

// Plays the next piece of an input that may have `room` bytes more, and tells how many bytes it had.
fn play_piece<C: Coordinator, S: Source, K: Sink>(
    session: &mut Session<C>,
    source: &mut S,
    sink: &mut K,
    buf: &mut [u8],
    room: usize,
) -> Result<usize, Ending>
    requires reading { IsReading C.serves session.old
        (world (C.volume_of session.old.core) (S.left source.old) (S.source_faults source.old)
        (K.held sink.old) (K.sink_faults sink.old)) room }
    requires piece { 0 < length buf.old }
    ensures same { SameReader (C.reads session.old.core) (C.reads session.new.core) }
    ensures plays { PlaysPiece C.serves C.rests room session.old session.new result
        (world (C.volume_of session.old.core) (S.left source.old) (S.source_faults source.old)
        (K.held sink.old) (K.sink_faults sink.old))
        (world (C.volume_of session.new.core) (S.left source.new) (S.source_faults source.new)
        (K.held sink.new) (K.sink_faults sink.new)) }
{
    let size = buf.len().min(room + 1);
    let piece = &mut buf[..size];
    let n = match source.read(piece) {
        Ok(n) => n,
        Err(_) => return Err(Ending::SourceFailed),
    };
    if n == 0 {
        return match close(session, sink) {
            Ok(()) => Err(Ending::EndOfInput),
            Err(ending) => Err(ending),
        };
    }
    let kept = n.min(room);
    if let Err(ending) = play_bytes(session, sink, &piece[..kept]) {
        return Err(ending);
    }
    if kept < n {
        return Err(Ending::TooLong);
    }
    Ok(n)
}

// Plays the whole input.
pub(crate) fn play_all<C: Coordinator, S: Source, K: Sink>(
    session: &mut Session<C>,
    source: &mut S,
    sink: &mut K,
    buf: &mut [u8],
) -> Ending
    requires reading { IsFresh C.serves session.old
        (world (C.volume_of session.old.core) (S.left source.old) (S.source_faults source.old)
        (K.held sink.old) (K.sink_faults sink.old)) }
    requires piece { 0 < length buf.old }
    ensures same { SameReader (C.reads session.old.core) (C.reads session.new.core) }
    ensures plays { PlaysAll C.serves C.rests session.old session.new result
        (world (C.volume_of session.old.core) (S.left source.old) (S.source_faults source.old)
        (K.held sink.old) (K.sink_faults sink.old))
        (world (C.volume_of session.new.core) (S.left source.new) (S.source_faults source.new)
        (K.held sink.new) (K.sink_faults sink.new)) }
{
    let mut room = INPUT_LIMIT;
    loop {
        match play_piece(session, source, sink, buf, room) {
            Ok(n) => room -= n,
            Err(ending) => return ending,
        }
    }
}
