//! One session: bytes in, lines played, replies spelt.
//!
//! Invariant: the first bytes of the open line are kept, as many as decide what it asks for, and `replies` has the texts that are
//! still to be written (`Standing`).
ghost use Rattle.std.specs.Prelude.{◌≡◌, ◌≤◌, ◌++◌, ◌∷◌, [], ℕ, List, length, take, OnOk, OnErr};
ghost use Rattle.outer_io.specs.Ends.{Put, PutFront, Counts};
ghost use Rattle.plugd.specs.Coordinator.{SameReader};
ghost use Rattle.plugd.specs.Session.{IsStanding, Takes};

use crate::coordinator::Coordinator;
use crate::reply::put_reply;
use outer_io::{Failed, Sink, write_all};
use schedule_text::MAX_LINE;
use std::alloc::{AllocError, Global};

/// The coordinator, the open line, and what is to be written.
#[derive(Drop)]
pub(crate) struct Session<C: Coordinator> {
    pub(crate) core: C,
    pub(crate) front: Vec<u8>,
    pub(crate) replies: Vec<u8>,
}

impl<C: Coordinator> Session<C> {
    // A session that has taken nothing.
    pub(crate) fn new(alloc: Global, core: C) -> Session<C>
        ensures core { result.core ≡ core }
        ensures front { result.front.items ≡ [] }
        ensures replies { result.replies.items ≡ [] }
    {
        Session {
            core,
            front: Vec::new(alloc),
            replies: Vec::new(alloc),
        }
    }

    // Plays these bytes. Where there was no memory, what is left of the session is its replies and acknowledgements.
    pub(crate) fn take_all(&mut self, bytes: &[u8]) -> Result<(), AllocError>
        requires standing { IsStanding C.serves self.old (length bytes.now) }
        ensures same { SameReader (C.reads self.old.core) (C.reads self.new.core) }
        ensures takes { Takes C.serves C.rests bytes.now self.old self.new result }
    {
        for byte in bytes {
            self.take(*byte)?;
        }
        Ok(())
    }

    fn take(&mut self, byte: u8) -> Result<(), AllocError>
        requires standing { IsStanding C.serves self.old 1 }
        ensures same { SameReader (C.reads self.old.core) (C.reads self.new.core) }
        ensures takes { Takes C.serves C.rests (byte ∷ []) self.old self.new result }
    {
        if byte == b'\n' {
            return self.end_line();
        }
        if self.front.len() < MAX_LINE {
            self.front.push(byte)?;
        }
        Ok(())
    }

    fn end_line(&mut self) -> Result<(), AllocError>
        requires standing { IsStanding C.serves self.old 1 }
        ensures same { SameReader (C.reads self.old.core) (C.reads self.new.core) }
        ensures takes { Takes C.serves C.rests (10 ∷ []) self.old self.new result }
        ensures empty { OnOk result (self.new.front.items ≡ []) }
    {
        let reply = self.core.answer(&self.front)?;
        self.front.clear();
        if let Some(reply) = reply {
            put_reply(&reply, &mut self.replies)?;
        }
        Ok(())
    }

    // Writes what is to be written.
    pub(crate) fn flush<K: Sink>(&mut self, sink: &mut K) -> Result<(), Failed>
        ensures core { self.new.core ≡ self.old.core }
        ensures front { self.new.front ≡ self.old.front }
        ensures ok { OnOk result (Put self.old.replies.items (K.held sink.old) (K.held sink.new)) }
        ensures empty { OnOk result (self.new.replies.items ≡ []) }
        ensures err { OnErr result
            (PutFront self.old.replies.items (K.held sink.old) (K.held sink.new)) }
        ensures counts { Counts result (K.sink_faults sink.old) (K.sink_faults sink.new) }
    {
        write_all(sink, &self.replies)?;
        self.replies.clear();
        Ok(())
    }
}
