//! The kernel of a run: the server, the storage that it works on, and its engine.
//!
//! It owns both boxes: opening takes the storage out of the volume, and closing puts it back.
ghost use Rattle.std.specs.Prelude.{◌≡◌, ◌≤◌, IfOk, IfErr};
ghost use Rattle.engine_api.specs.Calls.{IsSame};
ghost use Rattle.engine_api.specs.Many.{working};
ghost use Rattle.plugd.specs.Open.{Begins, Refused, as_opening};
ghost use Rattle.plugd.specs.Serve.{Core, IsJournal};

use crate::ack::Ack;
use crate::calls::{bring, open_log};
use crate::coordinator::Coordinator;
use crate::found::Found;
use crate::heard::{Heard, hear};
use crate::reply::{HaltCause, Reply};
use crate::server::Server;
use binlog_file::BinlogFault;
use disk_model::{Storage, Volume};
use engine_api::Engine;
use std::alloc::{AllocError, Global};
use xid_recovery::OpenFault;

/// The server, the storage that it works on, and its engine.
#[derive(Drop)]
pub(crate) struct Kernel {
    pub(crate) storage: Box<dyn Storage + Send>,
    pub(crate) engine: Box<dyn Engine + Send>,
    pub(crate) server: Server,
}

/// Why the volume was not opened, and the volume as the opening left it.
#[derive(Drop)]
pub(crate) struct Unopened {
    pub(crate) fault: OpenFault,
    pub(crate) volume: Volume,
}

/// What is at work in a kernel, as one value.
pub(crate) trait AtWork: Drop {
    // The server, its engine and the disk.
    ghost core_of: { Self → Core };
}

impl AtWork for Kernel {
    ghost core_of = { λ k. record {
      server = k.server;
      engine = record {
        kind = (Engine-box k.engine).kind k.engine.value;
        reading = (Engine-box k.engine).reading k.engine.value;
        state = (Engine-box k.engine).state k.engine.value;
        holds = (Engine-box k.engine).holds k.engine.value;
      };
      disk = (Storage-box k.storage).disk k.storage.value;
    } };
}

impl Coordinator for Kernel {
    ghost use Rattle.plugd.specs.Serve.{Serving, Halts};

    ghost volume_of = { λ k. (Storage-box k.storage).disk k.storage.value };

    ghost reads = { λ k. record {
      kind = (Engine-box k.engine).kind k.engine.value;
      reading = (Engine-box k.engine).reading k.engine.value;
    } };

    ghost acks_of = { λ k. k.server.acks.items };

    ghost is_halted = { λ k. k.server.halted };

    ghost serves = { λ k base lines replies. Serving base lines replies (record {
      server = k.server;
      engine = record {
        kind = (Engine-box k.engine).kind k.engine.value;
        reading = (Engine-box k.engine).reading k.engine.value;
        state = (Engine-box k.engine).state k.engine.value;
        holds = (Engine-box k.engine).holds k.engine.value;
      };
      disk = (Storage-box k.storage).disk k.storage.value;
    }) };

    ghost rests = { λ k base lines replies. Halts base lines replies (record {
      server = k.server;
      engine = record {
        kind = (Engine-box k.engine).kind k.engine.value;
        reading = (Engine-box k.engine).reading k.engine.value;
        state = (Engine-box k.engine).state k.engine.value;
        holds = (Engine-box k.engine).holds k.engine.value;
      };
      disk = (Storage-box k.storage).disk k.storage.value;
    }) };

    fn answer(&mut self, front: &[u8]) -> Result<Option<Reply>, AllocError> {
        self.server.lines += 1;
        match hear(front) {
            Heard::Settle => Ok(None),
            Heard::Unknown => Ok(Some(Reply::BadLine {
                line: self.server.lines,
            })),
            Heard::Text { text } => {
                if let Some(cause) = self.server.halted {
                    return Ok(Some(Reply::Halted { cause }));
                }
                let reply = self.play(text)?;
                Ok(Some(reply))
            }
        }
    }

    fn halted(&self) -> Option<HaltCause> {
        self.server.halted
    }

    ghost may_rest = { λ k base lines replies s. record {
      state = s.state;
      stopped = s.stopped;
      halted = s.shows.halted;
    } };
}

impl Kernel {
    // Opens the log of a volume, which may get so many bytes long, and brings the engine to it.
    pub(crate) fn open(
        alloc: Global,
        volume: Volume,
        engine: Box<dyn Engine + Send>,
        limit: u32,
    ) -> Result<Kernel, Unopened>
        requires limit { limit ≤ 2147483647 }
        requires journal { IsJournal (kind engine) }
        ensures begins { IfOk result (λ kernel. Begins limit (disk volume.storage)
            (⟦<Kernel as AtWork>⟧.core_of kernel)) }
        ensures same { IfOk result (λ kernel. IsSame (kind engine) (kind kernel.engine)
            (reading engine) (reading kernel.engine)) }
        ensures refused { IfErr result (λ refusal. Refused
            (working (kind engine) (reading engine) (state engine) (holds engine))
            (disk volume.storage) refusal.fault (disk refusal.volume.storage)) }
    {
        let mut storage = volume.storage;
        let mut engine = engine;
        let Ok(mut found) = Found::none(alloc) else {
            let fault = OpenFault::Memory;
            let volume = Volume { storage };
            return Err(Unopened { fault, volume });
        };
        let opened = match open_log(alloc, &mut storage, &mut found) {
            Ok(opened) => opened,
            Err(fault) => {
                let fault = open_fault(fault);
                let volume = Volume { storage };
                return Err(Unopened { fault, volume });
            }
        };
        let logged = opened.log.flushed();
        match bring(alloc, &mut storage, &mut engine, &found.pairs, logged) {
            Ok(_) => Ok(Kernel {
                storage,
                engine,
                server: Server::new(alloc, opened.log, found.xids, found.dictionary, limit),
            }),
            Err(fault) => {
                let volume = Volume { storage };
                Err(Unopened { fault, volume })
            }
        }
    }

    // The volume, and what was acknowledged.
    pub(crate) fn close(self) -> (Volume, Vec<Ack>)
        ensures volume { (result.0).storage ≡ self.storage }
        ensures acks { result.1 ≡ self.server.acks }
    {
        let server = self.server;
        let volume = Volume {
            storage: self.storage,
        };
        (volume, server.acks)
    }
}

// The fault of the log, as one of an opening.
fn open_fault(fault: BinlogFault) -> OpenFault
    ensures { result ≡ as_opening fault }
{
    match fault {
        BinlogFault::Device => OpenFault::Device,
        BinlogFault::NotAVolume { file } => OpenFault::NotAVolume { file },
        BinlogFault::Memory => OpenFault::Memory,
    }
}
