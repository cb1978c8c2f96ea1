//! The coordinator of one session: it answers each line, and takes each statement from its execution to its acknowledgement.
//!
//! ```text
//! serving --a fault of the device, or of the engine's files--> halted
//! ```
//! A statement is executed in the engine, prepared there, written to the log, made durable there, committed in the engine and
//! acknowledged, in this order.
//!
//! Its changes are noted in the dictionary as it is spelt, while it may still fail for want of memory.
//!
//! Invariant: while it serves, every transaction of the log is durable, the engine is at the log (`IsAtRest`), and so is the dictionary
//! (`HasCatalog`).
ghost use Rattle.std.specs.Prelude.{◌≡◌, ◌≤◌, ◌<◌, ◌^◌, [], None, length, vec_len, vec_capacity};
ghost use Rattle.row_format.specs.Changes.{AreFitChanges};
ghost use Rattle.plugd.specs.Spell.{Spells, Acknowledges, with_halt};
ghost use Rattle.plugd.specs.declared.reply.Reply.TheVariants.{Done, Halted};

use crate::ack::Ack;
use crate::noting::note;
use crate::reply::{HaltCause, Reply};
use crate::xids::XidSet;
use binlog_events::{put_transaction, transaction_len};
use binlog_file::Binlog;
use dictionary::Dictionary;
use row_format::{Changes, Transaction};
use std::alloc::{AllocError, Global};

/// The session by which the engine knows what this server does.
pub(crate) const SESSION: u32 = 1;

/// The log, its dictionary, what was acknowledged, and how many lines were played.
#[derive(Drop)]
pub(crate) struct Server {
    pub(crate) alloc: Global,
    pub(crate) log: Binlog,
    pub(crate) xids: XidSet,
    pub(crate) dictionary: Dictionary,
    pub(crate) acks: Vec<Ack>,
    // The transaction that is being logged, as it is spelt.
    pub(crate) spelling: Vec<u8>,
    pub(crate) lines: u64,
    pub(crate) limit: u32,
    pub(crate) halted: Option<HaltCause>,
}

impl Server {
    /// A server over a log that an opening found, which may get so many bytes long.
    pub(crate) fn new(
        alloc: Global,
        log: Binlog,
        xids: XidSet,
        dictionary: Dictionary,
        limit: u32,
    ) -> Server
        ensures log { result.log ≡ log }
        ensures xids { result.xids ≡ xids }
        ensures dictionary { result.dictionary ≡ dictionary }
        ensures limit { result.limit ≡ limit }
        ensures lines { result.lines ≡ 0 }
        ensures acks { result.acks.items ≡ [] }
        ensures halted { result.halted ≡ None }
    {
        Server {
            alloc,
            log,
            xids,
            dictionary,
            acks: Vec::new(alloc),
            spelling: Vec::new(alloc),
            lines: 0,
            limit,
            halted: None,
        }
    }

    // Spells the transaction of these changes, makes room for its acknowledgement, and notes them; or tells that the log would pass its
    // limit with it.
    pub(crate) fn spell(&mut self, xid: u64, changes: Changes) -> Result<bool, AllocError>
        requires some { 0 < length changes }
        requires few { length changes < 2 ^ 31 }
        requires fit { AreFitChanges changes }
        requires limit { self.old.limit ≤ 2147483647 }
        ensures spells { Spells xid changes self.old self.new result }
    {
        if transaction_len(&changes) > u64::from(self.log.room(self.limit)) {
            return Ok(false);
        }
        let txn = Transaction { xid, changes };
        self.spelling.clear();
        let at = self.log.len();
        let prev = self.log.last_crc();
        put_transaction(&txn, at, prev, &mut self.spelling)?;
        self.acks.reserve(1)?;
        note(&mut self.dictionary, txn.changes.as_slice())?;
        Ok(true)
    }

    // Acknowledges a statement that counts so many rows, at this device call, as this transaction of the log.
    pub(crate) fn acknowledge(&mut self, count: u64, number: u64, call: u64) -> Reply
        requires room { vec_len self.old.acks < vec_capacity self.old.acks }
        ensures acknowledges { Acknowledges number call self.old self.new }
        ensures reply { result ≡ Done count number }
    {
        let _ = self.acks.push(Ack { number, call });
        Reply::Done { count, number }
    }

    // Halts the run.
    pub(crate) fn halt(&mut self, cause: HaltCause) -> Reply
        ensures server { self.new ≡ with_halt cause self.old }
        ensures reply { result ≡ Halted cause }
    {
        self.halted = Some(cause);
        Reply::Halted { cause }
    }
}
