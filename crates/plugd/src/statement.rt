//! A statement on its way: executed in the engine, prepared there, logged, made durable, committed in the engine, acknowledged.
//!
//! Each step says what stands behind it of a run that had come so far (`specs/Way.antt`), so that they compose by application.
ghost use Rattle.std.specs.Prelude.{◌≡◌, ℕ, List, None, Some, Ok, IfOk, OnErr, IsTrue};
ghost use Rattle.engine_api.specs.Calls.{IsSame};
ghost use Rattle.sql_step.specs.declared.outcome.Outcome.TheVariants.{Changed, Noted};
ghost use Rattle.plugd.specs.declared.statement.Prepared.TheVariants as prepared;
ghost use Rattle.plugd.specs.Asked.{count_of};
ghost use Rattle.plugd.specs.Serve.{session};
ghost use Rattle.plugd.specs.Spell.{cause_by};
ghost use Rattle.plugd.specs.Way.{SomeOnWay, SomeExecuted, SomeToPrepare, SomeToUndo, SomeReady, PlaysOne, Executes, Commits, Prepares, Undoes, Finishes};

use crate::calls::{calls_of, carry_out, commit, log, prepare, roll_back};
use crate::kernel::{AtWork, Kernel};
use crate::reply::{HaltCause, Reply};
use engine_api::EngineFault;
use row_format::Changes;
use sql_exec::ExecFault;
use sql_step::Outcome;
use sql_value::Refusal;
use std::alloc::AllocError;

/// What became of the execution of a text.
#[derive(Drop)]
pub(crate) enum Executed {
    /// It came to this; what it changes in the engine is open there.
    Done { outcome: Outcome },
    /// It is refused, and nothing was done.
    Refused { refusal: Refusal },
    /// A call of the engine halts the run.
    Halted { cause: HaltCause },
}

/// What became of a prepare.
#[derive(Drop)]
pub(crate) enum Prepared {
    Done,
    /// The engine's journal has no room for it.
    Full,
    /// The call halts the run.
    Halted { cause: HaltCause },
}

// The cause of a halt, where a fault of an engine is one.
fn cause_of(fault: EngineFault) -> Result<HaltCause, AllocError>
    ensures some { IfOk result (λ cause. cause_by fault ≡ Some cause) }
    ensures none { OnErr result (cause_by fault ≡ None) }
{
    match fault {
        EngineFault::Device => Ok(HaltCause::Device),
        EngineFault::NotAVolume { file } => Ok(HaltCause::NotAVolume { file }),
        EngineFault::Memory | EngineFault::Code(_) => Err(AllocError),
    }
}

impl Kernel {
    // Plays a text to its reply.
    pub(crate) fn play(&mut self, text: &[u8]) -> Result<Reply, AllocError>
        requires way { SomeOnWay (⟦<Kernel as AtWork>⟧.core_of self.old) }
        ensures same { IsSame (kind self.old.engine) (kind self.new.engine)
            (reading self.old.engine) (reading self.new.engine) }
        ensures plays { PlaysOne text.now (⟦<Kernel as AtWork>⟧.core_of self.old)
            (⟦<Kernel as AtWork>⟧.core_of self.new) result }
    {
        let outcome = match self.execute(text)? {
            Executed::Done { outcome } => outcome,
            Executed::Refused { refusal } => return Ok(Reply::Refused { refusal }),
            Executed::Halted { cause } => return Ok(self.server.halt(cause)),
        };
        match outcome {
            Outcome::Rows { rows } => Ok(Reply::Rows { rows }),
            Outcome::Changed { count, changes } => self.commit_prepared(count, changes),
            Outcome::Noted { changes } => self.commit_plain(changes),
        }
    }

    // Executes a text in the engine.
    fn execute(&mut self, text: &[u8]) -> Result<Executed, AllocError>
        requires way { SomeOnWay (⟦<Kernel as AtWork>⟧.core_of self.old) }
        ensures same { IsSame (kind self.old.engine) (kind self.new.engine)
            (reading self.old.engine) (reading self.new.engine) }
        ensures executes { Executes text.now (⟦<Kernel as AtWork>⟧.core_of self.old)
            (⟦<Kernel as AtWork>⟧.core_of self.new) result }
    {
        let alloc = self.server.alloc;
        let dictionary = &self.server.dictionary;
        match carry_out(alloc, &mut self.engine, &mut self.storage, dictionary, text) {
            Ok(outcome) => Ok(Executed::Done { outcome }),
            Err(ExecFault::Refused(refusal)) => Ok(Executed::Refused { refusal }),
            Err(ExecFault::Device) => Ok(Executed::Halted {
                cause: HaltCause::Device,
            }),
            Err(ExecFault::NotAVolume { file }) => Ok(Executed::Halted {
                cause: HaltCause::NotAVolume { file },
            }),
            Err(ExecFault::Memory) => Err(AllocError),
        }
    }

    // Takes a statement of the engine, which was executed, to its reply.
    fn commit_prepared(&mut self, count: u64, changes: Changes) -> Result<Reply, AllocError>
        requires executed { (text : List ℕ) × SomeExecuted (record {
          text = text;
          outcome = Changed count changes;
        }) changes (⟦<Kernel as AtWork>⟧.core_of self.old) }
        ensures same { IsSame (kind self.old.engine) (kind self.new.engine)
            (reading self.old.engine) (reading self.new.engine) }
        ensures commits { (text : List ℕ) → Commits (record {
          text = text;
          outcome = Changed count changes;
        }) changes (⟦<Kernel as AtWork>⟧.core_of self.old)
            (⟦<Kernel as AtWork>⟧.core_of self.new) result }
    {
        let xid = self.server.xids.give()?;
        match self.prepare(xid)? {
            Prepared::Done => {}
            Prepared::Full => return Ok(self.undo(Refusal::TableFull)),
            Prepared::Halted { cause } => return Ok(self.server.halt(cause)),
        }
        if !self.server.spell(xid, changes)? {
            return Ok(self.undo(Refusal::LogSpent));
        }
        Ok(self.finish(count, xid))
    }

    // Prepares what was executed.
    fn prepare(&mut self, xid: u64) -> Result<Prepared, AllocError>
        requires ready { SomeToPrepare xid (⟦<Kernel as AtWork>⟧.core_of self.old) }
        ensures same { IsSame (kind self.old.engine) (kind self.new.engine)
            (reading self.old.engine) (reading self.new.engine) }
        ensures server { self.new.server ≡ self.old.server }
        ensures full { result ≡ Ok prepared.Full
            → IsTrue (is_spent self.old.engine session xid) }
        ensures prepares { Prepares xid (⟦<Kernel as AtWork>⟧.core_of self.old)
            (⟦<Kernel as AtWork>⟧.core_of self.new) result }
    {
        match prepare(&mut self.engine, &mut self.storage, xid) {
            Ok(()) => Ok(Prepared::Done),
            Err(EngineFault::Code(_)) => Ok(Prepared::Full),
            Err(fault) => {
                let cause = cause_of(fault)?;
                Ok(Prepared::Halted { cause })
            }
        }
    }

    // Takes back what was executed, and refuses it.
    fn undo(&mut self, refusal: Refusal) -> Reply
        requires ready { SomeToUndo (⟦<Kernel as AtWork>⟧.core_of self.old) }
        ensures same { IsSame (kind self.old.engine) (kind self.new.engine)
            (reading self.old.engine) (reading self.new.engine) }
        ensures undoes { Undoes refusal (⟦<Kernel as AtWork>⟧.core_of self.old)
            (⟦<Kernel as AtWork>⟧.core_of self.new) result }
    {
        match roll_back(&mut self.engine, &mut self.storage) {
            Ok(()) => Reply::Refused { refusal },
            Err(_) => self.server.halt(HaltCause::Device),
        }
    }

    // Logs what is prepared and spelt, commits it in the engine, and acknowledges it.
    fn finish(&mut self, count: u64, xid: u64) -> Reply
        requires ready { SomeReady count xid (⟦<Kernel as AtWork>⟧.core_of self.old) }
        ensures same { IsSame (kind self.old.engine) (kind self.new.engine)
            (reading self.old.engine) (reading self.new.engine) }
        ensures finishes { Finishes count xid (⟦<Kernel as AtWork>⟧.core_of self.old)
            (⟦<Kernel as AtWork>⟧.core_of self.new) result }
    {
        let Ok(()) = log(
            &mut self.server.log,
            &mut self.storage,
            &self.server.spelling,
        ) else {
            return self.server.halt(HaltCause::Device);
        };
        let number = self.server.log.flushed();
        // The log has it by now: where the commit fails, the next opening commits it.
        match commit(&mut self.engine, &mut self.storage, xid, number) {
            Ok(()) => self
                .server
                .acknowledge(count, number, calls_of(&self.storage)),
            Err(_) => self.server.halt(HaltCause::Device),
        }
    }

    // Takes an INSTALL, which no engine prepares, to its reply.
    fn commit_plain(&mut self, changes: Changes) -> Result<Reply, AllocError>
        requires executed { (text : List ℕ) × SomeExecuted (record {
          text = text;
          outcome = Noted changes;
        }) changes (⟦<Kernel as AtWork>⟧.core_of self.old) }
        ensures same { IsSame (kind self.old.engine) (kind self.new.engine)
            (reading self.old.engine) (reading self.new.engine) }
        ensures commits { (text : List ℕ) → Commits (record {
          text = text;
          outcome = Noted changes;
        }) changes (⟦<Kernel as AtWork>⟧.core_of self.old)
            (⟦<Kernel as AtWork>⟧.core_of self.new) result }
    {
        let xid = self.server.xids.give()?;
        if !self.server.spell(xid, changes)? {
            return Ok(Reply::Refused {
                refusal: Refusal::LogSpent,
            });
        }
        let Ok(()) = log(
            &mut self.server.log,
            &mut self.storage,
            &self.server.spelling,
        ) else {
            return Ok(self.server.halt(HaltCause::Device));
        };
        let number = self.server.log.flushed();
        Ok(self.server.acknowledge(0, number, calls_of(&self.storage)))
    }
}
