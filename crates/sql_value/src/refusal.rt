//! The refusals of statements: their codes and printed texts.
ghost use Rattle.std.specs.Prelude.{◌≡◌, ◌++◌, ℕ, List, OnOk, OnErr, IfOk};
ghost use Rattle.sql_value.specs.Refusals.{refusal_number, refusal_words, refusal_numbers};
ghost use Rattle.sql_value.specs.Refusals.{refusal_text, spaced};

use std::alloc::{AllocError, Global};
use std::marker::Model;
use std::slice;

/// The owners of a cycle of waits: each waits for the next one, and the last for the first.
#[derive(Debug, Drop)]
pub struct Cycle {
    owners: Vec<u32>,
}

impl Model for Cycle {
    ghost use Rattle.std.specs.Prelude.{List, ℕ};

    ghost Value = { List ℕ };

    ghost view = { λ c. c.owners.items };
}

impl Cycle {
    /// The cycle of these owners. No memory is taken.
    pub fn new(owners: Vec<u32>) -> Cycle
        ensures { result ≡ owners.items }
    {
        Cycle { owners }
    }

    /// Its owners, in order.
    pub fn owners(&self) -> &[u32]
        ensures { result.now ≡ self.now }
    {
        self.owners.as_slice()
    }
}

/// Why a statement is refused. Each has a number and a text.
#[derive(Debug, Drop)]
pub enum Refusal {
    /// It has more than 65,536 bytes.
    StatementTooLong,
    /// It is no statement; the fault is at this byte, from 0.
    Syntax { at: u32 },
    /// Its wait would close this cycle.
    Deadlock { cycle: Cycle },
    /// The open transaction has no savepoint of this name.
    NoSuchSavepoint,
    /// There is no table of this name.
    NoSuchTable,
    /// There is a table of this name.
    TableExists,
    /// The plugin is installed.
    PluginInstalled,
    /// The plugin is dying.
    PluginDying,
    /// No engine at hand has this name and library.
    NoSuchLibrary,
    /// The plugin is not installed.
    PluginNotInstalled,
    /// All slots for plugins were used.
    PluginSlotsSpent,
    /// The engine is not live, and the session has no hold on it.
    UnknownEngine,
    /// The schema is none, or none for this engine.
    SchemaUnsuitable,
    /// The table has no column of this name.
    UnknownColumn,
    /// A row has another number of values than the table has columns.
    ValueCount,
    /// A value, comparison, sum or assignment mixes types.
    WrongType,
    /// A literal or sum is no BIGINT.
    OutOfRange,
    /// A Null for a column that is not nullable.
    ColumnNotNullable,
    /// A text is longer than its column allows.
    DataTooLong,
    /// The key is there.
    DuplicateEntry,
    /// The engine's live bytes would pass their limit.
    TableFull,
    /// The transaction would pass the limit of what is logged.
    TransactionTooLarge,
    /// The log would pass its limit.
    LogSpent,
    /// This server does not do such statements yet.
    NotBuilt,
}

impl Refusal {
    /// The number of its code.
    pub fn number(&self) -> u16
        ensures { result ≡ refusal_number self.now }
    {
        match self {
            Refusal::StatementTooLong => 9007,
            Refusal::Syntax { .. } => 1064,
            Refusal::Deadlock { .. } => 1213,
            Refusal::NoSuchSavepoint => 1305,
            Refusal::NoSuchTable => 1146,
            Refusal::TableExists => 1050,
            Refusal::PluginInstalled => 9001,
            Refusal::PluginDying => 9002,
            Refusal::NoSuchLibrary => 9003,
            Refusal::PluginNotInstalled => 9004,
            Refusal::PluginSlotsSpent => 9005,
            Refusal::UnknownEngine => 1286,
            Refusal::SchemaUnsuitable => 9006,
            Refusal::UnknownColumn => 1054,
            Refusal::ValueCount => 1136,
            Refusal::WrongType => 9010,
            Refusal::OutOfRange => 1264,
            Refusal::ColumnNotNullable => 1048,
            Refusal::DataTooLong => 1406,
            Refusal::DuplicateEntry => 1062,
            Refusal::TableFull => 1114,
            Refusal::TransactionTooLarge => 9008,
            Refusal::LogSpent => 9009,
            Refusal::NotBuilt => 9099,
        }
    }

    /// Appends its printed text: words, and the place of a syntax fault or the owners of a cycle behind them.
    ///
    /// `AllocError` for want of memory; then nothing is appended.
    pub fn put_text(&self, out: &mut Vec<u8>) -> Result<(), AllocError>
        ensures ok { OnOk result (out.new.items ≡ out.old.items ++ refusal_text self.now) }
        ensures err { OnErr result (out.new.items ≡ out.old.items) }
    {
        let text = text_of(*out.allocator(), self.words(), self.numbers())?;
        out.extend_from_slice(text.as_slice())
    }

    fn words(&self) -> &'static [u8]
        ensures { result.now ≡ refusal_words self.now }
    {
        match self {
            Refusal::StatementTooLong => b"statement too long",
            Refusal::Syntax { .. } => b"syntax at",
            Refusal::Deadlock { .. } => b"deadlock",
            Refusal::NoSuchSavepoint => b"no such savepoint",
            Refusal::NoSuchTable => b"no such table",
            Refusal::TableExists => b"table exists",
            Refusal::PluginInstalled => b"plugin is installed",
            Refusal::PluginDying => b"plugin is dying",
            Refusal::NoSuchLibrary => b"no such library",
            Refusal::PluginNotInstalled => b"plugin is not installed",
            Refusal::PluginSlotsSpent => b"plugin slots spent",
            Refusal::UnknownEngine => b"unknown engine",
            Refusal::SchemaUnsuitable => b"schema does not suit",
            Refusal::UnknownColumn => b"unknown column",
            Refusal::ValueCount => b"value count",
            Refusal::WrongType => b"wrong type",
            Refusal::OutOfRange => b"out of range",
            Refusal::ColumnNotNullable => b"column cannot be null",
            Refusal::DataTooLong => b"data too long",
            Refusal::DuplicateEntry => b"duplicate entry",
            Refusal::TableFull => b"table full",
            Refusal::TransactionTooLarge => b"transaction too large",
            Refusal::LogSpent => b"log spent",
            Refusal::NotBuilt => b"not built",
        }
    }

    fn numbers(&self) -> &[u32]
        ensures { result.now ≡ refusal_numbers self.now }
    {
        match self {
            Refusal::Syntax { at } => slice::from_ref(at),
            Refusal::Deadlock { cycle } => cycle.owners(),
            _ => &[],
        }
    }
}

fn text_of(alloc: Global, words: &[u8], numbers: &[u32]) -> Result<Vec<u8>, AllocError>
    ensures { IfOk result (λ text. text.items ≡ words.now ++ spaced numbers.now) }
{
    let mut text = words.to_vec(alloc)?;
    for number in numbers {
        let digits = number.to_string(alloc)?;
        text.push(b' ')?;
        text.extend_from_slice(digits.as_bytes())?;
    }
    Ok(text)
}
