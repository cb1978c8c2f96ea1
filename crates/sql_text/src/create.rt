//! CREATE TABLE: the items, each with its options, and the engine.
//!
//! `(` --items with commas--> `)` --ENGINE--> `=` or not --the engine's name--> a whole statement.
ghost use Rattle.std.specs.Prelude.{◌≡◌, Option};
ghost use Rattle.sql_text.specs.Create as spec;
ghost use Rattle.sql_text.specs.Starts as starts;
ghost use Rattle.sql_text.specs.Steps.{Gives};

use crate::keyword::Keyword;
use crate::lexeme::{Lexeme, Sign};
use crate::list::ListOf;
use crate::reading::Reading;
use crate::statement::{Item, Statement, TypeName};
use crate::step::StepFault;
use sql_value::Name;
use std::alloc::Global;

/// A CREATE with its table and the items that it lists.
#[derive(Drop)]
pub struct CreateHead {
    pub table: Name,
    pub items: ListOf<Item>,
}

/// A CREATE, and what is due.
#[derive(Drop)]
pub struct Creating {
    pub head: CreateHead,
    pub due: CreateDue,
}

/// What is due.
#[derive(Drop)]
pub enum CreateDue {
    /// `(`
    Open,
    /// PRIMARY or the name of a column.
    Item,
    /// A part of the column of this name.
    Column { name: Name, due: ColumnDue },
    /// An option of this column, or what follows it.
    Options { column: ColumnRead },
    /// NULL behind the NOT of this column.
    OptionNull { column: ColumnRead },
    /// KEY behind the PRIMARY of this column.
    OptionKey { column: ColumnRead },
    /// A part of a key that is named by itself.
    Key { due: KeyDue },
    /// `)` behind the key's column.
    KeyClose { column: Name },
    /// `,` or `)`
    More,
    /// ENGINE.
    Engine,
    /// `=` or the name of the engine.
    Equal,
    EngineName,
}

/// What is due of a column.
#[derive(Clone, Copy, Debug, PartialEq, Eq)]
pub enum ColumnDue {
    /// BIGINT or VARCHAR.
    Kind,
    /// `(` behind VARCHAR.
    Open,
    Length,
    /// `)` behind the length.
    Close { len: u8 },
}

/// What is due of a key that is named by itself.
#[derive(Clone, Copy, Debug, PartialEq, Eq)]
pub enum KeyDue {
    /// KEY behind PRIMARY.
    Key,
    /// `(`
    Open,
    Column,
}

/// A column with its type and the options that it has.
#[derive(Drop)]
pub struct ColumnRead {
    pub name: Name,
    pub kind: TypeName,
    pub null: bool,
    pub not_null: bool,
    pub key: bool,
}

/// A CREATE of this table.
pub fn begin_create(alloc: Global, table: Name) -> Reading
    ensures { result ≡ starts.creating table }
{
    let head = CreateHead {
        table,
        items: ListOf::new(alloc),
    };
    with_due(head, CreateDue::Open)
}

fn with_due(head: CreateHead, due: CreateDue) -> Reading
    ensures { result ≡ spec.with_due head due }
{
    Reading::Creating(Creating { head, due })
}

fn after_sign(
    head: CreateHead,
    lexeme: &Lexeme,
    sign: Sign,
    due: CreateDue,
) -> Result<Reading, StepFault>
    ensures { Gives result (spec.after_sign head lexeme.now sign due) }
{
    if lexeme.is_sign(sign) {
        Ok(with_due(head, due))
    } else {
        Err(StepFault::Unexpected)
    }
}

fn after_word(
    head: CreateHead,
    lexeme: &Lexeme,
    word: Keyword,
    due: CreateDue,
) -> Result<Reading, StepFault>
    ensures { Gives result (spec.after_word head lexeme.now word due) }
{
    if lexeme.is_word(word) {
        Ok(with_due(head, due))
    } else {
        Err(StepFault::Unexpected)
    }
}

fn with_item(head: CreateHead, item: Item) -> Result<CreateHead, StepFault>
    ensures { Gives result (spec.with_item head item) }
{
    let CreateHead { table, mut items } = head;
    items.push(item)?;
    Ok(CreateHead { table, items })
}

fn more(head: CreateHead, lexeme: &Lexeme) -> Result<Reading, StepFault>
    ensures { Gives result (spec.more head lexeme.now) }
{
    if lexeme.is_sign(Sign::Comma) {
        Ok(with_due(head, CreateDue::Item))
    } else {
        after_sign(head, lexeme, Sign::Close, CreateDue::Engine)
    }
}

#[tactic(auto, unfolding(crate::specs::Create::item))]
fn item(head: CreateHead, lexeme: &Lexeme) -> Result<Reading, StepFault>
    ensures { Gives result (spec.item head lexeme.now) }
{
    if lexeme.is_word(Keyword::Primary) {
        return Ok(with_due(head, CreateDue::Key { due: KeyDue::Key }));
    }
    let name = lexeme.column()?;
    let due = ColumnDue::Kind;
    Ok(with_due(head, CreateDue::Column { name, due }))
}

fn options(head: CreateHead, name: Name, kind: TypeName) -> Reading
    ensures { result ≡ spec.options head name kind }
{
    let column = ColumnRead {
        name,
        kind,
        null: false,
        not_null: false,
        key: false,
    };
    with_due(head, CreateDue::Options { column })
}

fn kind(head: CreateHead, name: Name, lexeme: &Lexeme) -> Result<Reading, StepFault>
    ensures { Gives result (spec.kind head name lexeme.now) }
{
    if lexeme.is_word(Keyword::BigInt) {
        return Ok(options(head, name, TypeName::BigInt));
    }
    let due = ColumnDue::Open;
    after_word(
        head,
        lexeme,
        Keyword::VarChar,
        CreateDue::Column { name, due },
    )
}

impl Lexeme {
    fn small(&self) -> Option<u8>
        ensures { result ≡ spec.small_in self.now }
    {
        match self {
            Lexeme::Number(number) => number.small(),
            _ => None,
        }
    }
}

fn length(head: CreateHead, name: Name, lexeme: &Lexeme) -> Result<Reading, StepFault>
    ensures { Gives result (spec.length_next head name lexeme.now) }
{
    match lexeme.small() {
        Some(len) => {
            let due = ColumnDue::Close { len };
            Ok(with_due(head, CreateDue::Column { name, due }))
        }
        None => Err(StepFault::Unexpected),
    }
}

fn column(
    head: CreateHead,
    name: Name,
    due: ColumnDue,
    lexeme: &Lexeme,
) -> Result<Reading, StepFault>
    ensures { Gives result (spec.column head name due lexeme.now) }
{
    match due {
        ColumnDue::Kind => kind(head, name, lexeme),
        ColumnDue::Open => {
            let due = ColumnDue::Length;
            after_sign(head, lexeme, Sign::Open, CreateDue::Column { name, due })
        }
        ColumnDue::Length => length(head, name, lexeme),
        ColumnDue::Close { len } => {
            if lexeme.is_sign(Sign::Close) {
                Ok(options(head, name, TypeName::VarChar(len)))
            } else {
                Err(StepFault::Unexpected)
            }
        }
    }
}

#[tactic(auto, unfolding(crate::specs::Create::after_column))]
fn after_column(head: CreateHead, column: ColumnRead, lexeme: &Lexeme) -> Result<Reading, StepFault>
    ensures { Gives result (spec.after_column head column lexeme.now) }
{
    let ColumnRead {
        name,
        kind,
        null,
        not_null,
        key,
    } = column;
    let head = with_item(
        head,
        Item::Column {
            name,
            kind,
            null,
            not_null,
            key,
        },
    )?;
    more(head, lexeme)
}

impl ColumnRead {
    fn with_null(self) -> ColumnRead
        ensures { result ≡ spec.with_null self }
    {
        let ColumnRead {
            name,
            kind,
            null: _,
            not_null,
            key,
        } = self;
        ColumnRead {
            name,
            kind,
            null: true,
            not_null,
            key,
        }
    }

    fn with_not_null(self) -> ColumnRead
        ensures { result ≡ spec.with_not_null self }
    {
        let ColumnRead {
            name,
            kind,
            null,
            not_null: _,
            key,
        } = self;
        ColumnRead {
            name,
            kind,
            null,
            not_null: true,
            key,
        }
    }

    fn with_key(self) -> ColumnRead
        ensures { result ≡ spec.with_key self }
    {
        let ColumnRead {
            name,
            kind,
            null,
            not_null,
            key: _,
        } = self;
        ColumnRead {
            name,
            kind,
            null,
            not_null,
            key: true,
        }
    }
}

fn option(head: CreateHead, column: ColumnRead, lexeme: &Lexeme) -> Result<Reading, StepFault>
    ensures { Gives result (spec.option head column lexeme.now) }
{
    if lexeme.is_word(Keyword::Not) && !column.not_null {
        Ok(with_due(head, CreateDue::OptionNull { column }))
    } else if lexeme.is_word(Keyword::Null) && !column.null {
        let column = column.with_null();
        Ok(with_due(head, CreateDue::Options { column }))
    } else if lexeme.is_word(Keyword::Primary) && !column.key {
        Ok(with_due(head, CreateDue::OptionKey { column }))
    } else {
        after_column(head, column, lexeme)
    }
}

#[tactic(auto, unfolding(crate::specs::Create::key_column))]
fn key_column(head: CreateHead, lexeme: &Lexeme) -> Result<Reading, StepFault>
    ensures { Gives result (spec.key_column head lexeme.now) }
{
    let column = lexeme.column()?;
    Ok(with_due(head, CreateDue::KeyClose { column }))
}

fn key(head: CreateHead, due: KeyDue, lexeme: &Lexeme) -> Result<Reading, StepFault>
    ensures { Gives result (spec.key head due lexeme.now) }
{
    match due {
        KeyDue::Key => {
            let due = KeyDue::Open;
            after_word(head, lexeme, Keyword::Key, CreateDue::Key { due })
        }
        KeyDue::Open => {
            let due = KeyDue::Column;
            after_sign(head, lexeme, Sign::Open, CreateDue::Key { due })
        }
        KeyDue::Column => key_column(head, lexeme),
    }
}

#[tactic(auto, unfolding(crate::specs::Create::key_close))]
fn key_close(head: CreateHead, column: Name, lexeme: &Lexeme) -> Result<Reading, StepFault>
    ensures { Gives result (spec.key_close head column lexeme.now) }
{
    if !lexeme.is_sign(Sign::Close) {
        return Err(StepFault::Unexpected);
    }
    let head = with_item(head, Item::Key { column })?;
    Ok(with_due(head, CreateDue::More))
}

#[tactic(auto, unfolding(crate::specs::Create::engine_name))]
fn engine_name(head: CreateHead, lexeme: &Lexeme) -> Result<Reading, StepFault>
    ensures { Gives result (spec.engine_name head lexeme.now) }
{
    let engine = lexeme.engine()?;
    let CreateHead { table, items } = head;
    Ok(Reading::Whole(Statement::Create {
        table,
        items,
        engine,
    }))
}

fn equal(head: CreateHead, lexeme: &Lexeme) -> Result<Reading, StepFault>
    ensures { Gives result (spec.equal head lexeme.now) }
{
    if lexeme.is_sign(Sign::Equal) {
        Ok(with_due(head, CreateDue::EngineName))
    } else {
        engine_name(head, lexeme)
    }
}

impl Creating {
    #[tactic(auto, unfolding(crate::specs::Create::next))]
    pub fn next(self, lexeme: &Lexeme) -> Result<Reading, StepFault>
        ensures { Gives result (spec.next self lexeme.now) }
    {
        let Creating { head, due } = self;
        match due {
            CreateDue::Open => after_sign(head, lexeme, Sign::Open, CreateDue::Item),
            CreateDue::Item => item(head, lexeme),
            CreateDue::Column { name, due } => column(head, name, due, lexeme),
            CreateDue::Options { column } => option(head, column, lexeme),
            CreateDue::OptionNull { column } => {
                let column = column.with_not_null();
                after_word(head, lexeme, Keyword::Null, CreateDue::Options { column })
            }
            CreateDue::OptionKey { column } => {
                let column = column.with_key();
                after_word(head, lexeme, Keyword::Key, CreateDue::Options { column })
            }
            CreateDue::Key { due } => key(head, due, lexeme),
            CreateDue::KeyClose { column } => key_close(head, column, lexeme),
            CreateDue::More => more(head, lexeme),
            CreateDue::Engine => after_word(head, lexeme, Keyword::Engine, CreateDue::Equal),
            CreateDue::Equal => equal(head, lexeme),
            CreateDue::EngineName => engine_name(head, lexeme),
        }
    }
}
