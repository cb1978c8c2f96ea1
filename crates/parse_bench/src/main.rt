//! Parses the text on standard input many times over, and says how often it was a statement: what `checks/parse-speed` takes the time of.
//!
//! It stands on `sql_text`. It is no part of the server.
#![tactic(auto)]

ghost use Rattle.std.specs.Prelude.{◌≡◌, ◌≤◌, ◌*◌, true};
ghost use Rattle.sql_text.specs.declared.statement.Statement.{Statement};
ghost use Rattle.sql_text.specs.Statements.{Spells};

use sql_text::parse;
use std::alloc::Global;
use std::io;
use std::io::Read;

// About how many bytes are parsed in all, and at most how often.
const BYTES: usize = 16_777_216;

const ROUNDS: usize = 20_000;

fn main(rt: HostRuntime) -> io::Result<()> {
    let mut text = Vec::new(rt.alloc());
    rt.stdin().read_to_end(&mut text)?;
    let rounds = rounds_of(text.len());
    let read = statements_of(rt.alloc(), &text, rounds);
    println!(rt; "{read} of {rounds}")?;
    Ok(())
}

// How often a text of so many bytes is parsed.
fn rounds_of(len: usize) -> usize
    ensures bytes { result * len ≤ 16777216 }
    ensures most { result ≤ 20000 }
{
    (BYTES / len.max(1)).min(ROUNDS)
}

// Whether the text is a statement: so only where it spells one.
fn is_statement(alloc: Global, text: &[u8]) -> bool
    ensures spelt { result ≡ true → (statement : Statement) × Spells text.now statement }
{
    match parse(alloc, text) {
        Ok(_) => true,
        Err(_) => false,
    }
}

// Parses a text so many times; how often it was a statement.
fn statements_of(alloc: Global, text: &[u8], rounds: usize) -> usize
    ensures most { result ≤ rounds }
    ensures none { ((statement : Statement) → Spells text.now statement → ⊥) → result ≡ 0 }
{
    let mut read = 0;
    for _ in 0..rounds {
        if is_statement(alloc, text) {
            read += 1;
        }
    }
    read
}
