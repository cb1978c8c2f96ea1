//! What is written for a line: one reply, as text.
//!
//! Invariant: a `Line` is filled from its back, and begins at `at` (its `Model`).
ghost use Rattle.std.specs.Prelude.{◌≡◌, ◌≤◌, ◌<◌, ◌+◌, ◌++◌, ◌∷◌, [], ℕ, List, length, drop, OnOk, OnErr};
ghost use Rattle.std.specs.Fmt.{decimal};
ghost use Rattle.framed_file.specs.Framed.{IsPrefix};
ghost use Rattle.plugd.specs.Reply.{text_of, numbered, done_text, refused_text, halted_text};

use crate::server::SESSION;
use log_tables::Rows;
use schedule_text::put_rows;
use sql_value::Refusal;
use std::alloc::AllocError;
use std::marker::Model;

/// Why a run is halted: from then on no statement is played.
#[derive(Clone, Copy, Debug, PartialEq, Eq)]
pub enum HaltCause {
    /// The device failed.
    Device,
    /// A call of the engine found that this file of its own is none.
    NotAVolume { file: u32 },
}

/// The answer to one line.
#[derive(Drop)]
pub enum Reply {
    /// The statement was logged as the transaction of this number, from 1, and counts so many rows:
    /// `1 ok COUNT #N`.
    Done { count: u64, number: u64 },
    /// The statement is refused: `1 error CODE TEXT`.
    Refused { refusal: Refusal },
    /// The rows of a SELECT: `1 rows N`, and a line `1 | ...` for each.
    Rows { rows: Rows },
    /// The run is halted, now or before: `1 halted device`, or `1 halted volume FILE`.
    Halted { cause: HaltCause },
    /// The line of this number, from 1, is no command: `? N`.
    BadLine { line: u64 },
}

/// Appends the text of the reply, which ends with a line feed.
///
/// `AllocError` for want of memory; then nothing is appended.
pub fn put_reply(reply: &Reply, out: &mut Vec<u8>) -> Result<(), AllocError>
    ensures ok { OnOk result (out.new.items ≡ out.old.items ++ text_of reply.now) }
    ensures err { OnErr result (out.new.items ≡ out.old.items) }
{
    let len = out.len();
    let done = add_reply(reply, out);
    if done.is_err() {
        out.truncate(len);
    }
    done
}

// Appends the text of the reply, or a first part of it.
fn add_reply(reply: &Reply, out: &mut Vec<u8>) -> Result<(), AllocError>
    ensures ok { OnOk result (out.new.items ≡ out.old.items ++ text_of reply.now) }
    ensures err { OnErr result (IsPrefix out.old.items out.new.items) }
{
    match reply {
        Reply::Done { count, number } => add_done(*count, *number, out),
        Reply::Refused { refusal } => add_refused(refusal, out),
        Reply::Rows { rows } => put_rows(SESSION, rows.as_slice(), out),
        Reply::Halted { cause } => add_halted(*cause, out),
        Reply::BadLine { line } => put_numbered(b"? ", *line, out),
    }
}

fn add_done(count: u64, number: u64, out: &mut Vec<u8>) -> Result<(), AllocError>
    ensures ok { OnOk result (out.new.items ≡ out.old.items ++ done_text count number) }
    ensures err { OnErr result (IsPrefix out.old.items out.new.items) }
{
    out.extend_from_slice(b"1 ok ")?;
    put_decimal(count, out)?;
    put_numbered(b" #", number, out)
}

fn add_refused(refusal: &Refusal, out: &mut Vec<u8>) -> Result<(), AllocError>
    ensures ok { OnOk result (out.new.items ≡ out.old.items ++ refused_text refusal.now) }
    ensures err { OnErr result (IsPrefix out.old.items out.new.items) }
{
    out.extend_from_slice(b"1 error ")?;
    put_decimal(u64::from(refusal.number()), out)?;
    out.push(b' ')?;
    refusal.put_text(out)?;
    out.push(b'\n')?;
    Ok(())
}

fn add_halted(cause: HaltCause, out: &mut Vec<u8>) -> Result<(), AllocError>
    ensures ok { OnOk result (out.new.items ≡ out.old.items ++ halted_text cause) }
    ensures err { OnErr result (IsPrefix out.old.items out.new.items) }
{
    match cause {
        HaltCause::Device => out.extend_from_slice(b"1 halted device\n"),
        HaltCause::NotAVolume { file } => put_numbered(b"1 halted volume ", u64::from(file), out),
    }
}

// Appends a number in decimal.
fn put_decimal(number: u64, out: &mut Vec<u8>) -> Result<(), AllocError>
    ensures ok { OnOk result (out.new.items ≡ out.old.items ++ decimal number) }
    ensures err { OnErr result (out.new.items ≡ out.old.items) }
{
    let mut line = Line::new();
    line.put_decimal(number);
    out.extend_from_slice(line.as_bytes())
}

// Appends a line that ends with a number.
fn put_numbered(front: &[u8], number: u64, out: &mut Vec<u8>) -> Result<(), AllocError>
    requires { length front.now ≤ 16 }
    ensures ok { OnOk result (out.new.items ≡ out.old.items ++ numbered front.now number) }
    ensures err { OnErr result (out.new.items ≡ out.old.items) }
{
    let mut line = Line::new();
    line.put_byte(b'\n');
    line.put_decimal(number);
    line.put_bytes(front);
    out.extend_from_slice(line.as_bytes())
}

// The greatest length of a line that ends with a number: sixteen bytes, twenty digits and a line feed.
const ROOM: usize = 37;

#[derive(Drop)]
struct Line {
    bytes: [u8; ROOM],
    at: usize,
}

impl Model for Line {
    ghost Value = { List ℕ };

    ghost view = { λ l. drop l.at l.bytes };

    ghost invariant = { λ l. l.at ≤ 37 };
}

impl Line {
    fn new() -> Line
        ensures { result ≡ [] }
    {
        Line {
            bytes: [0; ROOM],
            at: ROOM,
        }
    }

    fn as_bytes(&self) -> &[u8]
        ensures { result.now ≡ self.now }
    {
        &self.bytes[self.at..]
    }

    // Puts a byte before what is there.
    fn put_byte(&mut self, byte: u8)
        requires { length self.old < 37 }
        ensures { self.new ≡ byte ∷ self.old }
    {
        self.at -= 1;
        self.bytes[self.at] = byte;
    }

    fn put_bytes(&mut self, front: &[u8])
        requires { length front.now + length self.old ≤ 37 }
        ensures { self.new ≡ front.now ++ self.old }
    {
        let at = self.at - front.len();
        self.bytes[at..self.at].copy_from_slice(front);
        self.at = at;
    }

    fn put_decimal(&mut self, number: u64)
        requires { 20 + length self.old ≤ 37 }
        ensures { self.new ≡ decimal number ++ self.old }
    {
        let mut rest = number;
        while rest >= 10 {
            self.put_byte(b'0' + (rest % 10) as u8);
            rest /= 10;
        }
        self.put_byte(b'0' + rest as u8);
    }
}

#[cfg(test)]
mod tests {
    use super::{HaltCause, Reply, put_reply};
    use log_tables::Rows;
    use sql_value::{Refusal, Row, Value};
    use std::test::Fail;

    fn done(count: u64, number: u64) -> Reply {
        Reply::Done { count, number }
    }

    fn refused(refusal: Refusal) -> Reply {
        Reply::Refused { refusal }
    }

    fn halted(cause: HaltCause) -> Reply {
        Reply::Halted { cause }
    }

    #[test]
    fn rows_are_lines(rt: HostRuntime) -> Result<(), Fail> {
        let alloc = rt.alloc();
        let mut rows = Vec::new(alloc);
        for number in [-1, 20] {
            let mut values = Vec::new(alloc);
            values.push(Value::Int(number))?;
            values.push(Value::Null)?;
            rows.push(Row::new(values))?;
        }
        let mut out = Vec::new(alloc);
        let rows = Rows::new(rows);
        put_reply(&Reply::Rows { rows }, &mut out)?;
        let want = b"1 rows 2\n1 | -1, NULL\n1 | 20, NULL\n".as_slice();
        assert!(rt; out.as_slice() == want);
        Ok(())
    }

    #[test]
    fn replies_are_lines(rt: HostRuntime) -> Result<(), Fail> {
        let most = u64::MAX;
        let file = u32::MAX;
        let replies: [(Reply, &[u8]); 10] = [
            (done(1, 1), b"1 ok 1 #1\n"),
            (done(0, 207), b"1 ok 0 #207\n"),
            (
                done(most, most),
                b"1 ok 18446744073709551615 #18446744073709551615\n",
            ),
            (refused(Refusal::LogSpent), b"1 error 9009 log spent\n"),
            (
                refused(Refusal::DuplicateEntry),
                b"1 error 1062 duplicate entry\n",
            ),
            (
                refused(Refusal::Syntax { at: 0 }),
                b"1 error 1064 syntax at 0\n",
            ),
            (halted(HaltCause::Device), b"1 halted device\n"),
            (
                halted(HaltCause::NotAVolume { file }),
                b"1 halted volume 4294967295\n",
            ),
            (Reply::BadLine { line: 10 }, b"? 10\n"),
            (Reply::BadLine { line: 907 }, b"? 907\n"),
        ];
        for (i, (reply, text)) in replies.iter().enumerate() {
            let mut out = b"- ".to_vec(rt.alloc())?;
            put_reply(reply, &mut out)?;
            assert!(rt; out.len() > 2);
            assert!(rt; &out[2..] == *text, "reply {i}");
        }
        Ok(())
    }
}
