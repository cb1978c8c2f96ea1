//! What stands in quotes.
ghost use Rattle.std.specs.Prelude.{◌≡◌, ◌≤◌, ◌<◌, ◌^◌, length, IfOk};
ghost use Rattle.sql_text.specs.Quoted.{escape_of, piece_at, quoted_at, quoted_len, piece_len, MovesOn};

use sql_value::Text;
use std::alloc::{AllocError, Global};

/// What stands at the front of the bytes behind an opening quote.
#[derive(Clone, Copy, Debug, PartialEq, Eq)]
pub enum Piece {
    /// A byte of the text, and how many bytes stand for it.
    Byte { byte: u8, len: usize },
    /// The closing quote.
    End,
    /// No more bytes, or a backslash that stands for nothing.
    Fault,
}

/// What stands behind an opening quote.
#[derive(Drop)]
pub enum Quoted {
    /// A text, and how many bytes it takes with the closing quote.
    Closed { text: Text, len: usize },
    /// How many bytes stand before the fault.
    Faulty { len: usize },
}

fn escaped(letter: u8) -> Option<u8>
    ensures { result ≡ escape_of letter }
{
    match letter {
        b'\'' | b'"' | b'\\' => Some(letter),
        b'n' => Some(b'\n'),
        b'r' => Some(b'\r'),
        b't' => Some(b'\t'),
        b'0' => Some(0),
        _ => None,
    }
}

fn piece_at(bytes: &[u8]) -> Piece
    ensures value { result ≡ piece_at bytes.now }
    ensures within { piece_len result ≤ length bytes.now }
    ensures moves { MovesOn result }
{
    match bytes {
        [] => Piece::Fault,
        [b'\'', b'\'', ..] => Piece::Byte {
            byte: b'\'',
            len: 2,
        },
        [b'\'', ..] => Piece::End,
        [b'\\'] => Piece::Fault,
        [b'\\', letter, ..] => match escaped(*letter) {
            Some(byte) => Piece::Byte { byte, len: 2 },
            None => Piece::Fault,
        },
        [byte, ..] => Piece::Byte {
            byte: *byte,
            len: 1,
        },
    }
}

/// What stands behind an opening quote.
///
/// `AllocError` for want of memory.
pub fn read_quoted(alloc: Global, bytes: &[u8]) -> Result<Quoted, AllocError>
    requires { length bytes.now ≤ 65536 }
    ensures value { IfOk result (λ q. q ≡ quoted_at bytes.now) }
    ensures within { IfOk result (λ q. quoted_len q ≤ length bytes.now) }
{
    let mut text = Vec::new(alloc);
    let mut rest = bytes;
    let mut before = 0;
    loop {
        match piece_at(rest) {
            Piece::Byte { byte, len } => {
                text.push(byte)?;
                rest = &rest[len..];
                before += len;
            }
            Piece::End => {
                return Ok(Quoted::Closed {
                    text: Text::new(text),
                    len: before + 1,
                });
            }
            Piece::Fault => return Ok(Quoted::Faulty { len: before }),
        }
    }
}
