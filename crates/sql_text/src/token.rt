//! The tokens of a text.
ghost use Rattle.std.specs.Prelude.{◌≡◌, ◌≤◌, ◌+◌, length, IfOk};
ghost use Rattle.std.specs.Str.Lossy.{utf8_valid_len};
ghost use Rattle.sql_text.specs.Tokens.{tokens_of, tokens_from, ending};

use crate::lexeme::{Class, Lexeme, is_in, lexeme_at};
use std::alloc::{AllocError, Global};
use std::str;

/// A lexeme, and the byte of the text where it begins.
#[derive(Drop)]
pub struct Token {
    pub at: u32,
    pub lexeme: Lexeme,
}

// How many bytes stand before the first that is no UTF-8.
fn sound_len(bytes: &[u8]) -> usize
    ensures value { result ≡ utf8_valid_len bytes.now }
    ensures within { result ≤ length bytes.now }
{
    match str::from_utf8(bytes) {
        Ok(_) => bytes.len(),
        Err(fault) => fault.valid_up_to(),
    }
}

// What stands behind the bytes that are UTF-8.
fn ending(is_whole: bool) -> Lexeme
    ensures { result ≡ ending is_whole }
{
    if is_whole { Lexeme::End } else { Lexeme::Bad }
}

fn tokens_from(alloc: Global, bytes: &[u8], is_whole: bool) -> Result<Vec<Token>, AllocError>
    requires { length bytes.now ≤ 65536 }
    ensures { IfOk result (λ tokens. tokens.items ≡ tokens_from (ending is_whole) 0 0 bytes.now) }
{
    let mut tokens = Vec::new(alloc);
    let mut rest = bytes;
    let mut at: u32 = 0;
    while let [first, behind @ ..] = rest {
        if is_in(Class::Blank, *first) {
            rest = behind;
            at += 1;
            continue;
        }
        let (lexeme, len) = lexeme_at(alloc, at, rest)?;
        let is_last = lexeme.is_last();
        tokens.push(Token { at, lexeme })?;
        if is_last {
            return Ok(tokens);
        }
        rest = &rest[len..];
        at += len as u32;
    }
    let lexeme = ending(is_whole);
    tokens.push(Token { at, lexeme })?;
    Ok(tokens)
}

/// The tokens of a text of at most 65,536 bytes. The last one, and no other, is `End`, `Bad` or `BadText`.
///
/// `AllocError` for want of memory.
#[tactic(auto, unfolding(crate::specs::Tokens::tokens_of))]
pub fn tokens(alloc: Global, bytes: &[u8]) -> Result<Vec<Token>, AllocError>
    requires { length bytes.now ≤ 65536 }
    ensures { IfOk result (λ tokens. tokens.items ≡ tokens_of bytes.now) }
{
    let len = sound_len(bytes);
    tokens_from(alloc, &bytes[..len], len == bytes.len())
}
