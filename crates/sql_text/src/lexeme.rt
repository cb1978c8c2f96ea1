//! The lexeme at the front of a text.
//!
//! A lexeme is what a token has besides its place. The last one of a text is `End`, `Bad` or `BadText`.
ghost use Rattle.std.specs.Prelude.{◌≡◌, ◌≢◌, ◌+◌, ◌^◌, ◌≤◌, ◌<◌, length, slice_index, IfOk, List, ℕ, true};
ghost use Rattle.std.specs.List.{prefix_len};
ghost use Rattle.sql_text.specs.Lexemes as spec;
ghost use Rattle.sql_text.specs.Numbers.{AreDigits};

use crate::keyword::{Keyword, find_keyword};
use crate::number::{Number, read_number};
use crate::quoted::{Quoted, read_quoted};
use sql_value::{Name, Text};
use std::alloc::{AllocError, Global};

/// A sign of one or two characters, but for `-`.
#[derive(Clone, Copy, Debug, PartialEq, Eq)]
pub enum Sign {
    /// `(`
    Open,
    /// `)`
    Close,
    Comma,
    Semicolon,
    Star,
    Plus,
    Equal,
    /// `<>` or `!=`
    NotEqual,
    Less,
    LessEqual,
    Greater,
    GreaterEqual,
}

/// A word, a number, a text or a sign.
#[derive(Drop)]
pub enum Lexeme {
    Keyword(Keyword),
    /// A word that is no keyword, as it is written.
    Name(Name),
    /// 1 to 38 digits.
    Number(Number),
    /// A text in quotes, without them.
    Text(Text),
    Sign(Sign),
    /// A `-`, and whether a number follows directly.
    Minus { is_tight: bool },
    /// The end of the text.
    End,
    /// What no statement has.
    Bad,
    /// A quote that begins a text with a fault at this byte.
    BadText { fault: u32 },
}

#[derive(Clone, Copy, Debug)]
pub enum Class {
    Blank,
    Digit,
    Letter,
    Word,
}

pub fn is_in(class: Class, byte: u8) -> bool
    ensures { result ≡ spec.is_in class byte }
{
    match class {
        Class::Blank => byte == b' ' || byte == b'\t' || byte == b'\r',
        Class::Digit => byte.is_ascii_digit(),
        Class::Letter => byte.is_ascii_alphabetic() || byte == b'_',
        Class::Word => byte.is_ascii_alphanumeric() || byte == b'_',
    }
}

// How many bytes of the class stand at the front.
fn run_len(class: Class, bytes: &[u8]) -> usize
    ensures value { result ≡ prefix_len (spec.is_in class) bytes.now }
    ensures within { result ≤ length bytes.now }
{
    let mut end = 0;
    while end < bytes.len() && is_in(class, bytes[end]) {
        end += 1;
    }
    end
}

fn word_lexeme(alloc: Global, word: &[u8]) -> Result<Lexeme, AllocError>
    ensures { IfOk result (λ l. l ≡ spec.word_lexeme word.now) }
{
    if let Some(keyword) = find_keyword(word) {
        return Ok(Lexeme::Keyword(keyword));
    }
    if word.len() > 64 {
        return Ok(Lexeme::Bad);
    }
    let bytes = word.to_vec(alloc)?;
    match Name::new(bytes) {
        Ok(name) => Ok(Lexeme::Name(name)),
        Err(_) => Ok(Lexeme::Bad),
    }
}

fn number_lexeme(digits: &[u8]) -> Lexeme
    requires { AreDigits digits.now }
    ensures { result ≡ spec.number_lexeme digits.now }
{
    if digits.len() > 38 {
        return Lexeme::Bad;
    }
    Lexeme::Number(read_number(digits))
}

fn is_tight(bytes: &[u8]) -> bool
    ensures { result ≡ spec.is_tight bytes.now }
{
    let len = run_len(Class::Digit, bytes);
    1 <= len && len <= 38
}

fn text_lexeme(alloc: Global, at: u32, bytes: &[u8]) -> Result<(Lexeme, usize), AllocError>
    requires { at + length bytes.now < 65536 }
    ensures value { IfOk result (λ found. found ≡ spec.text_lexeme at bytes.now) }
    ensures within { IfOk result (λ found. found.1 ≤ length bytes.now + 1) }
    ensures moves { IfOk result (λ found. 1 ≤ found.1) }
{
    match read_quoted(alloc, bytes)? {
        Quoted::Closed { text, len } => Ok((Lexeme::Text(text), len + 1)),
        Quoted::Faulty { len } => {
            let fault = at + 1 + len as u32;
            Ok((Lexeme::BadText { fault }, len + 1))
        }
    }
}

fn less(next: u8) -> (Sign, usize)
    ensures { result ≡ spec.less next }
{
    match next {
        b'=' => (Sign::LessEqual, 2),
        b'>' => (Sign::NotEqual, 2),
        _ => (Sign::Less, 1),
    }
}

fn single(first: u8) -> Lexeme
    ensures { result ≡ spec.single first }
{
    match first {
        b'(' => Lexeme::Sign(Sign::Open),
        b')' => Lexeme::Sign(Sign::Close),
        b',' => Lexeme::Sign(Sign::Comma),
        b';' => Lexeme::Sign(Sign::Semicolon),
        b'*' => Lexeme::Sign(Sign::Star),
        b'+' => Lexeme::Sign(Sign::Plus),
        b'=' => Lexeme::Sign(Sign::Equal),
        _ => Lexeme::Bad,
    }
}

fn sign_lexeme(first: u8, next: u8) -> (Lexeme, usize)
    ensures value { result ≡ spec.sign_lexeme first next }
    ensures moves { 1 ≤ result.1 }
    ensures within { (result.1 ≤ 2) × (next ≡ 0 → result.1 ≡ 1) }
{
    match first {
        b'<' => {
            let (sign, len) = less(next);
            (Lexeme::Sign(sign), len)
        }
        b'>' if next == b'=' => (Lexeme::Sign(Sign::GreaterEqual), 2),
        b'>' => (Lexeme::Sign(Sign::Greater), 1),
        b'!' if next == b'=' => (Lexeme::Sign(Sign::NotEqual), 2),
        _ => (single(first), 1),
    }
}

// The second byte, or 0.
fn second(bytes: &[u8]) -> u8
    ensures value { result ≡ slice_index bytes.now 1 }
    ensures within { result ≢ 0 → 1 < length bytes.now }
{
    if bytes.len() > 1 { bytes[1] } else { 0 }
}

/// The lexeme at the front of the bytes, which stand at `at` in a statement, and how many bytes it takes.
///
/// `AllocError` for want of memory.
#[tactic(auto, unfolding(crate::specs::Lexemes::lexeme_at))]
pub fn lexeme_at(alloc: Global, at: u32, bytes: &[u8]) -> Result<(Lexeme, usize), AllocError>
    requires some { 0 < length bytes.now }
    requires room { at + length bytes.now ≤ 65536 }
    ensures value { IfOk result (λ found. found ≡ spec.lexeme_at at bytes.now) }
    ensures moves { IfOk result (λ found. 1 ≤ found.1) }
    ensures within { IfOk result (λ found. found.1 ≤ length bytes.now) }
{
    let first = bytes[0];
    if is_in(Class::Letter, first) {
        let len = run_len(Class::Word, bytes);
        let lexeme = word_lexeme(alloc, &bytes[..len])?;
        Ok((lexeme, len))
    } else if is_in(Class::Digit, first) {
        let len = run_len(Class::Digit, bytes);
        Ok((number_lexeme(&bytes[..len]), len))
    } else if first == b'\'' {
        text_lexeme(alloc, at, &bytes[1..])
    } else if first == b'-' {
        let is_tight = is_tight(&bytes[1..]);
        Ok((Lexeme::Minus { is_tight }, 1))
    } else {
        Ok(sign_lexeme(first, second(bytes)))
    }
}

impl Lexeme {
    /// Whether no token stands behind it.
    pub fn is_last(&self) -> bool
        ensures { result ≡ spec.is_last self.now }
    {
        match self {
            Lexeme::End | Lexeme::Bad | Lexeme::BadText { .. } => true,
            _ => false,
        }
    }
}
