//! Reading a name or a number at the front of some bytes.
//!
//! Each reader answers None exactly where none stands there.
ghost use Rattle.std.specs.Prelude.{◌≡◌, ◌<◌, ◌^◌, ℕ, IfOk, IfSome, IfNone};
ghost use Rattle.frame_codec.specs.Bytes.{le64};
ghost use Rattle.sql_value.specs.Names.{IsName};
ghost use Rattle.row_format.specs.Spelling.{Takes, counted};
ghost use Rattle.row_format.specs.Absence.{NoName};
ghost use Rattle.redo_journal.specs.Reading.{NoNumber};

use row_format::{Name, name_of};
use std::alloc::{AllocError, Global};

/// How many bytes a number has.
const NUMBER_LEN: usize = 8;

/// The name at the front, and what follows it.
pub(crate) fn front_name(alloc: Global, bytes: &[u8]) -> Result<Option<(Name, &[u8])>, AllocError>
    ensures found { IfOk result (λ o. IfSome o (λ f. IsName f.0
        × Takes bytes.now (counted f.0) f.1.now)) }
    ensures none { IfOk result (λ o. IfNone o (NoName bytes.now)) }
{
    match name_of(alloc, bytes)? {
        None => Ok(None),
        Some((name, len)) => {
            let (_, rest) = bytes.split_at(len);
            Ok(Some((name, rest)))
        }
    }
}

/// The number that these bytes are.
pub(crate) fn number_of(bytes: &[u8]) -> Option<u64>
    ensures some { IfSome result (λ n. (bytes.now ≡ le64 n) × (n < 2 ^ 64)) }
    ensures none { IfNone result ((n : ℕ) → bytes.now ≡ le64 n → ⊥) }
{
    let Some(all) = bytes.first_chunk::<NUMBER_LEN>() else {
        return None;
    };
    if bytes.len() != NUMBER_LEN {
        return None;
    }
    Some(u64::from_le_bytes(*all))
}

/// The number at the front, and what follows it.
pub(crate) fn front_number(bytes: &[u8]) -> Option<(u64, &[u8])>
    ensures some { IfSome result (λ f. Takes bytes.now (le64 f.0) f.1.now × (f.0 < 2 ^ 64)) }
    ensures none { IfNone result (NoNumber bytes.now) }
{
    if bytes.len() < NUMBER_LEN {
        return None;
    }
    let (front, rest) = bytes.split_at(NUMBER_LEN);
    match number_of(front) {
        None => None,
        Some(number) => Some((number, rest)),
    }
}
