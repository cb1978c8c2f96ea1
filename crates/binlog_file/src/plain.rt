//! The logged transactions of some bytes, in the simplest way: a plain program beside the definition, for tests.
ghost use Rattle.std.specs.Prelude.{◌≡◌, IfOk, IfSome, IfNone};
ghost use Rattle.framed_file.specs.Framed.{IsPrefix};
ghost use Rattle.binlog_file.specs.Logged.{log_header, Headed, IsLogged, IsNoLog};

use crate::scan::{HEADER, HEADER_CRC, HEADER_LEN};
use binlog_events::transaction_at;
use row_format::Transaction;
use std::alloc::{AllocError, Global};

// The transactions behind a header.
fn listed(alloc: Global, bytes: &[u8]) -> Result<Vec<Transaction>, AllocError>
    requires { IsPrefix log_header bytes.now }
    ensures { IfOk result (λ list. Headed bytes.now list.items) }
{
    let mut list = Vec::new(alloc);
    let mut at = HEADER_LEN as u32;
    let mut crc = HEADER_CRC;
    let mut rest = &bytes[HEADER_LEN..];
    while let Some(found) = transaction_at(alloc, rest, at, crc)? {
        list.push(found.txn)?;
        at += found.len as u32;
        crc = found.crc;
        rest = &rest[found.len..];
    }
    Ok(list)
}

/// The transactions that are logged in a file with these bytes; None where they have more than 32 and no valid header. An opening
/// reads the same from the device, piece by piece.
///
/// `AllocError` for want of memory.
pub fn logged_in(alloc: Global, bytes: &[u8]) -> Result<Option<Vec<Transaction>>, AllocError>
    ensures list { IfOk result (λ o. IfSome o (λ list. IsLogged bytes.now list.items)) }
    ensures none { IfOk result (λ o. IfNone o (IsNoLog bytes.now)) }
{
    if bytes.starts_with(&HEADER) {
        return Ok(Some(listed(alloc, bytes)?));
    }
    if bytes.len() > HEADER_LEN {
        return Ok(None);
    }
    Ok(Some(Vec::new(alloc)))
}
