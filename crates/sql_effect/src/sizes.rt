//! Limits of bytes: of what an engine holds, and of a transaction in the log.
ghost use Rattle.std.specs.Prelude.{◌≡◌, ◌<◌, ◌^◌, length};
ghost use Rattle.std.specs.Result.{result_err};
ghost use Rattle.row_format.specs.Changes.{AreFitChanges};
ghost use Rattle.sql_effect.specs.Sizes.{room_refusal, bytes_with, size_refusal};

use binlog_events::transaction_len;
use row_format::Changes;
use sql_value::Refusal;

// The most live bytes of an engine.
const LIVE_LIMIT: u128 = 16_777_216;

// The most bytes of a transaction in the log. Each change has more than one.
const TRANSACTION_LIMIT: u64 = 1_048_576;

/// Refuses more live bytes than an engine may have.
pub(crate) fn check_room(live: u128) -> Result<(), Refusal>
    ensures { result_err result ≡ room_refusal live }
{
    if live <= LIVE_LIMIT {
        Ok(())
    } else {
        Err(Refusal::TableFull)
    }
}

// The bytes of a transaction with these changes, if it had so many before.
fn bytes_with(before: u64, changes: &Changes) -> u128
    requires fit { AreFitChanges changes.now }
    requires few { length changes.now < 2 ^ 31 }
    ensures value { result ≡ bytes_with before changes.now }
{
    let logged = u128::from(transaction_len(changes));
    if before == 0 {
        logged
    } else {
        u128::from(before) + logged - 55
    }
}

/// Refuses changes that make the transaction too large, which had so many bytes before.
pub(crate) fn check_size(before: u64, changes: &Changes) -> Result<(), Refusal>
    requires { AreFitChanges changes.now }
    ensures { result_err result ≡ size_refusal before changes.now }
{
    if changes.as_slice().len() as u64 > TRANSACTION_LIMIT {
        return Err(Refusal::TransactionTooLarge);
    }
    if bytes_with(before, changes) <= u128::from(TRANSACTION_LIMIT) {
        Ok(())
    } else {
        Err(Refusal::TransactionTooLarge)
    }
}
