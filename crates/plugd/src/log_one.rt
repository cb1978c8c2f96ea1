//! One transaction into the log: one write and one sync.
ghost use Rattle.std.specs.Prelude.{◌≡◌, ◌+◌, ◌++◌, ◌∷◌, [], List, length, OnOk, IsErr, IsTrue};
ghost use Rattle.disk_model.specs.Disk.{Disk, now, Keeps, Only, HasCause, MakesCalls};
ghost use Rattle.row_format.specs.declared.change.Transaction.{Transaction};
ghost use Rattle.binlog_file.specs.Logged.{Holds};
ghost use Rattle.binlog_file.specs.Binlog.{flushed_of, durable_of, end_in, IsLog, IsOpen, Carries};
ghost use Rattle.plugd.specs.LogOne.{IsDurable, EachOne};

use binlog_file::Binlog;
use disk_model::{Failed, Storage};

/// Appends one transaction and makes it durable. `Failed` where the device failed; then the log is only dropped.
pub(crate) fn log_one(
    log: &mut Binlog,
    volume: &mut dyn Storage,
    bytes: &[u8],
) -> Result<(), Failed>
    requires whole { (t : Transaction) × Carries log.old bytes.now (t ∷ []) }
    requires log { IsOpen log.old (disk volume.old) }

    ensures ok { EachOne log.old bytes.now (disk volume.old) (λ list t.
        OnOk result (IsDurable log.new (list ++ t ∷ []) (disk volume.new))) }
    ensures counts { OnOk result ((flushed_of log.new ≡ flushed_of log.old + 1)
        × (end_in log.new ≡ end_in log.old + length bytes.now)) }

    // A crash leaves the transactions before, or this one too.
    ensures any_moment { EachOne log.old bytes.now (disk volume.old) (λ list t.
        Keeps (disk volume.old) (disk volume.new) (Only 0 (now (disk volume.old))
        (Holds list (list ++ t ∷ [])))) }

    ensures device { HasCause IsErr result (disk volume.old) (disk volume.new) }
    ensures device_calls { MakesCalls 2 result (disk volume.old) (disk volume.new) }
{
    log.append(volume, bytes, 1)?;
    // The acknowledgement has to come after this sync: a crash before it may leave the transaction out.
    log.sync(volume)
}
