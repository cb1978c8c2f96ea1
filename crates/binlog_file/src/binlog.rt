//! The log as it is written: `append` writes whole transactions at the end, `sync` makes them durable.
//!
//! Invariant: of `flushed` transactions the first `durable` were there at the last sync, and the file has `len` bytes, the last frame
//! with the checksum `crc` (`IsLog`). A transaction is durable only by a sync behind its write.
ghost use Rattle.std.specs.Prelude.{◌≡◌, ◌≤◌, ◌<◌, ◌+◌, ◌-◌, ◌*◌, ◌++◌, ◌∷◌, [], ℕ, List, length, take, OnOk, OnErr, IsTrue, IsErr};
ghost use Rattle.disk_model.specs.Disk.{Disk, now, contents, Called, Keeps, Only, HasCause, MakesCalls};
ghost use Rattle.disk_model.specs.File.{Writes, IsSettled};
ghost use Rattle.frame_codec.specs.Frame.{Event};
ghost use Rattle.binlog_file.specs.Logged.{Holds};
ghost use Rattle.binlog_file.specs.Tail.{tail_checksum};
ghost use Rattle.row_format.specs.declared.change.Transaction.{Transaction};

use disk_model::{Failed, Storage};

/// The log file as far as it is written: how many transactions it has and how many are durable, and where the next one goes.
#[derive(Drop)]
pub struct Binlog {
    pub(crate) flushed: u64,
    pub(crate) durable: u64,
    pub(crate) len: u32,
    pub(crate) crc: u32,
    ghost in_order: { durable ≤ flushed },
    ghost counted: { flushed ≤ len },
    ghost fits: { len ≤ 2147483647 },
}

// The checksum of the last frame of these bytes, or `crc` where there is none.
fn checksum_at_end(bytes: &[u8], crc: u32) -> u32
    ensures { result ≡ tail_checksum crc bytes.now }
{
    match bytes {
        [.., a, b, c, d] => u32::from_le_bytes([*a, *b, *c, *d]),
        _ => crc,
    }
}

// One write at a place in the log file.
pub(crate) fn write_at(volume: &mut dyn Storage, at: u64, bytes: &[u8]) -> Result<(), Failed>
    requires { IsTrue (disk volume.old).told → at ≤ length (contents (disk volume.old) 0) }
    ensures { Called 0 (Writes at bytes.now result) result (disk volume.old) (disk volume.new) }
{
    volume.write(0, at, bytes)
}

impl Binlog {
    ghost use Rattle.binlog_file.specs.Binlog.{flushed_of, durable_of, end_in, checksum_in, IsLog, IsOpen, Carries, EachLog, EachAppend, GoesOn, IsSame};

    /// Appends `count` whole transactions, by one write at the end. They are durable only after a sync.
    ///
    /// `Failed` where the device failed; then the log is only dropped, or opened again from the volume.
    pub fn append(
        &mut self,
        volume: &mut dyn Storage,
        bytes: &[u8],
        count: u64,
    ) -> Result<(), Failed>
        requires whole { (more : List Transaction) × (count ≡ length more)
            × Carries self.old bytes.now more }
        requires log { IsOpen self.old (disk volume.old) }

        ensures ok { EachAppend self.old bytes.now count (disk volume.old) (λ list more.
            OnOk result (IsLog self.new (list ++ more) (now (disk volume.new) 0))) }
        ensures counts { OnOk result (GoesOn self.old self.new count (length bytes.now)) }
        ensures err { OnErr result (IsSame self.old self.new) }

        // A crash leaves every durable transaction, and of the others and of these a first part.
        ensures any_moment { EachAppend self.old bytes.now count (disk volume.old) (λ list more.
            Keeps (disk volume.old) (disk volume.new) (Only 0 (now (disk volume.old))
            (Holds (take (durable_of self.old) list) (list ++ more)))) }

        ensures device { HasCause IsErr result (disk volume.old) (disk volume.new) }
        ensures device_calls { MakesCalls 1 result (disk volume.old) (disk volume.new) }
    {
        write_at(volume, u64::from(self.len), bytes)?;
        *self = Binlog {
            flushed: self.flushed + count,
            durable: self.durable,
            len: self.len + bytes.len() as u32,
            crc: checksum_at_end(bytes, self.crc),
        };
        Ok(())
    }

    /// Makes all that was appended durable, by one sync.
    ///
    /// `Failed` where the device failed; then the log is only dropped, or opened again from the volume.
    pub fn sync(&mut self, volume: &mut dyn Storage) -> Result<(), Failed>
        ensures ok { EachLog self.old (disk volume.old) (λ list.
            OnOk result (IsLog self.new list (now (disk volume.new) 0)
            × IsSettled (now (disk volume.new) 0))) }
        ensures durable { OnOk result (durable_of self.new ≡ flushed_of self.old) }
        ensures counts { (flushed_of self.new ≡ flushed_of self.old)
            × (end_in self.new ≡ end_in self.old) × (checksum_in self.new ≡ checksum_in self.old) }
        ensures err { OnErr result (IsSame self.old self.new) }

        // A crash leaves every durable transaction, and of the others a first part.
        ensures any_moment { EachLog self.old (disk volume.old) (λ list.
            Keeps (disk volume.old) (disk volume.new) (Only 0 (now (disk volume.old))
            (Holds (take (durable_of self.old) list) list))) }

        ensures device { HasCause IsErr result (disk volume.old) (disk volume.new) }
        ensures device_calls { MakesCalls 1 result (disk volume.old) (disk volume.new) }
    {
        volume.sync(0)?;
        self.durable = self.flushed;
        Ok(())
    }

    /// How many transactions were written.
    pub fn flushed(&self) -> u64
        ensures { result ≡ flushed_of self.now }
    {
        self.flushed
    }

    /// How many transactions are durable: they were written before the last sync that answered Ok.
    pub fn durable(&self) -> u64
        ensures value { result ≡ durable_of self.now }
        ensures in_order { result ≤ flushed_of self.now }
    {
        self.durable
    }

    /// How many bytes the file has: the position at which the next transaction begins.
    pub fn len(&self) -> u32
        ensures value { result ≡ end_in self.now }
        ensures fits { result ≤ 2147483647 }
    {
        self.len
    }

    /// The checksum to which the next transaction is chained.
    pub fn last_crc(&self) -> u32
        ensures { result ≡ checksum_in self.now }
    {
        self.crc
    }

    /// How many bytes there is room for up to a limit: the limit less the length, or 0.
    pub fn room(&self, limit: u32) -> u32
        ensures { result ≡ limit - end_in self.now }
    {
        limit.saturating_sub(self.len)
    }
}
