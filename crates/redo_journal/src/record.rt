//! Records of a journal as values.

use log_tables::{Definition, Prepared};
use row_format::{Name, Row};

/// What one frame of a journal tells.
#[derive(Drop)]
pub enum Record {
    /// A snapshot has this table.
    SnapTable(Definition),
    /// A snapshot has one row more in this table.
    SnapRow { table: Name, row: Row },
    /// A snapshot was taken behind the commit with this number.
    SnapLast { number: u64 },
    /// A transaction was prepared.
    Prepare(Prepared),
    /// A prepared transaction was committed as this number of the log.
    Commit { xid: u64, number: u64 },
    /// A prepared transaction was rolled back.
    Rollback { xid: u64 },
}
