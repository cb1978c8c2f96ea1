//! What a statement comes to.
use log_tables::Rows;
use row_format::Changes;

/// What a statement that is not refused comes to. (This project.)
#[derive(Drop)]
pub enum Outcome {
    /// The rows of a SELECT, in order.
    Rows { rows: Rows },
    /// So many rows were changed, by these changes, which the engine has.
    Changed { count: u64, changes: Changes },
    /// These changes are the server's, and no engine has any of them.
    Noted { changes: Changes },
}
