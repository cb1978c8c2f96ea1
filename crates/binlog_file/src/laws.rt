//! Laws of the definitions, which callers may cite: functions that do nothing, each with a law for its contract.
ghost use Rattle.std.specs.Prelude.{◌≡◌, ℕ, List};
ghost use Rattle.binlog_file.specs.Logged.{IsLogged};
ghost use Rattle.row_format.specs.declared.change.Transaction.{Transaction};

/// At most one list of transactions is logged in any bytes.
pub fn one_log()
    ensures { (bytes : List ℕ) (xs ys : List Transaction)
        → IsLogged bytes xs → IsLogged bytes ys → xs ≡ ys }
{}
