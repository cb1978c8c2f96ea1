//! Where a scan of a table stands.
ghost use Rattle.std.specs.Prelude.{◌≡◌};
ghost use Rattle.std.specs.declared.option.Option.TheVariants.{None};

use row_format::Name;

/// Where a scan of a table stands: before the row at a position among its live rows, from 0. `rnd_init` begins it, and `rnd_next` moves
/// it on. A change of the table leaves the position as it is, and so moves the rows under it.
#[derive(Drop)]
pub struct Cursor {
    pub table: Option<Name>,
    pub position: u32,
}

impl Cursor {
    /// A cursor on no table. No memory is taken.
    pub fn new() -> Cursor
        ensures table { result.table ≡ None }
        ensures position { result.position ≡ 0 }
    {
        Cursor {
            table: None,
            position: 0,
        }
    }
}
