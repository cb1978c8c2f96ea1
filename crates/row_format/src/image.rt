//! Writing a row's image without its schema: an image needs none to be spelt.
ghost use Rattle.std.specs.Prelude.{◌≡◌, ◌++◌, OnOk, OnErr};
ghost use Rattle.std.specs.List.{flat_map};
ghost use Rattle.row_format.specs.Spelling.{Adds, value_spelling, row_image, IsShort, HasImage};

use crate::put::{add_bits, add_counted, add_number, finish};
use crate::{Row, Value};
use std::alloc::AllocError;

// Adds a value, whatever its column.
fn add_any(value: &Value, out: &mut Vec<u8>) -> Result<(), AllocError>
    requires { IsShort value.now }
    ensures { Adds result out.old.items out.new.items (value_spelling value.now) }
{
    match value {
        Value::Null => Ok(()),
        Value::Int(n) => add_number(*n, out),
        Value::Text(text) => add_counted(text.as_bytes(), out),
    }
}

// Adds values, in order.
fn add_all(values: &[Value], out: &mut Vec<u8>) -> Result<(), AllocError>
    requires { HasImage values.now }
    ensures { Adds result out.old.items out.new.items (flat_map value_spelling values.now) }
{
    for value in values {
        add_any(value, out)?;
    }
    Ok(())
}

// Adds a row image.
fn add_image(values: &[Value], out: &mut Vec<u8>) -> Result<(), AllocError>
    requires { HasImage values.now }
    ensures { Adds result out.old.items out.new.items (row_image values.now) }
{
    add_bits(values, out)?;
    add_all(values, out)
}

/// Appends the image of a row of at most 16 values and texts of at most 255 bytes, as each row that `check_row` takes is. Where there
/// is no memory, `out` holds what it held.
pub fn put_image(row: &Row, out: &mut Vec<u8>) -> Result<(), AllocError>
    requires { HasImage row.now }
    ensures ok { OnOk result (out.new.items ≡ out.old.items ++ row_image row.now) }
    ensures err { OnErr result (out.new.items ≡ out.old.items) }
{
    let len = out.len();
    let done = add_image(row.values(), out);
    finish(done, len, out)
}
