//! Reading a name, a schema or a row that stands at the front of some bytes: what it is, and how many bytes it has.
ghost use Rattle.std.specs.Prelude.{◌≡◌, IfOk, IfSome, IfNone};
ghost use Rattle.sql_value.specs.Names.{IsName};
ghost use Rattle.row_format.specs.Schemas.{IsSchema};
ghost use Rattle.row_format.specs.Rows.{IsRow};
ghost use Rattle.row_format.specs.Spelling.{Begins, counted, schema_spelling, row_image};
ghost use Rattle.row_format.specs.Absence.{NoName, NoSchema, NoRow};

use crate::fault::Unread;
use crate::take::{take_name, take_row, take_schema};
use crate::{Name, Row, Schema};
use std::alloc::{AllocError, Global};

/// The name at the front of the bytes, and how many bytes its spelling has; None where none stands there.
///
/// `AllocError` for want of memory.
pub fn name_of(alloc: Global, bytes: &[u8]) -> Result<Option<(Name, usize)>, AllocError>
    ensures found { IfOk result (λ o. IfSome o (λ f. IsName f.0
        × Begins bytes.now (counted f.0) f.1)) }
    ensures none { IfOk result (λ o. IfNone o (NoName bytes.now)) }
{
    match take_name(alloc, bytes) {
        Ok((name, rest)) => Ok(Some((name, bytes.len() - rest.len()))),
        Err(Unread::Absent) => Ok(None),
        Err(Unread::Memory) => Err(AllocError),
    }
}

/// The schema at the front of the bytes, and how many bytes its spelling has; None where none stands there.
///
/// `AllocError` for want of memory.
pub fn schema_of(alloc: Global, bytes: &[u8]) -> Result<Option<(Schema, usize)>, AllocError>
    ensures found { IfOk result (λ o. IfSome o (λ f. IsSchema f.0
        × Begins bytes.now (schema_spelling f.0) f.1)) }
    ensures none { IfOk result (λ o. IfNone o (NoSchema bytes.now)) }
{
    match take_schema(alloc, bytes) {
        Ok((schema, rest)) => Ok(Some((schema, bytes.len() - rest.len()))),
        Err(Unread::Absent) => Ok(None),
        Err(Unread::Memory) => Err(AllocError),
    }
}

/// The row of a table with this schema whose image stands at the front of the bytes, and how many bytes that has; None where none
/// stands there.
///
/// `AllocError` for want of memory.
pub fn row_of(
    alloc: Global,
    schema: &Schema,
    bytes: &[u8],
) -> Result<Option<(Row, usize)>, AllocError>
    requires { IsSchema schema.now }
    ensures found { IfOk result (λ o. IfSome o (λ f. IsRow schema.now f.0
        × Begins bytes.now (row_image f.0) f.1)) }
    ensures none { IfOk result (λ o. IfNone o (NoRow schema.now bytes.now)) }
{
    match take_row(alloc, schema, bytes) {
        Ok((row, rest)) => Ok(Some((row, bytes.len() - rest.len()))),
        Err(Unread::Absent) => Ok(None),
        Err(Unread::Memory) => Err(AllocError),
    }
}
