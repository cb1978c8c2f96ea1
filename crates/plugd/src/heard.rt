//! What a line is to the one session.
//!
//! A line is read without memory, and its first `MAX_LINE` bytes decide.
ghost use Rattle.plugd.specs.Texts.{Tells};

use crate::server::SESSION;
use schedule_text::{Line, line_of};

/// What a line is to the one session.
pub(crate) enum Heard<'a> {
    /// The line `settle`.
    Settle,
    /// The line `@1 TEXT`.
    Text { text: &'a [u8] },
    /// Any other line.
    Unknown,
}

/// What the line is that begins with these bytes.
pub(crate) fn hear(front: &[u8]) -> Heard<'_>
    ensures { Tells front.now result }
{
    let Some(line) = line_of(front) else {
        return Heard::Unknown;
    };
    match line {
        Line::Settle => Heard::Settle,
        Line::Issue { session, text } => {
            if session == SESSION {
                Heard::Text { text }
            } else {
                Heard::Unknown
            }
        }
        Line::Nothing | Line::Step { .. } | Line::Run { .. } => Heard::Unknown,
    }
}
