//! Laws of lines: functions that do nothing, each with a law for its contract.
ghost use Rattle.std.specs.Prelude.{◌≡◌, ℕ, List, take};
ghost use Rattle.schedule_text.specs.Lines.{Asked, IsLine};
ghost use Rattle.schedule_text.specs.Front.{FrontTells};

use crate::lines::MAX_LINE;

/// A line has one meaning at most.
pub fn one_meaning()
    ensures { (line : List ℕ) (one other : Asked) → IsLine line one → IsLine line other → one ≡ other }
{}

/// The first `MAX_LINE` bytes of a line decide what it asks for: they are the line, or both ask for nothing, or both are bad, or both
/// issue a text of more than 65,536 bytes to one session.
pub fn front_decides()
    ensures { (line : List ℕ) → FrontTells (take MAX_LINE line) line }
{}
