//! Which of the two files of a journal is read.
ghost use Rattle.std.specs.Prelude.{◌≡◌, None, IfSome, IfNone};
ghost use Rattle.redo_journal.specs.Journals.{has_sequence, greater_side, chosen};
ghost use Rattle.redo_journal.specs.Choosing.{IsFound, IsAsked, sided_with};

use crate::Side;

/// The file that is read, and the sequence of its area.
#[derive(Clone, Copy, Debug, PartialEq, Eq)]
pub(crate) struct Found {
    pub(crate) side: Side,
    pub(crate) sequence: u64,
}

// Whether the area is open with this sequence.
fn has_sequence(sequence: u64, it: Option<u64>) -> bool
    ensures { result ≡ has_sequence sequence it }
{
    match it {
        None => false,
        Some(it) => it == sequence,
    }
}

// The area of the greater sequence, and of two with one sequence the first.
fn greatest(first: Option<u64>, second: Option<u64>) -> Option<Found>
    ensures some { IfSome result (IsFound (greater_side first second) first second) }
    ensures none { IfNone result (greater_side first second ≡ None) }
{
    match (first, second) {
        (None, None) => None,
        (Some(sequence), None) => Some(Found {
            side: Side::First,
            sequence,
        }),
        (None, Some(sequence)) => Some(Found {
            side: Side::Second,
            sequence,
        }),
        (Some(a), Some(b)) => {
            if b <= a {
                Some(Found {
                    side: Side::First,
                    sequence: a,
                })
            } else {
                Some(Found {
                    side: Side::Second,
                    sequence: b,
                })
            }
        }
    }
}

// The first area that is open with this sequence.
fn with_sequence(sequence: u64, first: Option<u64>, second: Option<u64>) -> Option<Found>
    ensures some { IfSome result (IsFound (sided_with sequence first second) first second) }
    ensures asked { IfSome result (λ found. found.sequence ≡ sequence) }
    ensures none { IfNone result (sided_with sequence first second ≡ None) }
{
    if has_sequence(sequence, first) {
        Some(Found {
            side: Side::First,
            sequence,
        })
    } else if has_sequence(sequence, second) {
        Some(Found {
            side: Side::Second,
            sequence,
        })
    } else {
        None
    }
}

/// The area that is read, of two with these open sequences: that of the sequence that is asked for, or of the greatest.
pub(crate) fn chosen(wanted: Option<u64>, first: Option<u64>, second: Option<u64>) -> Option<Found>
    ensures some { IfSome result (IsFound (chosen wanted first second) first second) }
    ensures asked { IfSome result (λ found. IsAsked wanted found.sequence) }
    ensures none { IfNone result (chosen wanted first second ≡ None) }
{
    match wanted {
        None => greatest(first, second),
        Some(sequence) => with_sequence(sequence, first, second),
    }
}
