//! What a line of the input asks for. It is read where it stands: no memory is taken, and the text of an issue is lent.
ghost use Rattle.std.specs.Prelude.{◌≡◌, ◌≢◌, ◌↔◌, ◌<◌, ◌++◌, ◌∷◌, ◌==◌, ℕ, List, IsTrue, MatchOption, position, slice_index};
ghost use Rattle.std.specs.Fmt.{decimal};
ghost use Rattle.schedule_text.specs.Lines.{without_return, line_asked, IsLine, IsBad, IsUpTo, IsSession, IsSteps, Asks};
ghost use Rattle.schedule_text.specs.Inside.{HasNoSpace, IsNoWord};

/// So many first bytes of a line decide what it asks for: the four of `@64 `, one more than the 65,536 of the longest statement, and
/// one for a carriage return, which is no end of the line there.
pub const MAX_LINE: usize = 65_542;

// The greatest number of a session.
const MAX_SESSION: u32 = 64;

// The greatest count of steps.
const MAX_COUNT: u32 = 9_999;

/// What a line asks for.
#[derive(Clone, Copy, Debug, Drop)]
pub enum Line<'a> {
    /// Nothing: the line is empty, or begins with `#`.
    Nothing,
    /// `@S text`: this text, which may be empty, is issued to session S.
    Issue { session: u32, text: &'a [u8] },
    /// `step S`, which is one step, or `step S N`: so many steps of session S.
    Step { session: u32, count: u32 },
    /// `run S`: session S runs.
    Run { session: u32 },
    /// `settle`.
    Settle,
}

/// What the line asks for; None where it is a bad line. It is given without its line feed, and one carriage return at its end counts
/// for nothing.
pub fn line_of(bytes: &[u8]) -> Option<Line<'_>>
    ensures { MatchOption result (IsBad bytes.now) (λ line. IsLine bytes.now (line_asked line)) }
{
    let line = without_return(bytes);
    let Some((first, rest)) = line.split_first() else {
        return Some(Line::Nothing);
    };
    if *first == b'#' {
        return Some(Line::Nothing);
    }
    if *first == b'@' {
        let (session, text) = issue_of(rest)?;
        return Some(Line::Issue { session, text });
    }
    word_of(line)
}

fn without_return(line: &[u8]) -> &[u8]
    ensures { result.now ≡ without_return line.now }
{
    line.strip_suffix(b"\r").unwrap_or(line)
}

// A line that begins with a word.
fn word_of(line: &[u8]) -> Option<Line<'_>>
    ensures { MatchOption result (IsNoWord line.now) (λ l. Asks line.now (line_asked l)) }
{
    if line == b"settle".as_slice() {
        return Some(Line::Settle);
    }
    match line.strip_prefix(b"run ") {
        Some(rest) => {
            let session = number_of(rest, MAX_SESSION)?;
            Some(Line::Run { session })
        }
        None => {
            let rest = line.strip_prefix(b"step ")?;
            let (session, count) = steps_of(rest)?;
            Some(Line::Step { session, count })
        }
    }
}

// The session and the text of what stands behind an `@`.
fn issue_of(rest: &[u8]) -> Option<(u32, &[u8])>
    ensures { MatchOption result
        ((session : ℕ) (text : List ℕ) → IsSession session
        → rest.now ≢ decimal session ++ 32 ∷ text)
        (λ p. IsSession p.0 × (rest.now ≡ decimal p.0 ++ 32 ∷ p.1.now)) }
{
    let (digits, text) = parts_of(rest)?;
    let session = number_of(digits, MAX_SESSION)?;
    Some((session, text))
}

// The session and the count of what stands behind `step` and its space.
fn steps_of(rest: &[u8]) -> Option<(u32, u32)>
    ensures { MatchOption result
        ((session count : ℕ) → IsSession session → IsSteps rest.now session count → ⊥)
        (λ p. IsSession p.0 × IsSteps rest.now p.0 p.1) }
{
    match parts_of(rest) {
        None => {
            let session = number_of(rest, MAX_SESSION)?;
            Some((session, 1))
        }
        Some((digits, count)) => {
            let session = number_of(digits, MAX_SESSION)?;
            let count = number_of(count, MAX_COUNT)?;
            Some((session, count))
        }
    }
}

// What stands before the first space, and what stands behind it.
fn parts_of(bytes: &[u8]) -> Option<(&[u8], &[u8])>
    ensures { MatchOption result
        (HasNoSpace bytes.now)
        (λ p. HasNoSpace p.0.now × (bytes.now ≡ p.0.now ++ 32 ∷ p.1.now)) }
{
    let space = space_of(bytes)?;
    Some((&bytes[..space], &bytes[space + 1..]))
}

fn space_of(bytes: &[u8]) -> Option<usize>
    ensures { result ≡ position (λ b. b == 32) bytes.now }
{
    bytes.iter().position(|b| *b == b' ')
}

// The number from 1 to `most` that is written so.
fn number_of(digits: &[u8], most: u32) -> Option<u32>
    ensures { MatchOption result
        ((number : ℕ) → IsUpTo most number → digits.now ≢ decimal number)
        (λ number. IsUpTo most number × (digits.now ≡ decimal number)) }
{
    let number = printed_number(digits)?;
    if number > most {
        return None;
    }
    Some(number)
}

// The number from 1 on that is written so.
fn printed_number(digits: &[u8]) -> Option<u32>
    ensures { MatchOption result
        ((number : ℕ) → IsUpTo 4294967295 number → digits.now ≢ decimal number)
        (λ number. IsUpTo 4294967295 number × (digits.now ≡ decimal number)) }
{
    if !starts_above_zero(digits) {
        return None;
    }
    str::from_utf8(digits).ok()?.parse::<u32>().ok()
}

// Whether the first byte is a digit above zero, or stands behind the digits: so there is no sign and no needless zero.
fn starts_above_zero(digits: &[u8]) -> bool
    ensures { IsTrue result ↔ (48 < slice_index digits.now 0) }
{
    match digits {
        [first, ..] => *first > b'0',
        [] => false,
    }
}
