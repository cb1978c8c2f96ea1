//! The three values of a condition.
ghost use Rattle.std.specs.Prelude.{◌≡◌};
ghost use Rattle.sql_value.specs.Truth.{truth_and, truth_or, truth_not};

/// What a condition says of a row. (MySQL 5.7 Reference Manual, "Logical Operators", where these are TRUE, FALSE and NULL.)
#[derive(Clone, Copy, Debug, PartialEq, Eq)]
pub enum Truth {
    Yes,
    No,
    /// It hangs on a Null.
    Unknown,
}

impl Truth {
    /// Whether both hold.
    pub fn and(self, other: Truth) -> Truth
        ensures { result ≡ truth_and self other }
    {
        match (self, other) {
            (Truth::No, _) | (_, Truth::No) => Truth::No,
            (Truth::Yes, Truth::Yes) => Truth::Yes,
            _ => Truth::Unknown,
        }
    }

    /// Whether one of the two holds, or both.
    pub fn or(self, other: Truth) -> Truth
        ensures { result ≡ truth_or self other }
    {
        match (self, other) {
            (Truth::Yes, _) | (_, Truth::Yes) => Truth::Yes,
            (Truth::No, Truth::No) => Truth::No,
            _ => Truth::Unknown,
        }
    }

    /// Whether it does not hold.
    pub fn not(self) -> Truth
        ensures { result ≡ truth_not self }
    {
        match self {
            Truth::Yes => Truth::No,
            Truth::No => Truth::Yes,
            Truth::Unknown => Truth::Unknown,
        }
    }
}

#[cfg(test)]
mod tests {
    use super::Truth::{self, No, Unknown, Yes};

    #[test]
    fn conditions_combine_as_in_the_manual(rt: HostRuntime) {
        // a, b, a AND b, a OR b
        let cases: [(Truth, Truth, Truth, Truth); 9] = [
            (Yes, Yes, Yes, Yes),
            (Yes, No, No, Yes),
            (Yes, Unknown, Unknown, Yes),
            (No, Yes, No, Yes),
            (No, No, No, No),
            (No, Unknown, No, Unknown),
            (Unknown, Yes, Unknown, Yes),
            (Unknown, No, No, Unknown),
            (Unknown, Unknown, Unknown, Unknown),
        ];
        for (i, (a, b, both, one)) in cases.iter().enumerate() {
            assert!(rt; a.and(*b) == *both, "AND of row {i}");
            assert!(rt; a.or(*b) == *one, "OR of row {i}");
        }
    }

    #[test]
    fn not_of_unknown_is_unknown(rt: HostRuntime) {
        assert!(rt; Yes.not() == No);
        assert!(rt; No.not() == Yes);
        assert!(rt; Unknown.not() == Unknown);
    }
}
