//! What a crash image keeps of what was not synced.
ghost use Rattle.std.specs.Prelude.{◌≡◌};
ghost use Rattle.disk_model.specs.Choosing.{granted, spent, goes_on};

/// What a crash image keeps of the calls since the last sync of each file.
#[derive(Clone, Copy, Debug, PartialEq, Eq, Drop)]
pub enum Choice {
    /// All of it, as a read gave then.
    Whole,
    /// None of it: what was synced then.
    Synced,
    /// The calls of all files in order, until so many bytes were written in all.
    FirstBytes(u64),
}

impl Choice {
    // How many bytes are done of a write of so many.
    pub(crate) fn granted(self, asked: usize) -> usize
        ensures { result ≡ granted self asked }
    {
        match self {
            Choice::Whole => asked,
            Choice::Synced => 0,
            Choice::FirstBytes(left) => asked.min(left as usize),
        }
    }

    // What is still to be done after a write of so many.
    pub(crate) fn spent(self, asked: usize) -> Choice
        ensures { result ≡ spent self asked }
    {
        match self {
            Choice::FirstBytes(left) => Choice::FirstBytes(left.saturating_sub(asked as u64)),
            Choice::Whole => Choice::Whole,
            Choice::Synced => Choice::Synced,
        }
    }

    // More is to be done.
    pub(crate) fn goes_on(self) -> bool
        ensures { result ≡ goes_on self }
    {
        match self {
            Choice::Whole => true,
            Choice::Synced => false,
            Choice::FirstBytes(left) => left > 0,
        }
    }
}
