//! Crash images of a storage in memory: the calls up to a moment are gone through once more, and done as far as a choice goes.
ghost use Rattle.std.specs.Prelude.{◌≡◌, ◌≤◌, ◌<◌, ◌||◌, ℕ, [], true, false, if◌then◌else◌, OnOk, IfOk};
ghost use Rattle.disk_model.specs.File.{IsImage, IsSettled};
ghost use Rattle.disk_model.specs.Disk.{now, contents};
ghost use Rattle.disk_model.specs.Held.{held, bytes_in};
ghost use Rattle.disk_model.specs.Past.{until, call_fits, all_fit};
ghost use Rattle.disk_model.specs.Memory.{memory_disk};
ghost use Rattle.disk_model.specs.Fresh.{Begins};
ghost use Rattle.disk_model.specs.Told.{AllSettled, HasImages, HasBytes, HasSynced, HasChosen, asked_until};
ghost use Rattle.disk_model.specs.Choosing.{goes_on, is_synced, part_call, choice_next, after_next, image_of};

use crate::files::{cut, put};
use crate::fresh::{copied, with_files};
use crate::past::{Call, FileBytes, Kind};
use crate::{Choice, MemoryStorage};
use std::alloc::{AllocError, Global};

// The calls up to a moment.
fn calls_until(past: &[Call], moment: u64) -> &[Call]
    ensures { result.now ≡ until moment past.now }
{
    for (place, call) in past.iter().enumerate() {
        if call.number > moment {
            return &past[..place];
        }
    }
    past
}

// A sync of the file stands among the calls.
fn is_synced_by(calls: &[Call], file: u32) -> bool
    ensures { result ≡ is_synced file calls.now }
{
    for call in calls {
        if matches!(call.kind, Kind::Sync) && call.file == file {
            return true;
        }
    }
    false
}

// Does a call as far as the choice goes.
fn replay(
    alloc: Global,
    files: &mut Vec<FileBytes>,
    call: &Call,
    choice: Choice,
) -> Result<(), AllocError>
    requires { goes_on choice ≡ true → call_fits call.now (held files.old.items) ≡ true }
    ensures { OnOk result
        (held files.new.items ≡ part_call choice call.now.file call.now.kind (held files.old.items)) }
{
    if !choice.goes_on() {
        return Ok(());
    }
    match &call.kind {
        Kind::Write(at, bytes) => {
            let done = choice.granted(bytes.len());
            put(alloc, files, call.file, *at as usize, &bytes[..done])
        }
        Kind::Cut(len) => {
            cut(files, call.file, *len as usize);
            Ok(())
        }
        Kind::Sync => Ok(()),
    }
}

// Does a call whole where its file is synced by a later one, and else as far as the choice goes. The answer is what is still to be done.
fn replay_next(
    alloc: Global,
    files: &mut Vec<FileBytes>,
    call: &Call,
    later: &[Call],
    choice: Choice,
) -> Result<Choice, AllocError>
    requires { (is_synced call.now.file later.now || goes_on choice) ≡ true
        → call_fits call.now (held files.old.items) ≡ true }
    ensures files { OnOk result
        (held files.new.items ≡ after_next choice call.now later.now (held files.old.items)) }
    ensures left { IfOk result (λ left. left ≡ choice_next choice call.now later.now) }
{
    if is_synced_by(later, call.file) {
        replay(alloc, files, call, Choice::Whole)?;
        return Ok(choice);
    }
    replay(alloc, files, call, choice)?;
    Ok(choice.spent(call.kind.asked()))
}

// The files that the choice leaves of these calls.
fn chosen(
    alloc: Global,
    start: &[FileBytes],
    calls: &[Call],
    choice: Choice,
) -> Result<Vec<FileBytes>, AllocError>
    requires { all_fit (held start.now) calls.now ≡ true }
    ensures { IfOk result (λ files. held files.items ≡ image_of choice (held start.now) calls.now) }
{
    let mut files = copied(alloc, start)?;
    let mut left = choice;
    for (place, call) in calls.iter().enumerate() {
        left = replay_next(alloc, &mut files, call, &calls[place + 1..], left)?;
    }
    Ok(files)
}

impl MemoryStorage {
    /// A crash image after the call `moment`, as a storage of its own: its bytes count as synced, and none of its calls will fail.
    pub fn image(
        &self,
        alloc: Global,
        moment: u64,
        choice: Choice,
    ) -> Result<MemoryStorage, AllocError>
        requires { moment ≤ self.now.calls }
        ensures begins { IfOk result (Begins []) }
        ensures settled { IfOk result AllSettled }
        ensures image { IfOk result (HasImages self.now moment) }
        ensures whole { choice ≡ Choice.Whole → IfOk result (HasBytes self.now moment) }
        ensures synced { choice ≡ Choice.Synced → IfOk result (HasSynced self.now moment) }
        ensures no_byte { choice ≡ Choice.FirstBytes 0 → IfOk result (HasSynced self.now moment) }
        ensures each_byte { (n : ℕ) → choice ≡ Choice.FirstBytes n
            → asked_until self.now moment < n → IfOk result (HasBytes self.now moment) }
        ensures exactly { IfOk result (HasChosen self.now moment choice) }
    {
        let calls = calls_until(&self.past, moment);
        let files = chosen(alloc, &self.start, calls, choice)?;
        with_files(alloc, files, Vec::new(alloc))
    }
}
