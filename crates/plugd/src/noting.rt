//! The changes of a transaction are noted in the dictionary of the log.
ghost use Rattle.std.specs.Prelude.{◌≡◌, ◌++◌, List, OnOk};
ghost use Rattle.row_format.specs.declared.change.Change.{Change};
ghost use Rattle.dictionary.specs.Dictionary.{Tells};
ghost use Rattle.plugd.specs.Noting.{dictionary_after};

use dictionary::Dictionary;
use row_format::Change;
use std::alloc::AllocError;

/// Notes these changes, in order.
///
/// `AllocError` for want of memory. Then some of them may be noted, the first of all.
pub(crate) fn note(dictionary: &mut Dictionary, changes: &[Change]) -> Result<(), AllocError>
    ensures noted { OnOk result (dictionary.new ≡ dictionary_after changes.now dictionary.old) }
    ensures tells { (before : List Change) → Tells before dictionary.old
        → OnOk result (Tells (before ++ changes.now) dictionary.new) }
{
    for change in changes {
        dictionary.apply(change)?;
    }
    Ok(())
}
