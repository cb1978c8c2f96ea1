//! What the layers above play lines on: a coordinator.
ghost use Rattle.std.specs.Prelude.{◌≡◌, ◌++◌, ◌∷◌, [], ℕ, List, Option, option_to_list, IfOk, OnErr};
ghost use Rattle.disk_model.specs.Disk.{Disk};
ghost use Rattle.plugd.specs.declared.ack.Ack.{Ack};
ghost use Rattle.plugd.specs.declared.reply.HaltCause.{HaltCause as Cause};
ghost use Rattle.plugd.specs.declared.reply.Reply.{Reply};
ghost use Rattle.volume_rules.specs.Readers.{Reader};
ghost use Rattle.plugd.specs.Coordinator.{GoesOn, MayRest, SameReader};
ghost use Rattle.plugd.specs.Lines.{front_of};
ghost use Rattle.plugd.specs.Serve.{Base};

use crate::reply::{HaltCause, Reply};
use std::alloc::AllocError;

/// Who plays the lines of a run. The layers above give it lines, write its replies, and never look within.
pub(crate) trait Coordinator: Drop {
    // The disk that it works on.
    ghost volume_of: { Self → Disk };
    // Its engine, as a reader of its files.
    ghost reads: { Self → Reader };
    // What it has acknowledged.
    ghost acks_of: { Self → List Ack };
    // Why it is halted, if it is.
    ghost is_halted: { Self → Option Cause };
    // It has played these lines since that beginning, with these replies, and goes on.
    ghost serves: { Self → Base → List (List ℕ) → List Reply → Type 0 };
    // It has played these lines since that beginning, with these replies, and is to be ended.
    ghost rests: { Self → Base → List (List ℕ) → List Reply → Type 0 };

    /// Plays the line that begins with these bytes, its first `MAX_LINE`, and answers it: `settle` has no reply. After want of memory
    /// it is as if the line was not there, and what is left is to be ended.
    fn answer(&mut self, front: &[u8]) -> Result<Option<Reply>, AllocError>
        requires serving { GoesOn (serves self.old) }
        ensures same { SameReader (reads self.old) (reads self.new) }
        ensures ok { (base : Base) (lines : List (List ℕ)) (replies : List Reply) (line : List ℕ)
            → front.now ≡ front_of line → serves self.old base lines replies
            → IfOk result (λ reply. serves self.new base (lines ++ line ∷ [])
            (replies ++ option_to_list reply)) }
        ensures err { (base : Base) (lines : List (List ℕ)) (replies : List Reply)
            → serves self.old base lines replies
            → OnErr result (rests self.new base lines replies) };

    /// Why it is halted, if it is.
    fn halted(&self) -> Option<HaltCause>
        ensures { result ≡ is_halted self.now };

    // What goes on can be ended.
    ghost may_rest: { MayRest serves rests };
}
