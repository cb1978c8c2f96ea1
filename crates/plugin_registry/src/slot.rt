//! A slot: one plugin, from its install to its end.
//!
//! ```text
//! Live --accept_uninstall--> Dying --reap, once nobody refers to it--> Gone
//! ```
ghost use Rattle.std.specs.Prelude.{◌≡◌, ◌≢◌, ◌↔◌, ◌⊎◌, [], IsTrue, IsOk, OnOk, OnErr, true, false};
ghost use Rattle.plugin_registry.specs.Holders.{refers};
ghost use Rattle.plugin_registry.specs.Registry.{is_of, is_named};
ghost use Rattle.plugin_registry.specs.Calls.{got_by};

use crate::holder::Holders;
use crate::{GetFault, Holder};
use sql_value::Name;

/// How far a plugin has come. (This project.)
#[derive(Clone, Copy, Debug, PartialEq, Eq)]
pub enum Phase {
    /// Installed: whoever asks gets it.
    Live,
    /// Its uninstall was accepted: who refers to it goes on with it, and nobody else gets it.
    Dying,
    /// It was reaped: nobody refers to it, and its plugin may be ended. Its slot is not used again.
    Gone,
}

/// One plugin.
#[derive(Drop)]
pub(crate) struct Slot {
    pub(crate) name: Name,
    pub(crate) phase: Phase,
    pub(crate) holders: Holders,
}

impl Slot {
    // Whether it has this name.
    pub(crate) fn is_named(&self, name: &Name) -> bool
        ensures { result ≡ is_named name.now self.now }
    {
        self.name.is_same(name)
    }

    // Whether it is the live or dying one of this name.
    pub(crate) fn is_of(&self, name: &Name) -> bool
        ensures { result ≡ is_of name.now self.now }
    {
        match self.phase {
            Phase::Gone => false,
            Phase::Live | Phase::Dying => self.is_named(name),
        }
    }

    // Whether it is dying.
    pub(crate) fn is_dying(&self) -> bool
        ensures { IsTrue result ↔ (self.now.phase ≡ Phase.Dying) }
    {
        self.phase == Phase::Dying
    }

    // Whether it is dying, and nobody refers to it.
    pub(crate) fn may_be_reaped(&self) -> bool
        ensures { IsTrue result ↔ ((self.now.phase ≡ Phase.Dying) × (self.now.holders ≡ [])) }
    {
        self.is_dying() && self.holders.is_empty()
    }

    // The holder gets it, where it is live; who had it before has it still.
    pub(crate) fn get(&mut self, holder: &Holder) -> Result<(), GetFault>
        ensures ok { OnOk result (self.new ≡ got_by holder.now self.old) }
        ensures allowed { OnOk result ((self.old.phase ≡ Phase.Live)
            ⊎ (refers holder.now self.old.holders ≡ true)) }
        ensures held { IsTrue (refers holder.now self.old.holders) → IsOk result }
        ensures unknown_engine { (result ≡ Err GetFault.UnknownEngine)
            ↔ ((self.old.phase ≢ Phase.Live) × (refers holder.now self.old.holders ≡ false)) }
        ensures err { OnErr result (self.new ≡ self.old) }
    {
        if self.holders.has(holder) {
            return Ok(());
        }
        match self.phase {
            Phase::Live => {
                self.holders.add(holder)?;
                Ok(())
            }
            Phase::Dying | Phase::Gone => Err(GetFault::UnknownEngine),
        }
    }
}
