//! Who refers to a plugin: a session, or an idle handler.
//!
//! In a slot no holder stands twice (`IsDistinct`, in the invariant of a registry).
ghost use Rattle.std.specs.Prelude.{◌≡◌, ◌↔◌, ◌∷◌, ◌++◌, [], IsTrue, OnOk, OnErr, IfOk};
ghost use Rattle.plugin_registry.specs.Holders.{same_holder, refers, without_holder};

use sql_value::Name;
use std::alloc::{AllocError, Global};
use std::marker::Model;

/// Who refers to a plugin. (This project.)
#[derive(Drop)]
pub enum Holder {
    /// A session, by its number.
    Session(u32),
    /// An idle handler, by its table.
    Idle(Name),
}

impl Holder {
    // Whether the two are one holder.
    pub(crate) fn is_same(&self, other: &Holder) -> bool
        ensures { result ≡ same_holder self.now other.now }
    {
        match (self, other) {
            (Holder::Session(a), Holder::Session(b)) => *a == *b,
            (Holder::Idle(a), Holder::Idle(b)) => a.is_same(b),
            _ => false,
        }
    }

    // The same holder once more. `AllocError` for want of memory.
    pub(crate) fn copy(&self) -> Result<Holder, AllocError>
        ensures { IfOk result (λ it. it ≡ self.now) }
    {
        match self {
            Holder::Session(number) => Ok(Holder::Session(*number)),
            Holder::Idle(table) => Ok(Holder::Idle(table.copy()?)),
        }
    }
}

/// Those who refer to one slot, in the order in which they got it.
#[derive(Drop)]
pub(crate) struct Holders {
    list: Vec<Holder>,
}

impl Model for Holders {
    ghost use Rattle.std.specs.Prelude.{List};
    ghost use Rattle.plugin_registry.specs.declared.holder.Holder.{Holder};

    ghost Value = { List Holder };

    ghost view = { λ h. h.list.items };
}

impl Holders {
    // Nobody. No memory is taken.
    pub(crate) fn new(alloc: Global) -> Holders
        ensures { result ≡ [] }
    {
        Holders {
            list: Vec::new(alloc),
        }
    }

    // Whether nobody refers to the slot.
    pub(crate) fn is_empty(&self) -> bool
        ensures { IsTrue result ↔ (self.now ≡ []) }
    {
        self.list.is_empty()
    }

    // Whether this one refers to it.
    pub(crate) fn has(&self, holder: &Holder) -> bool
        ensures { result ≡ refers holder.now self.now }
    {
        self.list.iter().any(|it| holder.is_same(it))
    }

    // One more refers to it, who did not. `AllocError` for want of memory.
    pub(crate) fn add(&mut self, holder: &Holder) -> Result<(), AllocError>
        ensures ok { OnOk result (self.new ≡ self.old ++ holder.now ∷ []) }
        ensures err { OnErr result (self.new ≡ self.old) }
    {
        let holder = holder.copy()?;
        self.list.push(holder)?;
        Ok(())
    }

    // This one does not refer to it any more.
    pub(crate) fn remove(&mut self, holder: &Holder)
        ensures { self.new ≡ without_holder holder.now self.old }
    {
        self.list.retain(|it| !holder.is_same(it));
    }
}
