//! The plugins of an opening.
//!
//! Invariant: at most one slot of a name is live or dying, nobody refers to a gone one, and no holder stands twice in one (`IsRegistry`).
ghost use Rattle.std.specs.Prelude.{◌≡◌, ◌≢◌, ◌↔◌, [], Some, None, IsTrue, IsOk, IfOk, OnErr, false, length, if◌then◌else◌};
ghost use Rattle.std.specs.List.{list_any};
ghost use Rattle.plugin_registry.specs.Registry.{is_named, slot_of, phase_of, phase_at, holders_at, has_slot_of, slot_limit};
ghost use Rattle.plugin_registry.specs.Calls.{Installs, Gets, Uninstalls, after_leave, after_reap};

use crate::holder::Holders;
use crate::slot::Slot;
use crate::{GetFault, Holder, InstallFault, Phase, UninstallFault};
use sql_value::Name;
use std::alloc::Global;
use std::marker::Model;

/// How many slots are used in an opening at most. (This project.)
pub const SLOT_LIMIT: usize = 256;

/// The plugins of an opening: for each slot that was used its name, its phase, and who refers to it. A slot's number is its place, from 0.
/// (MySQL 5.7 Reference Manual, "INSTALL PLUGIN Statement" and "UNINSTALL PLUGIN Statement"; slots and phases are this project's own.)
#[derive(Drop)]
pub struct Registry {
    alloc: Global,
    pub(crate) slots: Vec<Slot>,
}

impl Model for Registry {
    ghost use Rattle.std.specs.Prelude.{List};
    ghost use Rattle.plugin_registry.specs.Registry.{Slot, IsRegistry};

    ghost Value = { List Slot };

    ghost view = { λ r. r.slots.items };

    ghost invariant = { λ r. IsRegistry r.slots.items };
}

// The place of the live or dying slot of this name.
fn place_of(slots: &[Slot], name: &Name) -> Option<usize>
    ensures { result ≡ slot_of name.now slots.now }
{
    slots.iter().position(|slot| slot.is_of(name))
}

// Whether a slot of this name was used.
fn was_used(slots: &[Slot], name: &Name) -> bool
    ensures { result ≡ list_any (is_named name.now) slots.now }
{
    slots.iter().any(|slot| slot.is_named(name))
}

impl Registry {
    /// A registry of which no slot was used. No memory is taken.
    pub fn new(alloc: Global) -> Registry
        ensures { result ≡ [] }
    {
        Registry {
            alloc,
            slots: Vec::new(alloc),
        }
    }

    /// How many slots were used.
    pub fn slots_used(&self) -> u32
        ensures { result ≡ length self.now }
    {
        self.slots.len() as u32
    }

    /// How far the plugin of this name has come: the phase of its live or dying slot, else Gone where a slot of this name was used; None
    /// exactly where none was.
    pub fn phase(&self, name: &Name) -> Option<Phase>
        ensures { result ≡ phase_of name.now self.now }
    {
        match place_of(&self.slots, name) {
            Some(i) => Some(self.slots[i].phase),
            None if was_used(&self.slots, name) => Some(Phase::Gone),
            None => None,
        }
    }

    /// Gives a plugin the next slot, live. The answer is its number: the lowest that was never used.
    ///
    /// `Installed` (9001) exactly where the name is live, `Dying` (9002) exactly where it is dying, `SlotsSpent` (9005) exactly where it is
    /// neither and 256 slots were used. `Memory` for want of memory. After a fault all is as it was.
    pub fn install(&mut self, name: &Name) -> Result<u16, InstallFault>
        ensures installs { IfOk result (λ n. Installs name.now n self.old self.new) }
        ensures installed { (result ≡ Err InstallFault.Installed)
            ↔ (phase_of name.now self.old ≡ Some Phase.Live) }
        ensures dying { (result ≡ Err InstallFault.Dying)
            ↔ (phase_of name.now self.old ≡ Some Phase.Dying) }
        ensures slots_spent { (result ≡ Err InstallFault.SlotsSpent)
            ↔ ((slot_of name.now self.old ≡ None) × (length self.old ≡ slot_limit)) }
        ensures err { OnErr result (self.new ≡ self.old) }
    {
        let Some(i) = place_of(&self.slots, name) else {
            return self.add(name);
        };
        if self.slots[i].is_dying() {
            return Err(InstallFault::Dying);
        }
        Err(InstallFault::Installed)
    }

    // Gives a name that has no live or dying slot the next one.
    fn add(&mut self, name: &Name) -> Result<u16, InstallFault>
        requires { slot_of name.now self.old ≡ None }
        ensures installs { IfOk result (λ n. Installs name.now n self.old self.new) }
        ensures not_installed { result ≢ Err InstallFault.Installed }
        ensures not_dying { result ≢ Err InstallFault.Dying }
        ensures slots_spent { (result ≡ Err InstallFault.SlotsSpent)
            ↔ (length self.old ≡ slot_limit) }
        ensures err { OnErr result (self.new ≡ self.old) }
    {
        if self.slots.len() == SLOT_LIMIT {
            return Err(InstallFault::SlotsSpent);
        }
        let number = self.slots.len() as u16;
        let name = name.copy()?;
        self.slots.push(Slot {
            name,
            phase: Phase::Live,
            holders: Holders::new(self.alloc),
        })?;
        Ok(number)
    }

    /// The holder refers to the plugin of this name, if it did not already. The answer is the number of its live or dying slot.
    ///
    /// `UnknownEngine` (1286) exactly where the name is not live and the holder has no slot of it. `Memory` for want of memory, never where
    /// the holder has the slot. After a fault all is as it was.
    pub fn get(&mut self, name: &Name, holder: &Holder) -> Result<u16, GetFault>
        ensures gets { IfOk result (λ n. Gets name.now holder.now n self.old self.new) }
        ensures held { IsTrue (has_slot_of name.now holder.now self.old) → IsOk result }
        ensures unknown_engine { (result ≡ Err GetFault.UnknownEngine)
            ↔ ((phase_of name.now self.old ≢ Some Phase.Live)
            × (has_slot_of name.now holder.now self.old ≡ false)) }
        ensures err { OnErr result (self.new ≡ self.old) }
    {
        let Some(i) = place_of(&self.slots, name) else {
            return Err(GetFault::UnknownEngine);
        };
        let slot = &mut self.slots[i];
        slot.get(holder)?;
        Ok(i as u16)
    }

    /// The holder does not refer to this slot any more. Where it did not, or the slot was never used, nothing changes. No memory is taken.
    pub fn leave(&mut self, slot: u16, holder: &Holder)
        ensures { self.new ≡ after_leave slot holder.now self.old }
    {
        let i = slot as usize;
        if i < self.slots.len() {
            let slot = &mut self.slots[i];
            slot.holders.remove(holder);
        }
    }

    /// The plugin of this name is dying from now on. The answer is the number of its slot. No memory is taken.
    ///
    /// `NotInstalled` (9004) exactly where the name has neither a live nor a dying slot, `Dying` (9002) exactly where it is dying. After
    /// a fault all is as it was.
    pub fn accept_uninstall(&mut self, name: &Name) -> Result<u16, UninstallFault>
        ensures uninstalls { IfOk result (λ n. Uninstalls name.now n self.old self.new) }
        ensures not_installed { (result ≡ Err UninstallFault.NotInstalled)
            ↔ (slot_of name.now self.old ≡ None) }
        ensures dying { (result ≡ Err UninstallFault.Dying)
            ↔ (phase_of name.now self.old ≡ Some Phase.Dying) }
        ensures err { OnErr result (self.new ≡ self.old) }
    {
        let Some(i) = place_of(&self.slots, name) else {
            return Err(UninstallFault::NotInstalled);
        };
        let slot = &mut self.slots[i];
        if slot.is_dying() {
            return Err(UninstallFault::Dying);
        }
        slot.phase = Phase::Dying;
        Ok(i as u16)
    }

    /// Makes this slot gone where it is dying and nobody refers to it, and tells whether it did. No memory is taken.
    pub fn reap(&mut self, slot: u16) -> bool
        ensures exact { IsTrue result
            ↔ ((phase_at slot self.old ≡ Some Phase.Dying) × (holders_at slot self.old ≡ [])) }
        ensures reaped { self.new ≡ (if result then after_reap slot self.old else self.old) }
    {
        let i = slot as usize;
        if i >= self.slots.len() {
            return false;
        }
        let slot = &mut self.slots[i];
        if !slot.may_be_reaped() {
            return false;
        }
        slot.phase = Phase::Gone;
        true
    }
}
