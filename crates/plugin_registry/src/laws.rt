//! What always holds of a registry: a function that does nothing, with laws for its contract.
ghost use Rattle.std.specs.Prelude.{◌≡◌, ℕ, Some, true, slice_get};
ghost use Rattle.plugin_registry.specs.Registry.{Slot, is_current, slot_of, IsRegistry};

use crate::Registry;

impl Registry {
    /// At most one slot of a name is live or dying, and the name finds it. Nobody refers to a gone slot, and no holder stands twice in one.
    pub fn laws(&self)
        ensures registry { IsRegistry self.now }
        ensures found { (n : ℕ) (slot : Slot) → slice_get self.now n ≡ Some slot
            → is_current slot.phase ≡ true → slot_of slot.name self.now ≡ Some n }
    {
        let _slots = &self.slots;
    }
}
