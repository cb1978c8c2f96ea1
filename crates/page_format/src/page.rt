//! Pages, and what is asked of one.
//!
//! Invariant: the bytes are a page by the format, and the records fit beside the directory (`IsKept`).
ghost use Rattle.std.specs.Prelude.{◌≡◌, ◌≤◌, ◌<◌, ◌+◌, ◌↔◌, [], List, ℕ, length, is_some, IfOk, OnOk, OnErr, IsErr, IfSome, IfNone};
ghost use Rattle.std.specs.Option.{option_copied};
ghost use Rattle.page_format.specs.Pages.{row_in, lowest_empty, used_by, free_in, cost_of, with_row, without_row};
ghost use Rattle.page_format.specs.Format.{IsPage};

use crate::directory::{
    COUNT_AT, ENTRY_LEN, HEADER_LEN, count, first_empty, length_of, row_at, rows_len,
};
use crate::form::is_laid;
use crate::numbers::{PAGE_LEN, four_at, put_four, two_at};
use crate::place::{add_row, clear, place_above};
use std::marker::Model;

/// The page has no room for a record: the answer of `Page::insert` where more bytes are needed than are free. (This project's own.)
#[derive(Clone, Copy, Debug, PartialEq, Eq)]
pub struct NoRoom;

/// A page: its number in the file, from 1 on, and a record in each of its slots, from 0 on, of which some may be empty. It
/// is written to a file as its `bytes`, and read by `of`. No call takes memory. (This project's own.)
#[derive(Drop)]
pub struct Page {
    bytes: [u8; PAGE_LEN],
}

impl Model for Page {
    ghost use Rattle.std.specs.Prelude.{ℕ};
    ghost use Rattle.page_format.specs.Pages.{Held};
    ghost use Rattle.page_format.specs.Format.{four_at};
    ghost use Rattle.page_format.specs.Kept.{slots_of, IsKept};

    ghost Value = { Held };

    ghost view = { λ p. record { number = four_at p.bytes 0; slots = slots_of p.bytes } };

    ghost invariant = { λ p. IsKept p.bytes };
}

impl Page {
    /// A page with no slots.
    pub fn new(number: u32) -> Page
        requires { 1 ≤ number }
        ensures { result ≡ record { number = number; slots = [] } }
    {
        let mut bytes = [0; PAGE_LEN];
        put_four(&mut bytes, 0, number);
        Page { bytes }
    }

    /// The page of this number that these bytes are; None exactly where they are none.
    pub fn of(number: u32, bytes: &[u8]) -> Option<Page>
        requires { 1 ≤ number }
        ensures found { IfSome result (λ page.
            (page.number ≡ number) × IsPage number bytes.now page.slots) }
        ensures absent { IfNone result
            ((slots : List (List ℕ)) → IsPage number bytes.now slots → ⊥) }
    {
        if bytes.len() != PAGE_LEN {
            return None;
        }
        let bytes = bytes.first_chunk::<PAGE_LEN>()?;
        if four_at(bytes, 0) != number || two_at(bytes, 6) != 0 || !is_laid(bytes) {
            return None;
        }
        Some(Page { bytes: *bytes })
    }

    /// Puts a record into the lowest empty slot, or into a new one where none is empty, and answers which. `NoRoom` comes exactly where
    /// its bytes, and 4 more where no slot is empty, are more than are free; the page is as it was then.
    pub fn insert(&mut self, bytes: &[u8]) -> Result<u16, NoRoom>
        requires { 0 < length bytes.now }
        ensures slot { IfOk result (λ slot. slot ≡ lowest_empty self.old.slots) }
        ensures ok { OnOk result (self.new ≡ record self.old {
          slots = with_row (lowest_empty self.old.slots) bytes.now self.old.slots;
        }) }
        ensures no_room { IsErr result
            ↔ (free_in self.old.slots < cost_of bytes.now self.old.slots) }
        ensures err { OnErr result (self.new ≡ self.old) }
    {
        let slot = first_empty(&self.bytes);
        let directory = HEADER_LEN + ENTRY_LEN * count(&self.bytes).max(slot + 1);
        let used = directory + rows_len(&self.bytes);
        if PAGE_LEN.saturating_sub(used) < bytes.len() {
            return Err(NoRoom);
        }
        let end = place_above(&mut self.bytes, directory + bytes.len());
        add_row(&mut self.bytes, slot, end - bytes.len(), bytes);
        Ok(slot as u16)
    }

    /// Empties a slot, which stays there; false exactly where it is empty already, or not there: the page is as it was then.
    pub fn remove(&mut self, slot: u16) -> bool
        ensures value { result ≡ is_some (row_in self.old.slots slot) }
        ensures slots { self.new ≡ record self.old { slots = without_row slot self.old.slots } }
    {
        let slot = usize::from(slot);
        if slot >= count(&self.bytes) || length_of(&self.bytes, slot) == 0 {
            return false;
        }
        clear(&mut self.bytes, slot);
        true
    }

    /// The record in a slot; None where the slot is empty or not there.
    pub fn row(&self, slot: u16) -> Option<&[u8]>
        ensures { option_copied result ≡ row_in self.now.slots slot }
    {
        let slot = usize::from(slot);
        if slot >= count(&self.bytes) {
            return None;
        }
        match row_at(&self.bytes, slot) {
            [] => None,
            row => Some(row),
        }
    }

    /// How many of its bytes are free: all but 8, 4 for each slot, and those of the records.
    pub fn free(&self) -> usize
        ensures value { result ≡ free_in self.now.slots }
        ensures whole { result + used_by self.now.slots ≡ 4096 }
    {
        PAGE_LEN - HEADER_LEN - ENTRY_LEN * count(&self.bytes) - rows_len(&self.bytes)
    }

    /// Its number in the file.
    pub fn number(&self) -> u32
        ensures value { result ≡ self.now.number }
        ensures from_one { 1 ≤ result }
    {
        four_at(&self.bytes, 0)
    }

    /// How many slots it has, with the empty ones.
    pub fn slots(&self) -> u16
        ensures { result ≡ length self.now.slots }
    {
        two_at(&self.bytes, COUNT_AT)
    }

    /// Its bytes, as they stand in the file: 4,096 of them.
    pub fn bytes(&self) -> &[u8]
        ensures page { IsPage self.now.number result.now self.now.slots }
        ensures len { length result.now ≡ 4096 }
    {
        &self.bytes
    }
}
