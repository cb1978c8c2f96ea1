//! Whether bytes are a page: each byte is the header's and the directory's, or of one record at most.
ghost use Rattle.std.specs.Prelude.{◌≡◌, ◌≤◌, ◌<◌, ◌↔◌, ◌+◌, ◌^◌, IsTrue};
ghost use Rattle.std.specs.Bool.{OnTrue, OnFalse};
ghost use Rattle.page_format.specs.Pages.{used_by};
ghost use Rattle.page_format.specs.Kept.{slots_of, IsLaid};
ghost use Rattle.page_format.specs.Claims.{Takes, Meets};

use crate::directory::{ENTRY_LEN, HEADER_LEN, count, length_of, place_of};
use crate::numbers::PAGE_LEN;

// Takes the bytes of a record; false where one of them is taken, or not in the page.
fn claim(taken: &mut [bool; PAGE_LEN], place: usize, len: usize) -> bool
    requires { place + len < 2 ^ 64 }
    ensures taken { OnTrue result (Takes place len taken.old taken.new) }
    ensures refused { OnFalse result (Meets place len taken.old) }
{
    if len == 0 {
        return true;
    }
    if place + len > PAGE_LEN {
        return false;
    }
    let part = &mut taken[place..place + len];
    if part.contains(&true) {
        return false;
    }
    part.fill(true);
    true
}

/// Whether the directory is in the page, and the records stand elsewhere in it and do not overlap. Then they fit beside it.
pub(crate) fn is_laid(bytes: &[u8; PAGE_LEN]) -> bool
    ensures value { IsTrue result ↔ IsLaid bytes.now }
    ensures room { IsTrue result → used_by (slots_of bytes.now) ≤ 4096 }
{
    let slots = count(bytes);
    let mut taken = [false; PAGE_LEN];
    if !claim(&mut taken, 0, HEADER_LEN + ENTRY_LEN * slots) {
        return false;
    }
    for slot in 0..slots {
        if !claim(&mut taken, place_of(bytes, slot), length_of(bytes, slot)) {
            return false;
        }
    }
    true
}
