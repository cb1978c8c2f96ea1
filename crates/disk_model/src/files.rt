//! Bytes by file number: a short list, in which each file is found by a walk over the numbers.
ghost use Rattle.std.specs.Prelude.{◌≡◌, ◌<◌, ◌≤◌, length, OnOk, OnErr, IfSome};
ghost use Rattle.disk_model.specs.File.{written};
ghost use Rattle.disk_model.specs.Held.{held, bytes_in, write_in, cut_in, place_from};

use crate::past::FileBytes;
use std::alloc::{AllocError, Global};

/// The bytes of a file.
pub(crate) fn bytes_of<'a>(files: &'a [FileBytes], file: u32) -> &'a [u8]
    ensures { result.now ≡ bytes_in (held files.now) file }
{
    for given in files {
        if given.file == file {
            return &given.bytes;
        }
    }
    &[]
}

// Where a file stands in the list.
fn place_of(files: &[FileBytes], file: u32) -> Option<usize>
    ensures place { result ≡ place_from file 0 files.now }
    ensures within { IfSome result (λ place. place < length files.now) }
{
    for (place, given) in files.iter().enumerate() {
        if given.file == file {
            return Some(place);
        }
    }
    None
}

// Writes over bytes and past their end, in place; with no memory they stay.
fn write_over(old: &mut Vec<u8>, at: usize, bytes: &[u8]) -> Result<(), AllocError>
    requires { at ≤ length old.old.items }
    ensures ok { OnOk result (old.new.items ≡ written at bytes.now old.old.items) }
    ensures err { OnErr result (old.new.items ≡ old.old.items) }
{
    let over = bytes.len().min(old.len() - at);
    old.extend_from_slice(&bytes[over..])?;
    let all = old.as_mut_slice();
    all[at..at + over].copy_from_slice(&bytes[..over]);
    Ok(())
}

/// Writes to a file; with no memory the files stay.
pub(crate) fn put(
    alloc: Global,
    files: &mut Vec<FileBytes>,
    file: u32,
    at: usize,
    bytes: &[u8],
) -> Result<(), AllocError>
    requires { at ≤ length (bytes_in (held files.old.items) file) }
    ensures ok { OnOk result
        (held files.new.items ≡ write_in file at bytes.now (held files.old.items)) }
    ensures err { OnErr result (held files.new.items ≡ held files.old.items) }
{
    match place_of(files, file) {
        Some(place) => write_over(&mut files[place].bytes, at, bytes),
        None => {
            let bytes = bytes.to_vec(alloc)?;
            files.push(FileBytes { file, bytes })?;
            Ok(())
        }
    }
}

/// Cuts a file to a length.
pub(crate) fn cut(files: &mut Vec<FileBytes>, file: u32, len: usize)
    ensures { held files.new.items ≡ cut_in file len (held files.old.items) }
{
    if let Some(place) = place_of(files, file) {
        files[place].bytes.truncate(len);
    }
}
