//! The name of a table, a column or an engine.
//!
//! Invariant: it has 1 to 64 bytes (`IsName`).
ghost use Rattle.std.specs.Prelude.{◌≡◌, List, ℕ, IfOk, IfErr, is_ok};
ghost use Rattle.std.specs.Str.{bytes_eq};
ghost use Rattle.sql_value.specs.Names.{is_name, IsName};

use std::alloc::AllocError;
use std::marker::Model;

/// A name, as its bytes: 1 to 64 of them, which may be any. (This project.)
#[derive(Drop)]
pub struct Name {
    bytes: Vec<u8>,
}

impl Model for Name {
    ghost Value = { List ℕ };

    ghost view = { λ n. n.bytes.items };

    ghost invariant = { λ n. IsName n.bytes.items };
}

/// Bytes that are no name: none, or more than 64. They are handed back.
#[derive(Drop)]
pub struct BadName {
    pub bytes: Vec<u8>,
}

impl Name {
    /// The name of these bytes. No memory is taken.
    ///
    /// `BadName` exactly where there are not 1 to 64 of them.
    pub fn new(bytes: Vec<u8>) -> Result<Name, BadName>
        ensures exact { is_ok result ≡ is_name bytes.items }
        ensures ok { IfOk result (λ n. n ≡ bytes.items) }
        ensures bad_name { IfErr result (λ e. e.bytes.items ≡ bytes.items) }
    {
        if 1 <= bytes.len() && bytes.len() <= 64 {
            Ok(Name { bytes })
        } else {
            Err(BadName { bytes })
        }
    }

    /// Its bytes.
    pub fn as_bytes(&self) -> &[u8]
        ensures value { result.now ≡ self.now }
        ensures name { IsName self.now }
    {
        self.bytes.as_slice()
    }

    /// Its bytes, to keep. No memory is taken.
    pub fn into_bytes(self) -> Vec<u8>
        ensures { result.items ≡ self }
    {
        self.bytes
    }

    /// Whether it has the same bytes as another.
    pub fn is_same(&self, other: &Name) -> bool
        ensures { result ≡ bytes_eq self.now other.now }
    {
        self.as_bytes() == other.as_bytes()
    }

    /// The same name once more.
    ///
    /// `AllocError` for want of memory.
    pub fn copy(&self) -> Result<Name, AllocError>
        ensures { IfOk result (λ n. n ≡ self.now) }
    {
        let bytes = self.bytes.clone()?;
        Ok(Name { bytes })
    }
}
