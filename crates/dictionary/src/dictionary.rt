//! A dictionary, and the changes that are made on it.
//!
//! Invariant: each definition stands under the bytes of its table's name (`AreKeyed`).
ghost use Rattle.std.specs.Prelude.{◌≡◌, ◌++◌, ◌∷◌, ◌+◌, [], List, Some, None, IfOk, IfSome, OnOk, OnErr, slice_get};
ghost use Rattle.std.specs.Option.{option_copied};
ghost use Rattle.std.specs.Str.{bytes_eq};
ghost use Rattle.std.specs.List.{list_any};
ghost use Rattle.sql_value.specs.Names.{IsName};
ghost use Rattle.log_tables.specs.Changes.{installed_after};
ghost use Rattle.row_format.specs.declared.change.Change.{Change};
ghost use Rattle.row_format.specs.declared.change.Change.TheVariants.{Install, Uninstall, Create, Drop};

use indexmap::IndexMap;
use log_tables::Definition;
use row_format::{Change, Name, Schema};
use std::alloc::{AllocError, Global};
use std::marker::Model;

/// The definitions of the tables that there are, in order of creation, and the installed engines, in order of their installation.
/// (This project.)
#[derive(Drop)]
pub struct Dictionary {
    definitions: IndexMap<Vec<u8>, Definition>,
    installed: Vec<Name>,
    version: u64,
}

impl Model for Dictionary {
    ghost use Rattle.dictionary.specs.Dictionary.{DictionaryState};
    ghost use Rattle.dictionary.specs.Inside.{AreKeyed};
    ghost use Rattle.indexmap.specs.IndexMap.{values};

    ghost Value = { DictionaryState };

    ghost view = { λ d. record {
      definitions = values d.definitions;
      installed = d.installed.items;
      version = d.version;
    } };

    ghost invariant = { λ d. AreKeyed d.definitions.entries };
}

ghost use Rattle.indexmap.specs.IndexMap.{get_by, shift_remove_entry};
ghost use Rattle.dictionary.specs.Inside.{is_key};
ghost use Rattle.dictionary.specs.Dictionary.{definition_named, capped, dictionary_change, HasEffect, Tells};

// One more, up to the last number of 64 bits.
fn raise(version: &mut u64)
    ensures { version.new ≡ capped (version.old + 1) }
{
    *version = version.saturating_add(1);
}

// The name of these bytes.
fn name_of(alloc: Global, bytes: &[u8]) -> Result<Name, AllocError>
    requires { IsName bytes.now }
    ensures { IfOk result (λ it. it ≡ bytes.now) }
{
    match Name::new(bytes.to_vec(alloc)?) {
        Ok(name) => Ok(name),
        Err(_) => unreachable!(),
    }
}

// The engines that a fresh volume has.
fn first_engines(alloc: Global) -> Result<Vec<Name>, AllocError>
    ensures { IfOk result (λ it. it.items ≡ installed_after []) }
{
    let mut names = Vec::with_capacity(alloc, 3)?;
    names.push(name_of(alloc, b"MEMORY")?)?;
    names.push(name_of(alloc, b"BLACKHOLE")?)?;
    names.push(name_of(alloc, b"CSV")?)?;
    Ok(names)
}

// A definition of these names and this schema once more.
fn copy_definition(
    alloc: Global,
    table: &Name,
    engine: &Name,
    schema: &Schema,
) -> Result<Definition, AllocError>
    ensures table { IfOk result (λ it. it.table ≡ table.now) }
    ensures engine { IfOk result (λ it. it.engine ≡ engine.now) }
    ensures schema { IfOk result (λ it. it.schema ≡ schema.now) }
{
    Ok(Definition {
        table: table.copy()?,
        engine: engine.copy()?,
        schema: schema.copy(alloc)?,
    })
}

// Takes out the definition under this name. Those behind it move up.
fn take_out(definitions: &mut IndexMap<Vec<u8>, Definition>, table: &Name) -> Option<Definition>
    ensures taken { result ≡ get_by (is_key table.now) definitions.old }
    ensures left { definitions.new.entries
        ≡ shift_remove_entry (is_key table.now) definitions.old.entries }
{
    definitions.shift_remove(table.as_bytes())
}

// Whether the engine is among these.
fn is_among(name: &Name, names: &[Name]) -> bool
    ensures { result ≡ list_any (bytes_eq name.now) names.now }
{
    names.iter().any(|it| name.is_same(it))
}

impl Dictionary {
    /// No tables, and the engines that a fresh volume has: MEMORY, BLACKHOLE and CSV.
    ///
    /// `AllocError` for want of memory.
    pub fn new(alloc: Global) -> Result<Dictionary, AllocError>
        ensures { IfOk result (Tells []) }
    {
        let installed = first_engines(alloc)?;
        Ok(Dictionary {
            definitions: IndexMap::new(alloc),
            installed,
            version: 0,
        })
    }

    // Adds a definition at the end, whose name is free.
    fn define(&mut self, table: &Name, engine: &Name, schema: &Schema) -> Result<(), AllocError>
        requires { definition_named table.now self.old.definitions ≡ None }
        ensures ok { OnOk result
            (self.new ≡ dictionary_change (Create table.now engine.now schema.now) self.old) }
        ensures err { OnErr result (self.new ≡ self.old) }
    {
        let key = table.copy()?.into_bytes();
        let alloc = *self.definitions.allocator();
        let definition = copy_definition(alloc, table, engine, schema)?;
        self.definitions.insert(key, definition)?;
        raise(&mut self.version);
        Ok(())
    }

    // Adds a table at the end, where its name is free.
    fn create(&mut self, table: &Name, engine: &Name, schema: &Schema) -> Result<(), AllocError>
        ensures ok { OnOk result
            (self.new ≡ dictionary_change (Create table.now engine.now schema.now) self.old) }
        ensures err { OnErr result (self.new ≡ self.old) }
        ensures memory { OnErr result
            (HasEffect (Create table.now engine.now schema.now) self.old) }
    {
        if self.find(table).is_some() {
            return Ok(());
        }
        self.define(table, engine, schema)
    }

    // Takes a table out, where it is there. The others keep their order.
    fn remove(&mut self, table: &Name)
        ensures { self.new ≡ dictionary_change (Drop table.now) self.old }
    {
        if take_out(&mut self.definitions, table).is_some() {
            raise(&mut self.version);
        }
    }

    // Adds an engine at the end, where it is not installed.
    fn install(&mut self, name: &Name) -> Result<(), AllocError>
        ensures ok { OnOk result (self.new ≡ dictionary_change (Install name.now) self.old) }
        ensures err { OnErr result (self.new ≡ self.old) }
        ensures memory { OnErr result (HasEffect (Install name.now) self.old) }
    {
        if is_among(name, &self.installed) {
            return Ok(());
        }
        self.installed.push(name.copy()?)?;
        raise(&mut self.version);
        Ok(())
    }

    // Takes an engine out, where it is installed. The others keep their order.
    fn uninstall(&mut self, name: &Name)
        ensures { self.new ≡ dictionary_change (Uninstall name.now) self.old }
    {
        if !is_among(name, &self.installed) {
            return;
        }
        self.installed.retain(|it| !name.is_same(it));
        raise(&mut self.version);
    }

    // Makes a change.
    fn make(&mut self, change: &Change) -> Result<(), AllocError>
        ensures ok { OnOk result (self.new ≡ dictionary_change change.now self.old) }
        ensures err { OnErr result (self.new ≡ self.old) }
        ensures memory { OnErr result (HasEffect change.now self.old) }
    {
        match change {
            Change::Create {
                table,
                engine,
                schema,
            } => self.create(table, engine, schema),
            Change::Drop { table } => {
                self.remove(table);
                Ok(())
            }
            Change::Install { name } => self.install(name),
            Change::Uninstall { name } => {
                self.uninstall(name);
                Ok(())
            }
            Change::Insert { .. } | Change::Update { .. } | Change::Delete { .. } => Ok(()),
        }
    }

    /// Makes a change of the log. One that takes no effect leaves all as it is, the version too: CREATE of a table that is there, DROP of
    /// one that is not, INSTALL of an engine that is installed, UNINSTALL of one that is not. So does a row change.
    ///
    /// `AllocError` for want of memory, only where the change takes effect. Then all is as it was.
    pub fn apply(&mut self, change: &Change) -> Result<(), AllocError>
        ensures ok { OnOk result (self.new ≡ dictionary_change change.now self.old) }
        ensures tells { (changes : List Change) → Tells changes self.old
            → OnOk result (Tells (changes ++ change.now ∷ []) self.new) }

        ensures err { OnErr result (self.new ≡ self.old) }
        ensures memory { OnErr result (HasEffect change.now self.old) }
    {
        self.make(change)
    }

    /// The definition of the table of this name; None exactly where there is none.
    pub fn find(&self, table: &Name) -> Option<&Definition>
        ensures { option_copied result ≡ definition_named table.now self.now.definitions }
    {
        self.definitions.get(table.as_bytes())
    }

    /// The definition at this place in order of creation, from 0; None exactly where there are not so many.
    pub fn at(&self, place: usize) -> Option<&Definition>
        ensures definition { option_copied result ≡ slice_get self.now.definitions place }
        ensures named { IfSome result (λ it.
            definition_named it.now.table self.now.definitions ≡ Some it.now) }
    {
        let (_, definition) = self.definitions.get_index(place)?;
        Some(definition)
    }

    /// The installed engines, in order of their installation.
    pub fn installed(&self) -> &[Name]
        ensures { result.now ≡ self.now.installed }
    {
        self.installed.as_slice()
    }

    /// How many changes took effect: tables created and dropped, engines installed and no more installed. It stays at the last number
    /// of 64 bits.
    pub fn version(&self) -> u64
        ensures { result ≡ self.now.version }
    {
        self.version
    }
}
