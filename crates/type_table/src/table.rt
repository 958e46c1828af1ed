//! The table from type ids to descriptors. Its entries lie in one vector, sorted by id, so that a look-up is a binary
//! search however many types there are.

ghost use Rattle.std.specs.Prelude.{◌≡◌, ◌≤◌, ◌<◌, ◌↔◌, [], length, Some, None, IsTrue, IsSome, IfOk, IfErr, OnOk, OnErr, IsErrOf};
ghost use Rattle.std.specs.List.{HoldsAt, insert};
ghost use Rattle.type_table.specs.declared.info.TypeInfo.{TypeInfo};
ghost use Rattle.type_table.specs.Table.{KeysRise, value_at, with_value};
ghost use Rattle.type_table.specs.TypeTable.{IsTypeTable};

use crate::info::TypeInfo;
use std::alloc::{AllocError, AllocFailed, Global};
use std::marker::Model;

/// The greatest number of types. (This project's own.)
pub const MAX_TYPES: usize = 4096;

// The entries for which a new table has room.
const FIRST_ROOM: usize = 8;

/// Why a type is not added.
#[derive(Clone, Copy, Debug, PartialEq, Eq)]
pub enum TypeFault {
    /// The id has a type.
    Twice,
    /// There are `MAX_TYPES` types.
    TooMany,
    OutOfMemory,
}

impl<T: Drop> From<AllocFailed<T>> for TypeFault {
    ghost use Rattle.type_table.specs.declared.table.TypeFault.TheVariants.{OutOfMemory};

    ghost from_gives = { λ _ fault. fault ≡ OutOfMemory };

    fn from(_: AllocFailed<T>) -> TypeFault {
        TypeFault::OutOfMemory
    }
}

/// The types of a program by their ids. A contract sees the entries by rising id.
#[derive(Debug, Drop)]
pub struct TypeTable {
    entries: Vec<(u16, TypeInfo)>,
}

impl Model for TypeTable {
    ghost use Rattle.type_table.specs.declared.info.TypeInfo.{TypeInfo};
    ghost use Rattle.type_table.specs.Table.{Table};
    ghost use Rattle.type_table.specs.TypeTable.{IsTypeTable};

    ghost Value = { Table TypeInfo };

    ghost view = { λ table. table.entries.items };

    ghost invariant = { λ table. IsTypeTable table.entries.items };
}

impl TypeTable {
    /// An empty table.
    pub fn new(alloc: Global) -> Result<TypeTable, AllocError>
        ensures { IfOk result (λ table. table ≡ []) }
    {
        Ok(TypeTable {
            entries: Vec::with_capacity(alloc, FIRST_ROOM)?,
        })
    }

    /// Gives the id this descriptor. A refusal changes nothing.
    pub fn add(&mut self, id: u16, info: TypeInfo) -> Result<(), TypeFault>
        ensures added { OnOk result (self.new ≡ with_value self.old id info) }
        ensures twice { IsErrOf result TypeFault.Twice ↔ IsSome (value_at self.old id) }
        ensures too_many { IsErrOf result TypeFault.TooMany
            ↔ ((value_at self.old id ≡ None) × (MAX_TYPES ≤ length self.old)) }
        ensures err { OnErr result (self.new ≡ self.old) }
    {
        let at = match place_of(&self.entries, id) {
            Ok(_) => return Err(TypeFault::Twice),
            Err(at) => at,
        };
        if self.entries.len() >= MAX_TYPES {
            return Err(TypeFault::TooMany);
        }
        self.entries.insert(at, (id, info))?;
        Ok(())
    }

    /// The descriptor of the id, if it has one. It does not allocate.
    pub fn get(&self, id: u16) -> Option<TypeInfo>
        ensures { result ≡ value_at self.now id }
    {
        // The place of the entry where the ids go from 1 on without a gap, as they mostly do.
        let likely = usize::from(id).saturating_sub(1);
        if likely < self.entries.len() {
            let entry = self.entries[likely];
            if entry.0 == id {
                return Some(entry.1);
            }
        }
        match place_of(&self.entries, id) {
            Ok(at) => Some(self.entries[at].1),
            Err(_) => None,
        }
    }

    /// The number of types.
    pub fn len(&self) -> usize
        ensures count { result ≡ length self.now }
        ensures sound { IsTypeTable self.now }
    {
        self.entries.len()
    }

    /// Whether there is no type.
    pub fn is_empty(&self) -> bool
        ensures { IsTrue result ↔ (length self.now ≡ 0) }
    {
        self.entries.is_empty()
    }
}

// Where the id's entry is, or where it would go.
fn place_of(entries: &[(u16, TypeInfo)], id: u16) -> Result<usize, usize>
    requires { KeysRise entries.now }
    ensures found { IfOk result (λ at. (at < length entries.now)
        × HoldsAt (λ entry. value_at entries.now id ≡ Some entry.1) entries.now at) }
    ensures absent { IfErr result (λ at. (at ≤ length entries.now) × (value_at entries.now id ≡ None)) }
    ensures gap { IfErr result (λ at.
        (info : TypeInfo) → insert entries.now at (id, info) ≡ with_value entries.now id info) }
{
    entries.binary_search_by_key(&id, |entry| entry.0)
}
