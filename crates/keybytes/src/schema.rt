ghost use Rattle.std.specs.Prelude.{◌≡◌, [], ◌∷◌, IfOk, IfErr, OnOk, Some, None, true};
ghost use Rattle.keybytes.specs.Schemas.{are_columns, columns_refusal, same_kinds};

use crate::{Fault, Kind};
use arrayvec::ArrayVec;
use std::marker::Model;

/// The greatest number of columns of a table.
pub const COLUMNS_MAX: usize = 12;

/// The kinds of a table's columns, 1 to 12 of them. They are kept in place, so a copy takes no memory.
pub struct Schema {
    kinds: ArrayVec<Kind, COLUMNS_MAX>,
}

impl Drop for Schema {
    fn drop(self) {
        let Schema { kinds: _ } = self;
    }
}

impl Model for Schema {
    ghost use Rattle.std.specs.Prelude.{◌≡◌, List, true};
    ghost use Rattle.keybytes.specs.declared.kind.Kind.{Kind};

    ghost Value = { List Kind };

    ghost use Rattle.keybytes.specs.Schemas.{are_columns};

    ghost view = { λ schema. schema.kinds.items };

    ghost invariant = { λ schema. are_columns schema.kinds.items ≡ true };
}

impl Schema {
    /// A table's columns, in order; no columns or more than [`COLUMNS_MAX`] are [`Fault::BadColumn`].
    pub fn new(kinds: Vec<Kind>) -> Result<Schema, Fault>
        ensures ok { IfOk result (λ schema. schema ≡ kinds.items) }
        ensures accepted { OnOk result (columns_refusal kinds.items ≡ None) }
        ensures refused { IfErr result (λ fault. columns_refusal kinds.items ≡ Some fault) }
    {
        if kinds.is_empty() || kinds.len() > COLUMNS_MAX {
            return Err(Fault::BadColumn);
        }
        Ok(Schema::of(kinds.as_slice()))
    }

    /// The columns of a table that has one.
    pub fn of_one(kind: Kind) -> Schema
        ensures { result ≡ kind ∷ [] }
    {
        Schema::of(&[kind])
    }

    pub fn kinds(&self) -> &[Kind]
        ensures kinds { result.now ≡ self.now }
        ensures columns { are_columns self.now ≡ true }
    {
        self.kinds.as_slice()
    }

    /// A copy. Takes no memory.
    pub fn copy(&self) -> Schema
        ensures { result ≡ self.now }
    {
        Schema::of(self.kinds())
    }

    /// A copy, or [`Fault::Memory`].
    pub fn clone(&self) -> Result<Schema, Fault>
        ensures same { IfOk result (λ schema. schema ≡ self.now) }
        ensures memory { IfErr result (λ fault. fault ≡ Fault.Memory) }
    {
        Ok(self.copy())
    }

    /// Whether the other table has the same columns, in the same order.
    pub fn is_same(&self, other: &Schema) -> bool
        ensures { result ≡ same_kinds self.now other.now }
    {
        self.kinds() == other.kinds()
    }

    // The columns of these kinds, put in place.
    fn of(kinds: &[Kind]) -> Schema
        requires { are_columns kinds.now ≡ true }
        ensures { result ≡ kinds.now }
    {
        let mut in_place = ArrayVec::new();
        for kind in kinds {
            in_place.push(*kind);
        }
        Schema { kinds: in_place }
    }
}
