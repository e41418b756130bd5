//! The kinds of a table's columns, as C names them.
ghost use Rattle.std.specs.Prelude.{◌≡◌, MatchOption, OnOk, IfOk, IfErr};
ghost use Rattle.keybytes.specs.declared.kind.Kind.{Kind};
ghost use Rattle.sfbuild_c.specs.KindBytes.{SpellsKinds, RefusesKinds, SpellsTable, kind_byte};

use keybytes::{COLUMNS_MAX, Fault, Kind, Schema};
use std::alloc::Global;

/// Refuses bytes that stand for no columns of a table. Takes no memory.
pub(crate) fn check_kinds(bytes: &[u8]) -> Result<(), Fault>
    ensures accepted { OnOk result (SpellsTable bytes.now) }
    ensures refused { IfErr result (RefusesKinds bytes.now) }
{
    if bytes.is_empty() || bytes.len() > COLUMNS_MAX {
        return Err(Fault::BadColumn);
    }
    for byte in bytes {
        if kind_of(*byte).is_none() {
            return Err(Fault::BadColumn);
        }
    }
    Ok(())
}

/// The columns that bytes stand for, a byte each, or [`Fault::Memory`].
pub(crate) fn read_kinds(alloc: Global, bytes: &[u8]) -> Result<Schema, Fault>
    requires { SpellsTable bytes.now }
    ensures ok { IfOk result (SpellsKinds bytes.now) }
    ensures memory { IfErr result (λ fault. fault ≡ Fault.Memory) }
{
    let mut kinds = Vec::with_capacity(alloc, bytes.len())?;
    for byte in bytes {
        match kind_of(*byte) {
            Some(kind) => kinds.push_reserved(kind),
            None => unreachable!(),
        }
    }
    Schema::new(kinds)
}

/// The kind that the byte stands for, if it stands for one.
fn kind_of(byte: u8) -> Option<Kind>
    ensures { MatchOption result ((kind : Kind) → kind_byte kind ≡ byte → ⊥) (λ kind. kind_byte kind ≡ byte) }
{
    match byte {
        1 => Some(Kind::Int),
        2 => Some(Kind::Text),
        3 => Some(Kind::Flag),
        _ => None,
    }
}
