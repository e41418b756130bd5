use crate::record_error::RecordError;
use std::alloc::Global;

/// What a text may spell.
pub trait Spelled: Drop {
    ghost use Rattle.std.specs.Prelude.{◌≡◌, ℕ, List, IfOk};

    /// The text spells the value.
    ghost spells: { List ℕ → Self → Type 0 };

    /// The value that a text spells.
    fn spelled(alloc: Global, text: &str) -> Result<Self, RecordError>
        ensures ok { IfOk result (λ value. spells text.now value) }
        ensures refused { result ≡ Err RecordError.Misspelled → (value : Self) → spells text.now value → ⊥ };
}

/// What each of several fields may spell.
pub trait Field: Spelled {
    ghost use Rattle.std.specs.Prelude.{ℕ, List};
    ghost use Rattle.script.specs.Shapes.{IsSpelled};
    ghost use Rattle.script.specs.declared.part.Part.{Part};

    ghost part: { Part };

    ghost is_part: { (text : List ℕ) → IsSpelled part text → (value : Self) × Self.spells text value };
}
