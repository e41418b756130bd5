ghost use Rattle.std.specs.Prelude.{◌≡◌, IfOk, IfErr};

use crate::{Fault, KeySpec};
use std::alloc::Global;

/// Copies of these specifications, in their order, or [`Fault::Memory`].
pub fn copied_specs(alloc: Global, specs: &[KeySpec]) -> Result<Vec<KeySpec>, Fault>
    ensures same { IfOk result (λ copies. copies.items ≡ specs.now) }
    ensures memory { IfErr result (λ fault. fault ≡ Fault.Memory) }
{
    let mut copies = Vec::with_capacity(alloc, specs.len())?;
    for spec in specs {
        copies.push_reserved(spec.clone()?);
    }
    Ok(copies)
}
