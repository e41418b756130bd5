//! What a build is asked for.
ghost use Rattle.std.specs.Prelude.{◌≡◌, ◌↔◌, map, None, Some, IsTrue, IfSome, IfOk, IfErr, OnOk};
ghost use Rattle.keybytes.specs.Faults.{RefusedFor};
ghost use Rattle.replay.specs.Limits.{is_in_limits};
ghost use Rattle.replay.specs.Listings.{key_spec_of, spec_refusal, when_refusal};
ghost use Rattle.replay.specs.Plans.{IsOneMore, specs_refusal};

use builder_core::{INDEXES_MAX, WORKERS_MAX};
use keybytes::{Fault, KeySpec, Schema, When};
use script::Spec;
use std::alloc::Global;

/// How many pages a spool may lease.
const QUOTA_MAX: usize = 1_024;

/// Whether the workers, the indexes and the quota are as many as a build may have.
pub fn is_in_limits(workers: usize, indexes: usize, quota: usize) -> bool
    ensures { result ≡ is_in_limits workers indexes quota }
{
    (1..=WORKERS_MAX).contains(&workers)
        && (1..=INDEXES_MAX).contains(&indexes)
        && quota <= QUOTA_MAX
}

/// The key specification, of a table with these columns.
pub fn key_spec(alloc: Global, schema: &Schema, spec: Spec) -> Result<KeySpec, Fault>
    ensures made { IfOk result (λ made. made ≡ key_spec_of schema.now spec) }
    ensures accepted { OnOk result (spec_refusal schema.now spec ≡ None) }
    ensures refused { IfErr result (RefusedFor (spec_refusal schema.now spec)) }
{
    let Spec {
        unique,
        columns,
        condition,
    } = spec;
    if !may_ask(schema, &condition) {
        return Err(Fault::BadColumn);
    }
    let made = KeySpec::new(alloc, schema, columns, unique)?;
    match condition {
        Some(condition) => made.with_when(schema, condition),
        None => Ok(made),
    }
}

/// Whether rows of the table may be asked for the condition, if there is one. That is known before memory is wanted.
fn may_ask(schema: &Schema, condition: &Option<When>) -> bool
    ensures { IsTrue result ↔ (when_refusal schema.now condition.now ≡ None) }
{
    match condition {
        Some(condition) => condition.is_of(schema),
        None => true,
    }
}

/// The key specifications of a build, of a table with these columns. The first that is refused decides, also where there is no memory for one before it: so
/// the others are looked at all the same.
pub fn key_specs(alloc: Global, schema: &Schema, specs: Vec<Spec>) -> Result<Vec<KeySpec>, Fault>
    ensures ok { IfOk result (λ made. made.items ≡ map (key_spec_of schema.now) specs.items) }
    ensures accepted { OnOk result (specs_refusal schema.now specs.items ≡ None) }
    ensures refused { IfErr result (RefusedFor (specs_refusal schema.now specs.items)) }
{
    let mut made = Some(Vec::new(alloc));
    for spec in specs {
        made = add_spec(alloc, schema, spec, made)?;
    }
    made.ok_or(Fault::Memory)
}

/// Those that are made and one more; none where there is no memory for it, or was none for one before it.
fn add_spec(
    alloc: Global,
    schema: &Schema,
    spec: Spec,
    made: Option<Vec<KeySpec>>,
) -> Result<Option<Vec<KeySpec>>, Fault>
    ensures made { IfOk result (λ after. IfSome after (IsOneMore made (key_spec_of schema.now spec))) }
    ensures accepted { OnOk result (spec_refusal schema.now spec ≡ None) }
    ensures refused { IfErr result (λ fault. spec_refusal schema.now spec ≡ Some fault) }
{
    match key_spec(alloc, schema, spec) {
        Ok(one) => Ok(with_one(made, one)),
        Err(Fault::Memory) => Ok(None),
        Err(fault) => Err(fault),
    }
}

/// One more, if the others are there and there is memory for it.
fn with_one(made: Option<Vec<KeySpec>>, one: KeySpec) -> Option<Vec<KeySpec>>
    ensures { IfSome result (IsOneMore made one) }
{
    let mut specs = made?;
    specs.push(one).ok()?;
    Some(specs)
}
