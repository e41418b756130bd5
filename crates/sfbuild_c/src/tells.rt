//! What a build tells: how far it is, and what its switch decided.
ghost use Rattle.std.specs.Prelude.{◌≡◌, slice_get, IfOk, IfErr};
ghost use Rattle.keybytes.specs.Faults.{RefusedFor};
ghost use Rattle.heap_log.specs.declared.outcome.Outcome.{Outcome};
ghost use Rattle.kept_table.specs.Decisions.{verdicts_in};
ghost use Rattle.sfbuild_c.specs.Answers.{Answers, Tells, UnlessDone, UnlessTold};
ghost use Rattle.sfbuild_c.specs.Reading.{RefusesNothing};
ghost use Rattle.sfbuild_c.specs.Telling.{AreBytesOf, HasNoVerdict, IsSoFar, IsVerdictOf, TellsVerdict, as_verdict, verdict_refusal};

use crate::buffer::hand_out;
use crate::cell_bytes::bytes_of_cells;
use crate::progress::ProgressOf;
use crate::session::Session;
use crate::status::{CLOSED, DONE};
use crate::verdict::VerdictOf;
use kept_table::Kept;
use keybytes::Fault;
use std::alloc::Global;

/// Tells how far the build that runs is.
#[unsafe(no_mangle)]
pub extern "C" fn sfbuild_progress(
    alloc: Global,
    session: &mut Session,
    progress: &mut ProgressOf,
) -> u8
    ensures told { Answers (IsSoFar progress.new) RefusesNothing result session.old session.new }
    ensures kept { UnlessDone result (progress.new ≡ progress.old) }
{
    let Some(mut table) = session.take(alloc) else {
        return CLOSED;
    };
    *progress = ProgressOf::of(table.progress());
    session.put(table);
    DONE
}

/// Tells what the newest switch decided of an index of its build, and writes the cells of the key that rows share.
#[unsafe(no_mangle)]
pub extern "C" fn sfbuild_verdict(
    alloc: Global,
    session: &mut Session,
    index: usize,
    verdict: &mut VerdictOf,
    cells: &mut [u8],
    length: &mut usize,
) -> u8
    ensures told { Tells (TellsVerdict index cells.old verdict.old result verdict.new cells.new length.new) (HasNoVerdict index)
        result session.old session.new }
    ensures kept { UnlessTold result ((verdict.new ≡ verdict.old) × (cells.new ≡ cells.old) × (length.new ≡ length.old)) }
{
    let Some(table) = session.take(alloc) else {
        return CLOSED;
    };
    let told = told_of(&table, alloc, index);
    session.put(table);
    match told {
        Ok((of, bytes)) => {
            let status = hand_out(bytes.as_slice(), cells, length);
            if status == DONE {
                *verdict = of;
            }
            status
        }
        Err(fault) => session.tell(fault),
    }
}

/// What was decided of an index, and the bytes of the cells of the key that rows share.
fn told_of(table: &Kept, alloc: Global, index: usize) -> Result<(VerdictOf, Vec<u8>), Fault>
    ensures ok { IfOk result (λ told. (verdict : Outcome) × (told.0 ≡ as_verdict verdict) × IsVerdictOf index table.now verdict told.1.items) }
    ensures refused { IfErr result (RefusedFor (verdict_refusal (slice_get (verdicts_in table.now.decided) index))) }
{
    let Some(verdict) = table.verdict(index) else {
        return Err(Fault::BadCount);
    };
    let bytes = shared_bytes(table, alloc, index)?;
    Ok((VerdictOf::of(verdict), bytes))
}

/// The bytes of the cells of the key that rows share, where they do.
fn shared_bytes(table: &Kept, alloc: Global, index: usize) -> Result<Vec<u8>, Fault>
    ensures ok { IfOk result (λ bytes. AreBytesOf index table.now bytes.items) }
    ensures memory { IfErr result (λ fault. fault ≡ Fault.Memory) }
{
    match table.shared_cells(index)? {
        Some(cells) => bytes_of_cells(alloc, cells),
        None => Ok(Vec::new(alloc)),
    }
}
