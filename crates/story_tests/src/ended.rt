//! What a meeting has come to, once its threads have ended.

use crate::beside::{Told, Written};
use crate::meetings::Meeting;
use crate::rows::{has_pairs, rest_of};
use builder_core::Live;
use crew::{BuildFault, Opened, Receipt, Report, Table};
use heap_log::Outcome;
use keybytes::{Fault, KeySpec};

/// How many indexes are ready and how many pairs these have in all, or the fault that the build was given up for; how
/// many receipts there are; and how many records are missing.
pub type Ended = (Result<(usize, usize), Fault>, usize, usize);

/// How many indexes are ready, each with the pairs of the table's rows, of which there are so many.
fn ready_in<T: Opened>(
    live: &mut Live<T>,
    specs: &[KeySpec],
    verdicts: &[Outcome],
    rows: usize,
) -> Option<usize> {
    let mut ready: usize = 0;
    for number in 0..specs.len() {
        let rest = rest_of(live, &specs[number]).ok()?;
        let is_ready = matches!(verdicts.get(number), Some(Outcome::Ready(_)));
        if rest.len() != rows || is_ready && !has_pairs(live, ready, &rest) {
            return None;
        }
        ready = ready.saturating_add(usize::from(is_ready));
    }
    (live.ready().len() == ready).then_some(ready)
}

/// What it has come to, with these verdicts: no build runs, and a transaction may begin.
fn closed<T: Opened>(
    table: Table<T>,
    receipts: Vec<Receipt<T>>,
    specs: &[KeySpec],
    verdicts: &[Outcome],
    meeting: &Meeting,
) -> Option<Ended> {
    let given = receipts.len();
    let mut closed = table.close(receipts);
    let is_over = closed.live.specs().is_none()
        && (meeting.behind.is_short || closed.live.begin().is_ok());
    let rows = (meeting.rows.count as usize).saturating_add(meeting.further);
    let ready = ready_in(&mut closed.live, specs, verdicts, rows)?;
    let told = Ok((ready, ready.saturating_mul(rows)));
    is_over.then_some((told, given, closed.missing))
}

/// The same of a build that decided.
fn decided<T: Opened>(
    table: Table<T>,
    receipts: Vec<Receipt<T>>,
    specs: &[KeySpec],
    report: Report<T>,
    meeting: &Meeting,
) -> Option<Ended> {
    let Report {
        receipt,
        verdicts,
        ..
    } = report;
    let mut receipts = receipts;
    let _has_room = receipts.reserve(1).is_ok() || receipts.reserve(1).is_ok();
    let is_kept = receipts.push(receipt).is_ok();
    let is_each = verdicts.as_slice().len() == specs.len();
    let ended = closed(table, receipts, specs, verdicts.as_slice(), meeting);
    if is_kept && is_each { ended } else { None }
}

/// What it has come to, if the sessions did as they may.
pub fn ended<T: Opened>(
    table: Table<T>,
    written: Written<T>,
    told: Told<T>,
    specs: &[KeySpec],
    meeting: &Meeting,
) -> Option<Ended> {
    let (receipts, is_fine) = written;
    let ended = match told {
        None => closed(table, receipts, &[], &[], meeting),
        Some(Ok(report)) => decided(table, receipts, specs, report, meeting),
        Some(Err(BuildFault(fault))) => match closed(table, receipts, specs, &[], meeting) {
            Some((_, given, missing)) => Some((Err(fault), given, missing)),
            None => None,
        },
    };
    if is_fine { ended } else { None }
}
