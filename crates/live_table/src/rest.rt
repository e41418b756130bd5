ghost use Rattle.std.specs.Prelude.{◌≡◌, ◌++◌, All, Some, filter_map, true, IfOk, IfErr, OnOk};
ghost use Rattle.std.specs.Option.{option_to_list};
ghost use Rattle.keybytes.specs.Cells.{fits};
ghost use Rattle.heap_table.specs.Pages.{pages_written};
ghost use Rattle.keybytes.specs.Pairs.{HaveKeysOf, AreInColumnOrder, pair_with};
ghost use Rattle.heap_table.specs.TablePairs.{pair_of, pairs_at_rest};
ghost use Rattle.build_events.specs.CoreState.{after_visits};
ghost use Rattle.live_lemmas.specs.Visits.{IsVisited};

use crate::Pair;
use heap_table::Heap;
use keybytes::{Fault, KeySpec, Rid, Row};

/// Puts the pair of a row behind those that are there, if the index takes the row.
fn add_row(pairs: &mut Vec<Pair>, rid: Rid, row: &Row, spec: &KeySpec) -> Result<(), Fault>
    requires { fits spec.now.kinds row.now ≡ true }
    ensures ok { OnOk result (pairs.new.items ≡ pairs.old.items ++ option_to_list (pair_with spec.now rid (Some row.now))) }
    ensures memory { IfErr result (λ fault. fault ≡ Fault.Memory) }
{
    if let Some(key) = spec.key(row)? {
        pairs.push(Pair { key, rid })?;
    }
    Ok(())
}

/// Puts the pairs of rows behind those that are there.
fn add_rows(pairs: &mut Vec<Pair>, rows: &[(Rid, Row)], spec: &KeySpec) -> Result<(), Fault>
    requires { All (λ row. fits spec.now.kinds row.1 ≡ true) rows.now }
    ensures ok { OnOk result (pairs.new.items ≡ pairs.old.items ++ filter_map (pair_of spec.now) rows.now) }
    ensures memory { IfErr result (λ fault. fault ≡ Fault.Memory) }
{
    for (rid, row) in rows {
        add_row(pairs, *rid, row, spec)?;
    }
    Ok(())
}

/// The pairs of all rows that the index takes, by key, then by RID, as one worker makes them of a table that nobody writes. Reads each page once,
/// which counts as a visit. The specification is one of the table's columns.
pub fn at_rest(heap: &mut Heap, spec: &KeySpec) -> Result<Vec<Pair>, Fault>
    requires { spec.now.kinds ≡ heap.old.state.schema }
    ensures ok { IfOk result (λ pairs. pairs.items ≡ pairs_at_rest spec.now heap.old.state.log) }
    ensures keys { IfOk result (λ pairs. HaveKeysOf spec.now pairs.items) }
    ensures order { IfOk result (λ pairs. AreInColumnOrder spec.now pairs.items) }
    ensures visits { OnOk result (heap.new.state ≡ after_visits heap.old.state (pages_written heap.old.state.log)) }
    ensures rows { heap.new.state ≡ record heap.old.state { visits = heap.new.state.visits } }
    ensures read { IsVisited (pages_written heap.old.state.log) heap.old.state heap.new.state }
    ensures memory { IfErr result (λ fault. fault ≡ Fault.Memory) }
{
    heap.laws();
    let schema = heap.schema();
    prove!(spec.is_of(schema));
    // The specification tells that its columns make a key, whose bytes are then in the columns' order.
    let _columns = spec.columns();
    let mut pairs = Vec::new(heap.allocator());
    for page in 0..heap.pages() {
        let rows = heap.page_rows(page)?;
        add_rows(&mut pairs, &rows, spec)?;
    }
    pairs.sort_unstable();
    Ok(pairs)
}
