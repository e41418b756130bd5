//! The pairs of a table at rest.

use crate::expected::is_printed;
use crate::listing::listed;
use crate::rows::{Rows, SEVEN, asked};
use builder_core::{Plan, at_rest};
use heap_table::Heap;
use keybytes::Fault;
use std::alloc::Global;

const THREE: Rows = Rows {
    count: 3,
    distinct: 2,
    ..SEVEN
};

const SCRIPT: &str = "table,2,int,int
start,1,4,even:1,n:0
";

/// The keys 0, 1 and 0 again, by key and then by place.
const PAIRS: &str = "1,ok,3
1,pair,0,0.0
1,pair,0,1.0
1,pair,1,0.1
";

/// Whether the pairs of the table are those of the three rows, for two visits.
fn are_read(alloc: Global, heap: &mut Heap, plan: &Plan) -> Result<bool, Fault> {
    let [spec] = plan.specs.as_slice() else {
        return Err(Fault::BadCount);
    };
    if !spec.is_of(heap.schema()) {
        return Err(Fault::BadColumn);
    }
    let before = heap.visits();
    let pairs = listed(alloc, &at_rest(heap, spec)?)?;
    Ok(heap.visits() == before.saturating_add(2) && is_printed(1, &pairs, PAIRS.as_bytes()))
}

fn read_three_rows(alloc: Global) -> Result<bool, Fault> {
    let (mut heap, plan, _) = asked(alloc, SCRIPT, &THREE, 1)?;
    are_read(alloc, &mut heap, &plan)
}

#[test]
fn the_pairs_of_a_table_at_rest(rt: HostRuntime) {
    assert_eq!(rt; read_three_rows(rt.alloc()), Ok(true));
}
