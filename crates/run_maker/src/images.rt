//! The pairs of the rows on a copy of a page.
ghost use Rattle.std.specs.Prelude.{◌≡◌, ◌⊎◌, ℕ, All, Option, List, IfErr, OnOk, map, length};
ghost use Rattle.keybytes.specs.declared.cell.Cell.{Cell};
ghost use Rattle.heap_table.specs.Images.{image_slot, HasRows, Shows};
ghost use Rattle.heap_table.specs.Pages.{rid_at};
ghost use Rattle.run_spool.specs.Spools.{AreSorted, NoneFreed, NoPageOnlyIf};
ghost use Rattle.run_maker.specs.FullSpools.{HasFullOf};
ghost use Rattle.run_maker.specs.Making.{AreReady, TakesRow, TakesRowPart, Takes, TakesPart, AreHeldWithCopy, AreHeldWithRow};
ghost use Rattle.run_maker.specs.Spooling.{MemoryOnlyIf};

use crate::RunSort;
use crate::open_run::OpenRun;
use crate::rows::add_row;
use heap_table::PageImage;
use keybytes::{Fault, KeySpec, Rid, Schema};
use run_spool::Spool;

/// Makes the pairs of the rows on a copy.
pub(crate) fn add_image<S: Spool, Q: RunSort>(
    image: &PageImage,
    schema: &Schema,
    specs: &[KeySpec],
    begun: &mut [OpenRun],
    spools: &mut [S],
    sort: &mut Q,
) -> Result<(), Fault>
    requires rows { (rows : ℕ → Option (List Cell)) × HasRows schema.now image.now rows }
    requires columns { All (λ spec. spec.kinds ≡ schema.now) specs.now }
    requires begun { length begun.old ≡ length specs.now }
    requires spools { length spools.old ≡ length specs.now }
    requires ready { AreReady (map S.runs spools.old) (map S.open_run spools.old) }
    ensures taken { OnOk result (Takes specs.now image.now
        (record { runs = map S.runs spools.old; begun = begun.old }) (record { runs = map S.runs spools.new; begun = begun.new })) }
    ensures ready { OnOk result (AreReady (map S.runs spools.new) (map S.open_run spools.new)) }
    ensures sorted { All AreSorted (map S.runs spools.old) → All AreSorted (map S.runs spools.new) }
    ensures intact { All (NoneFreed S.is_intact S.runs) spools.old → All (NoneFreed S.is_intact S.runs) spools.new }
    ensures stakes { map S.stake spools.new ≡ map S.stake spools.old }
    ensures fault { IfErr result (λ fault. (fault ≡ Fault.NoPage) ⊎ (fault ≡ Fault.Memory)) }
    ensures full { IfErr result (NoPageOnlyIf (HasFullOf S.is_full S.runs S.open_run 4096 (map S.runs spools.old)
        (AreHeldWithCopy specs.now image.now (record { runs = map S.runs spools.old; begun = begun.old })) spools.new)) }
    ensures want { IfErr result (MemoryOnlyIf (AreReady (map S.runs spools.new) (map S.open_run spools.new))) }
    ensures part { IfErr result (MemoryOnlyIf (TakesPart specs.now image.now
        (record { runs = map S.runs spools.old; begun = begun.old }) (record { runs = map S.runs spools.new; begun = begun.new }))) }
{
    for slot in 0..image.slots() {
        add_slot(image, slot, schema, specs, begun, spools, sort)?;
    }
    Ok(())
}

// Makes the pairs of the row in a slot of a copy, if there is one.
fn add_slot<S: Spool, Q: RunSort>(
    image: &PageImage,
    slot: u16,
    schema: &Schema,
    specs: &[KeySpec],
    begun: &mut [OpenRun],
    spools: &mut [S],
    sort: &mut Q,
) -> Result<(), Fault>
    requires row { (row : Option (List Cell)) × Shows schema.now (image_slot image.now slot) row }
    requires columns { All (λ spec. spec.kinds ≡ schema.now) specs.now }
    requires begun { length begun.old ≡ length specs.now }
    requires spools { length spools.old ≡ length specs.now }
    requires ready { AreReady (map S.runs spools.old) (map S.open_run spools.old) }
    ensures added { OnOk result ((row : Option (List Cell)) → Shows schema.now (image_slot image.now slot) row
        → TakesRow specs.now (rid_at image.now.page slot) row
        (record { runs = map S.runs spools.old; begun = begun.old }) (record { runs = map S.runs spools.new; begun = begun.new })) }
    ensures ready { OnOk result (AreReady (map S.runs spools.new) (map S.open_run spools.new)) }
    ensures sorted { All AreSorted (map S.runs spools.old) → All AreSorted (map S.runs spools.new) }
    ensures intact { All (NoneFreed S.is_intact S.runs) spools.old → All (NoneFreed S.is_intact S.runs) spools.new }
    ensures stakes { map S.stake spools.new ≡ map S.stake spools.old }
    ensures fault { IfErr result (λ fault. (fault ≡ Fault.NoPage) ⊎ (fault ≡ Fault.Memory)) }
    ensures full { IfErr result (NoPageOnlyIf ((row : Option (List Cell)) → Shows schema.now (image_slot image.now slot) row
        → HasFullOf S.is_full S.runs S.open_run 4096 (map S.runs spools.old)
        (AreHeldWithRow specs.now (rid_at image.now.page slot) row (record { runs = map S.runs spools.old; begun = begun.old })) spools.new)) }
    ensures want { IfErr result (MemoryOnlyIf (AreReady (map S.runs spools.new) (map S.open_run spools.new))) }
    ensures part { IfErr result (MemoryOnlyIf ((row : Option (List Cell)) → Shows schema.now (image_slot image.now slot) row
        → TakesRowPart specs.now (rid_at image.now.page slot) row
        (record { runs = map S.runs spools.old; begun = begun.old }) (record { runs = map S.runs spools.new; begun = begun.new }))) }
{
    let Some(row) = image.row(slot, schema)? else {
        return Ok(());
    };
    let rid = Rid {
        page: image.page(),
        slot,
    };
    add_row(specs, &row, rid, begun, spools, sort)
}
