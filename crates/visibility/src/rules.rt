ghost use Rattle.std.specs.Prelude.{◌≡◌, true, if◌then◌else◌, []};
ghost use Rattle.keybytes.specs.declared.rid.Rid.{Rid as RidValue};
ghost use Rattle.visibility.specs.SideEntries.{changes, entries_of_change, pair_under};
ghost use Rattle.visibility.specs.Visible.{is_visible_in};

use crate::Change;
use keybytes::{Key, Rid};
use scan_range::Ranges;

/// Whether a build whose ranges are so far has to hear of changes at the RID.
pub fn visible(ranges: &Ranges, rid: Rid) -> bool
    ensures { result ≡ is_visible_in ranges.now rid }
{
    if rid.page >= ranges.pages() {
        return true;
    }
    rid.page < ranges.cur(ranges.range_at(rid.page))
}

/// What a change of the key at a RID means for an index. A key is there where a row stands that the index takes.
pub fn entries(old: Option<Key>, new: Option<Key>, visible: bool) -> Change
    ensures { (rid : RidValue)
        → entries_of_change rid result ≡ (if visible then changes (pair_under rid old) (pair_under rid new) else []) }
{
    if !visible || old == new {
        return Change {
            delete: None,
            insert: None,
        };
    }
    Change {
        delete: old,
        insert: new,
    }
}
