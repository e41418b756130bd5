//! The side-files of a build together, one for each index: their entries are taken out, and dropped.
ghost use Rattle.std.specs.Prelude.{◌≡◌, ◌+◌, ◌<◌, ◌≤◌, [], All, length, map, vec_len, vec_capacity};
ghost use Rattle.std.specs.List.{AllZip};
ghost use Rattle.side_file.specs.Ends.{PutEndLooked};
ghost use Rattle.table_scan.specs.SideFiles.{side_rings, taken_rings, drained_end, put_ends};

use chunk_list::ChunkQueue;
use side_file::{Entry, EntryEnd, SideFile};
use std::alloc::Global;

/// Forgets all entries of each side-file, those that were fed too; what waits in a ring stays there.
pub fn reset_all(sides: &mut Vec<SideFile>)
    ensures left { All (λ side. (side.left ≡ []) × (side.fed ≡ [])) sides.new.items }
    ensures ends { put_ends sides.new.items ≡ put_ends sides.old.items }
    ensures room { map (λ side. side.room) sides.new.items ≡ map (λ side. side.room) sides.old.items }
{
    for index in 0..sides.len() {
        sides[index].reset();
    }
}

/// Takes out what isn't fed of each side-file, as far as there is room for it, so that it can be dropped where nobody waits for it.
pub fn take_all_left(alloc: Global, sides: &mut Vec<SideFile>, waste: &mut Vec<ChunkQueue<Entry>>)
    ensures left { vec_len waste.old + length sides.old.items ≤ vec_capacity waste.old → All (λ side. side.left ≡ []) sides.new.items }
    ensures ends { put_ends sides.new.items ≡ put_ends sides.old.items }
{
    for index in 0..sides.len() {
        take_left(alloc, &mut sides[index], waste);
    }
}

/// The same of one of them.
fn take_left(alloc: Global, side: &mut SideFile, waste: &mut Vec<ChunkQueue<Entry>>)
    ensures left { vec_len waste.old < vec_capacity waste.old → side.new.left ≡ [] }
    ensures end { side.new.end ≡ side.old.end }
    ensures count { vec_len waste.new ≤ vec_len waste.old + 1 }
    ensures room { vec_capacity waste.new ≡ vec_capacity waste.old }
{
    if waste.len() < waste.capacity() {
        waste.push_reserved(side.take_left(alloc));
    }
}

/// Drops all entries of each side-file, those in its ring too.
pub fn empty_all(sides: &mut Vec<SideFile>, ends: &mut Vec<EntryEnd>)
    requires { side_rings (put_ends sides.old.items) ≡ taken_rings ends.old.items }
    ensures left { All (λ side. (side.left ≡ []) × (side.fed ≡ [])) sides.new.items }
    ensures room { map (λ side. side.room) sides.new.items ≡ map (λ side. side.room) sides.old.items }
    ensures rings { side_rings (put_ends sides.new.items) ≡ side_rings (put_ends sides.old.items) }
    ensures looked { AllZip PutEndLooked (put_ends sides.old.items) (put_ends sides.new.items) }
    ensures drained { ends.new.items ≡ map drained_end (put_ends sides.new.items) }
{
    for index in 0..sides.len() {
        empty_side(&mut sides[index], &mut ends[index]);
    }
}

/// Drops all entries of a side-file, those in its ring too.
fn empty_side(side: &mut SideFile, end: &mut EntryEnd)
    requires { side.old.end.ring ≡ end.old.ring }
    ensures left { side.new.left ≡ [] }
    ensures fed { side.new.fed ≡ [] }
    ensures room { side.new.room ≡ side.old.room }
    ensures ring { side.new.end.ring ≡ side.old.end.ring }
    ensures looked { PutEndLooked side.old.end side.new.end }
    ensures drained { end.new ≡ drained_end side.new.end }
{
    for _ in 0..side.beside(end) {
        end.pop();
    }
    side.reset();
}
