use std::marker::Brand;

/// Names one table, as a type: the rings between it and what stands beside it. So ends of rings that were carried elsewhere are
/// known to be its own when they come back.
pub trait TableRings {
    ghost use Rattle.std.specs.Prelude.{List};
    ghost use Rattle.side_file.specs.Ends.{RingId};

    /// The rings that copies of pages go through, one for each worker.
    ghost pages: { List RingId };

    /// The rings that entries of side-files go through, one for each index.
    ghost sides: { List RingId };
}

impl TableRings for Brand {
    ghost use Rattle.std.specs.Prelude.{[]};

    ghost pages = { [] };

    ghost sides = { [] };
}
