use std::marker::Brand;

/// Names one log, so that contracts can tell what is known of it from what is known of another. A program picks a name each time
/// it opens a table.
pub trait Named {
    ghost use Rattle.atomic_table.specs.Seated.{TableId};

    ghost table: { TableId };
}

impl Named for Brand {
    ghost use Rattle.log_prefixes.specs.Knowledge.{no_table};

    ghost table = { no_table };
}
