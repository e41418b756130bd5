use std::marker::Brand;

/// Names one load, by its streams.
pub(crate) trait Loading {
    ghost use Rattle.std.specs.Prelude.{List};
    ghost use Rattle.keybytes.specs.declared.pair.Pair.{Pair};

    /// All that each sender is to put, in order.
    ghost streams: { List (List Pair) };
}

impl Loading for Brand {
    ghost use Rattle.std.specs.Prelude.{[]};

    ghost streams = { [] };
}
