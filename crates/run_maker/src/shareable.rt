ghost use Rattle.run_maker.specs.Sharing.{SaysTheSame};

/// Knows of a type whether threads may share its values, as they may where it is `Sync`. Every type has it. A struct can keep this
/// fact of a type parameter, which a trait's method needs: there nothing is known of a parameter beside its traits.
pub trait Shareable {
    /// Threads may share the values.
    ghost shared: { Type 0 };

    ghost says: { shared → SaysTheSame Self.row };
}

impl<T> Shareable for T {
    ghost shared = { SaysTheSame T.row };

    ghost says = { λ same. same };
}
