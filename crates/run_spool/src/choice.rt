ghost use Rattle.std.specs.Prelude.{◌≡◌};
ghost use Rattle.run_spool.specs.Choices.{kind_at};

use spool_ledger::SpoolKind;

/// The kinds of the spools of a build.
#[derive(Clone, Copy)]
pub enum SpoolChoice {
    /// All are plain.
    Plain,
    /// All are prefix spools.
    Prefix,
    /// Those with even numbers, from 0, are plain, the others prefix spools.
    Mixed,
}

impl SpoolChoice {
    /// The kind of the spool of that number, from 0.
    pub fn kind_at(self, number: usize) -> SpoolKind
        ensures { result ≡ kind_at self number }
    {
        match self {
            SpoolChoice::Plain => SpoolKind::Plain,
            SpoolChoice::Prefix => SpoolKind::Prefix,
            SpoolChoice::Mixed => {
                if number % 2 == 0 {
                    SpoolKind::Plain
                } else {
                    SpoolKind::Prefix
                }
            }
        }
    }
}
