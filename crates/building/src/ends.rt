ghost use Rattle.std.specs.Prelude.{◌≡◌, map};
ghost use Rattle.building.specs.Rings.{AreTakeEnds};

use page_workers::{Intake, TableRings};
use side_file::EntryEnd;
use std::marker::{Model, PhantomData};

/// The ends of a table's rings that take, between two builds.
#[derive(Drop)]
pub struct Ends<T: TableRings> {
    pub(crate) intakes: Vec<Intake>,
    pub(crate) side_ends: Vec<EntryEnd>,
    pub(crate) of: PhantomData<T>,
}

impl<T: TableRings> Model for Ends<T> {
    ghost use Rattle.building.specs.BuildingValue.{EndsValue};

    ghost Value = { EndsValue };

    ghost use Rattle.std.specs.Prelude.{map};
    ghost use Rattle.building.specs.Rings.{AreTakeEnds};

    ghost view = { λ ends. record { intakes = ends.intakes.items; sides = ends.side_ends.items } };

    ghost invariant = { λ ends. AreTakeEnds T.pages T.sides ends.intakes.items ends.side_ends.items };
}

impl<T: TableRings> Ends<T> {
    /// The ends of a table's rings that take, of which no build has any.
    pub fn new(intakes: Vec<Intake>, side_ends: Vec<EntryEnd>) -> Ends<T>
        requires { AreTakeEnds T.pages T.sides intakes.items side_ends.items }
        ensures { result ≡ record { intakes = intakes.items; sides = side_ends.items } }
    {
        Ends {
            intakes,
            side_ends,
            of: PhantomData,
        }
    }
}
