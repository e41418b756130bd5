ghost use Rattle.std.specs.Prelude.{◌≡◌};
ghost use Rattle.bench.specs.Columns.{condition_of};

use keybytes::{Cell, When};

/// What the indexes ask of a row, if they don't take each: that its number in one column, counted from 0, is below a number, or that it is that one.
#[derive(Drop)]
pub struct Condition {
    pub column: usize,
    pub is_below: bool,
    pub number: i64,
}

impl Condition {
    /// Reads the number of a column, `<` or `=`, and a number.
    pub fn parse(text: &str) -> Option<Condition> {
        let is_below = text.contains('<');
        let (column, number) = text.split_once(if is_below { '<' } else { '=' })?;
        match (column.parse(), number.parse()) {
            (Ok(column), Ok(number)) => Some(Condition {
                column,
                is_below,
                number,
            }),
            _ => None,
        }
    }

    /// The same, as key specifications have it.
    pub fn when(&self) -> When
        ensures { result ≡ condition_of self.now }
    {
        let number = Cell::Int(self.number);
        if self.is_below {
            When::Less(self.column, number)
        } else {
            When::Equal(self.column, number)
        }
    }
}
