ghost use Rattle.std.specs.Prelude.{◌≡◌, ◌≤◌, IfSome};
ghost use Rattle.bench.specs.Columns.{AreMeasured, key_size, kind_of};

use keybytes::Kind;

/// The most bytes of a text in a row.
const TEXT_MAX: u8 = 100;

/// What a column of the table that is measured is filled with.
#[derive(Drop)]
pub enum Values {
    /// Numbers of 64 bits.
    Int,
    /// Numbers from 0 to below that one.
    IntBelow(u32),
    /// Texts of that many bytes, of which so many at the front are the same in all.
    Text { length: u8, front: u8 },
}

impl Values {
    /// Reads `int`, `int:` with a number from 1, or `text:` with a number of bytes from 1 to 100, as many as a row's text may have, and where a
    /// colon stands behind it, how many of them are the same in all.
    pub fn parse(text: &str) -> Option<Values>
        ensures { IfSome result AreMeasured }
    {
        match text.split_once(':') {
            None if text == "int" => Some(Values::Int),
            Some(("int", limit)) => match limit.parse() {
                Ok(limit) if limit > 0 => Some(Values::IntBelow(limit)),
                _ => None,
            },
            Some(("text", lengths)) => texts(lengths),
            _ => None,
        }
    }

    /// What its cells are.
    pub fn kind(&self) -> Kind
        ensures { result ≡ kind_of self.now }
    {
        match self {
            Values::Int | Values::IntBelow(_) => Kind::Int,
            Values::Text { .. } => Kind::Text,
        }
    }

    /// The number of bytes of its cells in a key: a tag, and the number or the text with its two bytes of end mark.
    pub fn key_size(&self) -> usize
        ensures size { result ≡ key_size self.now }
        ensures limit { result ≤ 258 }
    {
        match self {
            Values::Int | Values::IntBelow(_) => 9,
            Values::Text { length, .. } => usize::from(*length) + 3,
        }
    }
}

fn texts(lengths: &str) -> Option<Values>
    ensures { IfSome result AreMeasured }
{
    let (length, front) = lengths.split_once(':').unwrap_or((lengths, "0"));
    match (length.parse(), front.parse()) {
        (Ok(length), Ok(front)) if length >= 1 && length <= TEXT_MAX && front <= length => {
            Some(Values::Text { length, front })
        }
        _ => None,
    }
}
