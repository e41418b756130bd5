/// Where in a list of cells a byte stands.
#[derive(Clone, Copy, PartialEq)]
enum Place {
    /// A cell begins with it.
    CellStart,
    Bare,
    Quoted,
    /// Behind a quote that ends a quoted cell, unless it is the first of two.
    QuoteEnd,
}

impl Place {
    /// The place behind that byte.
    fn after(self, byte: u8) -> Place {
        match (self, byte) {
            (Place::Quoted, b'"') => Place::QuoteEnd,
            (Place::Quoted, _) => Place::Quoted,
            (Place::CellStart | Place::QuoteEnd, b'"') => Place::Quoted,
            (_, b',') => Place::CellStart,
            _ => Place::Bare,
        }
    }
}

/// What stands before and behind the first two points that aren't in quotes.
pub fn parts(text: &str) -> Option<(&str, &str)> {
    let mut place = Place::CellStart;
    for (at, byte) in text.as_bytes().iter().enumerate() {
        if place != Place::Quoted && *byte == b'.' {
            if let Some(parts) = parts_at(text, at) {
                return Some(parts);
            }
        }
        place = place.after(*byte);
    }
    None
}

/// What stands before and behind two points at that place, if these are there.
fn parts_at(text: &str, at: usize) -> Option<(&str, &str)> {
    let from = text.get(..at)?;
    let to = text.get(at..)?.strip_prefix("..")?;
    Some((from, to))
}
