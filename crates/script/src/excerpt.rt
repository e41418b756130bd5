use std::fmt;

/// How many characters of a text are shown.
const SHOWN_MAX: usize = 40;

/// The beginning of a text, in quotes.
#[derive(Drop)]
pub struct Excerpt<'a>(pub &'a str);

impl fmt::Display for Excerpt<'_> {
    fn fmt<W: fmt::Write>(&self, f: &mut fmt::Formatter<W>) -> fmt::Result {
        f.write_str("\"")?;
        for character in self.0.chars().take(SHOWN_MAX) {
            let character = character.escape_debug();
            write!(f, "{character}")?;
        }
        let is_cut = self.0.chars().nth(SHOWN_MAX).is_some();
        f.write_str(if is_cut { "..\"" } else { "\"" })
    }
}
