//! Texts as XML has them.
ghost use Rattle.std.specs.Prelude.{◌≡◌, ◌++◌, OnOk, chars};
ghost use Rattle.std.specs.String.{string_bytes};
ghost use Rattle.picture.specs.Escapes.{escape, escaped, shown};

use std::alloc::AllocError;

/// Puts a text behind what is there, as it stands between tags or in an attribute.
pub fn push_escaped(out: &mut String, text: &str) -> Result<(), AllocError>
    ensures { OnOk result (string_bytes out.new ≡ string_bytes out.old ++ escaped (chars text.now)) }
{
    for character in text.chars() {
        push_character(out, shown_of(character))?;
    }
    Ok(())
}

fn push_character(out: &mut String, character: char) -> Result<(), AllocError>
    ensures { OnOk result (string_bytes out.new ≡ string_bytes out.old ++ escape character) }
{
    match character {
        '&' => out.push_str("&amp;"),
        '<' => out.push_str("&lt;"),
        '>' => out.push_str("&gt;"),
        '"' => out.push_str("&quot;"),
        '\'' => out.push_str("&apos;"),
        _ => out.push(character),
    }
}

/// What is shown of a character: itself, or a sign in its place where it is a control character, ends a line, turns the direction of the text, or is none
/// that XML has.
pub fn shown_of(character: char) -> char
    ensures { result ≡ shown character }
{
    match character {
        '\t' => '\u{2409}',
        '\n' => '\u{240a}',
        '\r' => '\u{240d}',
        '\u{0}'..='\u{1f}' | '\u{7f}'..='\u{9f}' | '\u{fffe}'..='\u{ffff}' => '\u{fffd}',
        '\u{61c}' | '\u{200e}'..='\u{200f}' => '\u{fffd}',
        '\u{2028}'..='\u{202e}' | '\u{2066}'..='\u{2069}' => '\u{fffd}',
        _ => character,
    }
}
