//! Texts that are cut to the room that they have.

use crate::timeline_svg::escape::shown_of;
use std::alloc::{AllocError, Global};
use unicode_width::UnicodeWidthChar;

/// What is drawn of a text.
#[derive(Drop)]
pub struct Fitted {
    pub text: String,
    /// Whether something of it is left out.
    pub is_cut: bool,
}

/// The text, or its beginning and an ellipsis where it takes more than so many columns.
pub fn cut_to(alloc: Global, text: &str, columns: usize) -> Result<Fitted, AllocError> {
    if columns_of(text) <= columns {
        return Ok(Fitted {
            text: String::from_str(alloc, text)?,
            is_cut: false,
        });
    }
    let mut beginning = String::new(alloc);
    push_beginning(&mut beginning, text, columns)?;
    Ok(Fitted {
        text: beginning,
        is_cut: true,
    })
}

/// As much of a text as leaves a column free, and an ellipsis.
fn push_beginning(out: &mut String, text: &str, columns: usize) -> Result<(), AllocError> {
    let mut taken = 1;
    for character in text.chars() {
        taken = columns_of_character(character).saturating_add(taken);
        if taken > columns {
            break;
        }
        out.push(character)?;
    }
    out.push('\u{2026}')
}

/// How many columns a text takes.
pub fn columns_of(text: &str) -> usize {
    let mut columns = 0usize;
    for character in text.chars() {
        columns = columns.saturating_add(columns_of_character(character));
    }
    columns
}

/// How many columns a character takes.
fn columns_of_character(character: char) -> usize {
    shown_of(character).width().unwrap_or(1)
}
