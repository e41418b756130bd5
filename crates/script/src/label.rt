ghost use Rattle.std.specs.Prelude.{◌≡◌, IfOk, OnOk, true, false};
ghost use Rattle.std.specs.Char.{is_ascii_alphanumeric};
ghost use Rattle.std.specs.List.{list_all};
ghost use Rattle.std.specs.String.{string_bytes};
ghost use Rattle.script.specs.Fields.{is_label};

use crate::record_error::RecordError;
use std::alloc::{AllocError, Global};
use std::marker::Model;

/// The greatest number of characters of a label.
const LABEL_MAX: usize = 16;

/// A name for a transaction, of 1 to 16 ASCII letters and digits. Contracts see its characters.
#[derive(Drop)]
pub struct Label {
    text: String,
}

impl Model for Label {
    ghost use Rattle.std.specs.Prelude.{◌≡◌, ℕ, List, true};
    ghost use Rattle.std.specs.String.{string_bytes};
    ghost use Rattle.script.specs.Fields.{is_label};

    ghost Value = { List ℕ };

    ghost view = { λ label. string_bytes label.text };

    ghost invariant = { λ label. is_label (string_bytes label.text) ≡ true };
}

impl Label {
    /// Reads a label.
    pub fn read(alloc: Global, text: &str) -> Result<Label, RecordError>
        ensures ok { IfOk result (λ label. label ≡ text.now) }
        ensures accepted { OnOk result (is_label text.now ≡ true) }
        ensures refused { result ≡ Err RecordError.Misspelled → is_label text.now ≡ false }
    {
        if !is_label(text) {
            return Err(RecordError::Misspelled);
        }
        let text = String::from_str(alloc, text)?;
        Ok(Label { text })
    }

    pub fn as_str(&self) -> &str
        ensures { result.now ≡ self.now }
    {
        self.text.as_str()
    }

    /// A copy of the text.
    pub fn to_string(&self) -> Result<String, AllocError>
        ensures { IfOk result (λ text. string_bytes text ≡ self.now) }
    {
        self.text.clone()
    }
}

/// Whether the text is one of 1 to 16 ASCII letters and digits.
pub fn is_label(text: &str) -> bool
    ensures { result ≡ is_label text.now }
{
    !text.is_empty() && text.len() <= LABEL_MAX && has_letters_and_digits_only(text)
}

fn has_letters_and_digits_only(text: &str) -> bool
    ensures { result ≡ list_all is_ascii_alphanumeric text.now }
{
    text.as_bytes()
        .iter()
        .all(|byte| byte.is_ascii_alphanumeric())
}
