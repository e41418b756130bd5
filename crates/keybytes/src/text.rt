ghost use Rattle.std.specs.Prelude.{◌≡◌, length, IfOk, IfErr, IsUtf8};
ghost use Rattle.std.specs.String.{string_bytes};

use crate::Fault;
use std::marker::Model;

/// The text of a cell. Contracts see its bytes, which are UTF-8.
pub struct Text {
    string: String,
}

impl Drop for Text {
    fn drop(self) {
        let Text { string: _ } = self;
    }
}

impl Model for Text {
    ghost use Rattle.std.specs.Prelude.{List, ℕ};
    ghost use Rattle.std.specs.String.{string_bytes};

    ghost Value = { List ℕ };

    ghost view = { λ text. string_bytes text.string };
}

impl Text {
    /// Takes the string over as it is, however long; takes no memory.
    pub fn new(string: String) -> Text
        ensures { result ≡ string_bytes string }
    {
        Text { string }
    }

    pub fn as_str(&self) -> &str
        ensures bytes { result.now ≡ self.now }
        ensures utf8 { IsUtf8 self.now }
    {
        self.string.as_str()
    }

    /// Gives the string back; takes no memory.
    pub fn into_string(self) -> String
        ensures { string_bytes result ≡ self }
    {
        let Text { string } = self;
        string
    }

    /// A copy, or [`Fault::Memory`].
    pub fn clone(&self) -> Result<Text, Fault>
        ensures same { IfOk result (λ text. text ≡ self.now) }
        ensures memory { IfErr result (λ fault. fault ≡ Fault.Memory) }
    {
        let string = self.string.clone()?;
        Ok(Text { string })
    }
}
