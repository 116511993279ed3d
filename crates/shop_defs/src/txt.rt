//! A text that contracts see as its bytes.
ghost use Rattle.std.specs.Prelude.{◌≡◌, [], ◌∷◌, ◌++◌, length, string_bytes, IsTrue, ◌↔◌, IfOk};

use crate::copied::{Copied, NoMemory};
use std::alloc::Global;
use std::marker::Model;

/// A `String` whose place in memory and spare room no contract sees.
///
/// It copies by its bytes, which are UTF-8.
#[derive(Drop)]
pub struct Txt {
    text: String,
}

impl Model for Txt {
    ghost use Rattle.std.specs.Prelude.{List, ℕ, string_bytes};

    ghost Value = { List ℕ };

    ghost view = { λ t. string_bytes t.text };
}

impl Txt {
    /// The text of a `String`. It takes no memory.
    pub fn from_string(text: String) -> Txt
        ensures { result ≡ string_bytes text }
    {
        Txt { text }
    }

    /// The text, as the `String` that holds it. It takes no memory.
    pub fn into_string(self) -> String
        ensures { string_bytes result ≡ self }
    {
        let Txt { text } = self;
        text
    }

    /// A text of its own with the bytes of `text`. Want of memory is the only error.
    pub fn from_str(alloc: Global, text: &str) -> Result<Txt, NoMemory>
        ensures { IfOk result (λ t. t ≡ text.now) }
    {
        Ok(Txt {
            text: String::from_str(alloc, text)?,
        })
    }

    /// The text.
    pub fn as_str(&self) -> &str
        ensures { result.now ≡ self.now }
    {
        self.text.as_str()
    }

    /// The bytes of the text.
    pub fn as_bytes(&self) -> &[u8]
        ensures { result.now ≡ self.now }
    {
        self.text.as_bytes()
    }

    /// How many bytes the text has.
    pub fn len(&self) -> usize
        ensures { result ≡ length self.now }
    {
        self.text.len()
    }

    /// Whether the text has no bytes.
    pub fn is_empty(&self) -> bool
        ensures { IsTrue result ↔ (self.now ≡ []) }
    {
        self.text.is_empty()
    }
}

impl Copied for Txt {
    fn copy(&self, alloc: Global) -> Result<Txt, NoMemory> {
        Txt::from_str(alloc, self.as_str())
    }
}
