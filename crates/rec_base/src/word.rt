ghost use Rattle.std.specs.Prelude.{◌≡◌, IfOk};
ghost use Rattle.std.specs.Str.{IsUtf8};

use crate::Memory;
use std::alloc::Global;
use std::marker::Model;

/// Text in UTF-8 that is owned. Contracts see the list of its bytes.
#[derive(Debug, Drop)]
pub struct Word {
    text: String,
}

impl Model for Word {
    ghost use Rattle.std.specs.Prelude.{List, ℕ, string_bytes};
    ghost use Rattle.std.specs.Str.{IsUtf8};

    ghost Value = { List ℕ };

    ghost view = { λ w. string_bytes w.text };

    ghost invariant = { λ w. IsUtf8 (string_bytes w.text) };
}

impl Word {
    /// A copy of bytes that are text, or `Memory` where there is no room for it. Whoever has only bytes
    /// asks `str::from_utf8` first.
    pub fn from_bytes(alloc: Global, bytes: &[u8]) -> Result<Word, Memory>
        requires { IsUtf8 bytes.now }
        ensures { IfOk result (λ word. word ≡ bytes.now) }
    {
        let bytes = bytes.to_vec(alloc)?;
        let text = unsafe { String::from_utf8_unchecked(bytes) };
        Ok(Word { text })
    }

    pub fn bytes(&self) -> &[u8]
        ensures bytes { result.now ≡ self.now }
        ensures utf8 { IsUtf8 self.now }
    {
        self.text.as_bytes()
    }

    pub fn text(&self) -> &str
        ensures { result.now ≡ self.now }
    {
        self.text.as_str()
    }
}
