ghost use Rattle.std.specs.Prelude.{◌≡◌, length, drop, min, Some, false, is_err, IfOk};
ghost use Rattle.std.specs.Io.{ReadsAtMost};
ghost use Rattle.std.specs.Io.KnownBytes.{ReadConsumes};
ghost use Rattle.rec_base.specs.Causes.{HasCause};

use crate::copy::copy_front;
use crate::{Blob, Failed, Source};
use std::marker::Model;

/// A source of some bytes in memory, of which no read fails. A read gives as many bytes as fit. It
/// takes no memory. This project's own.
#[derive(Debug, Drop)]
pub struct NeverFails {
    bytes: Blob,
    // how many of them were given
    given: usize,
}

impl Model for NeverFails {
    ghost use Rattle.std.specs.Prelude.{List, ℕ, ◌≤◌, length, drop};

    ghost Value = { List ℕ };

    ghost view = { λ s. drop s.given s.bytes };

    ghost invariant = { λ s. s.given ≤ length s.bytes };
}

impl NeverFails {
    /// A source of these bytes, of which none was read yet.
    pub fn new(bytes: Blob) -> NeverFails
        ensures { result ≡ bytes }
    {
        NeverFails { bytes, given: 0 }
    }
}

impl Source for NeverFails {
    ghost use Rattle.std.specs.Prelude.{Some};

    ghost left = { λ s. Some s };

    ghost faults = { λ s. 0 };

    ghost mark = { λ s. tt };

    fn read(&mut self, buf: &mut [u8]) -> Result<usize, Failed>
        ensures fails { is_err result ≡ false }
        ensures count { IfOk result (λ n. n ≡ min (length self.old) (length buf.new)) }
        ensures left { self.new ≡ drop (length buf.new) self.old }

        ensures bound { ReadsAtMost result buf.new }
        ensures bytes { ReadConsumes (Some self.old) (Some self.new) result buf.new }
        ensures cause { HasCause 0 0 result }
    {
        let n = copy_front(&self.bytes.bytes()[self.given..], buf);
        self.given += n;
        Ok(n)
    }
}
