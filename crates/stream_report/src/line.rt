//! A line under way.

ghost use Rattle.std.specs.Prelude.{◌≡◌, ◌≤◌, ◌+◌, ◌∷◌, ◌++◌, [], length, take, OnOk, IsAscii, codes};
ghost use Rattle.std.specs.List.{flat_map};
ghost use Rattle.std.specs.Fmt.{decimal};
ghost use Rattle.report_model.specs.Lines.{hex_digits};
ghost use Rattle.stream_report.specs.Words.{double_word};

use crate::places::{put_bytes, put_eight};
use itoa::Buffer;
use rec_base::Memory;
use std::alloc::Global;
use std::marker::Model;
use std::str;

// The least that the buffer grows to.
const LEAST: usize = 256;

/// A line that is being made, in ASCII. Contracts see its bytes.
#[derive(Debug, Drop)]
pub(crate) struct Line {
    // the line's bytes, and places for more behind them
    bytes: Vec<u8>,
    len: usize,
}

impl Model for Line {
    ghost use Rattle.std.specs.Prelude.{◌≤◌, List, ℕ, length, take, IsAscii};

    ghost Value = { List ℕ };

    ghost view = { λ l. take l.len l.bytes.items };

    ghost invariant = { λ l. (l.len ≤ length l.bytes.items) × IsAscii (take l.len l.bytes.items) };
}

// Makes the bytes longer, so that there are so many places behind the first `at`.
#[cold]
fn grow(bytes: &mut Vec<u8>, at: usize, more: usize) -> Result<(), Memory>
    requires { at ≤ length bytes.old.items }
    ensures room { OnOk result (at + more ≤ length bytes.new.items) }
    ensures len { at ≤ length bytes.new.items }
    ensures keeps { take at bytes.new.items ≡ take at bytes.old.items }
{
    let Some(least) = at.checked_add(more) else {
        return Err(Memory);
    };
    let twice = bytes.len().saturating_mul(2);
    bytes.resize(least.max(twice).max(LEAST), b' ')?;
    Ok(())
}

#[inline]
fn make_room(bytes: &mut Vec<u8>, at: usize, more: usize) -> Result<(), Memory>
    requires { at ≤ length bytes.old.items }
    ensures room { OnOk result (at + more ≤ length bytes.new.items) }
    ensures len { at ≤ length bytes.new.items }
    ensures keeps { take at bytes.new.items ≡ take at bytes.old.items }
{
    if bytes.len() - at < more {
        grow(bytes, at, more)
    } else {
        Ok(())
    }
}

// A blank and eight digits.
#[inline]
fn put_float(out: &mut [u8], bits: u64)
    requires { length out.old ≡ 9 }
    ensures word { out.new ≡ 32 ∷ hex_digits 8 bits }
    ensures ascii { IsAscii out.new }
{
    let (blank, digits) = out.split_at_mut(1);
    blank[0] = b' ';
    put_eight(digits, bits);
}

// A blank and sixteen digits.
#[inline]
fn put_double(out: &mut [u8], bits: u64)
    requires { length out.old ≡ 17 }
    ensures word { out.new ≡ double_word bits }
    ensures ascii { IsAscii out.new }
{
    let (front, back) = out.split_at_mut(9);
    put_float(front, bits >> 32);
    put_eight(back, bits);
}

impl Line {
    /// An empty line.
    pub(crate) fn new(alloc: Global) -> Line
        ensures { result ≡ [] }
    {
        Line {
            bytes: Vec::new(alloc),
            len: 0,
        }
    }

    /// Empties the line, and keeps its memory.
    pub(crate) fn clear(&mut self)
        ensures { self.new ≡ [] }
    {
        self.len = 0;
    }

    /// The line.
    pub(crate) fn text(&self) -> &str
        ensures { result.now ≡ self.now }
    {
        unsafe { str::from_utf8_unchecked(&self.bytes[..self.len]) }
    }

    /// Appends bytes in ASCII.
    #[inline]
    pub(crate) fn push_ascii(&mut self, text: &[u8]) -> Result<(), Memory>
        requires { IsAscii text.now }
        ensures { OnOk result (self.new ≡ self.old ++ text.now) }
    {
        let at = self.len;
        make_room(&mut self.bytes, at, text.len())?;
        self.bytes[at..at + text.len()].copy_from_slice(text);
        self.len = at + text.len();
        Ok(())
    }

    /// Appends a blank and the last eight digits of a number.
    #[inline]
    pub(crate) fn push_float(&mut self, bits: u64) -> Result<(), Memory>
        ensures { OnOk result (self.new ≡ self.old ++ 32 ∷ hex_digits 8 bits) }
    {
        let at = self.len;
        make_room(&mut self.bytes, at, 9)?;
        put_float(&mut self.bytes[at..at + 9], bits);
        self.len = at + 9;
        Ok(())
    }

    /// Appends a blank and the sixteen digits of a number.
    #[inline]
    pub(crate) fn push_double(&mut self, bits: u64) -> Result<(), Memory>
        ensures { OnOk result (self.new ≡ self.old ++ double_word bits) }
    {
        let at = self.len;
        make_room(&mut self.bytes, at, 17)?;
        put_double(&mut self.bytes[at..at + 17], bits);
        self.len = at + 17;
        Ok(())
    }

    /// Appends two digits for each byte.
    #[inline]
    pub(crate) fn push_bytes(&mut self, bytes: &[u8]) -> Result<(), Memory>
        ensures { OnOk result (self.new ≡ self.old ++ flat_map (hex_digits 2) bytes.now) }
    {
        let Some(more) = bytes.len().checked_mul(2) else {
            return Err(Memory);
        };
        let at = self.len;
        make_room(&mut self.bytes, at, more)?;
        put_bytes(&mut self.bytes[at..at + more], bytes);
        self.len = at + more;
        Ok(())
    }

    /// Appends a number in decimal digits.
    #[inline]
    pub(crate) fn push_decimal(&mut self, number: u64) -> Result<(), Memory>
        ensures { OnOk result (self.new ≡ self.old ++ decimal number) }
    {
        let mut buffer = Buffer::new();
        self.push_ascii(buffer.format(number).as_bytes())
    }
}
