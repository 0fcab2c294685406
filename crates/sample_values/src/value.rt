//! Values where they lie, one after the other.

ghost use Rattle.std.specs.Prelude.{◌≡◌, ◌++◌, ◌<◌, ◌/◌, [], None, Ok, length, map, option_to_list, IfSome};
ghost use Rattle.xdf_model.specs.Reading.{many_at};
ghost use Rattle.xdf_model.specs.Sample.{size_of, value_at};
ghost use Rattle.sample_values.specs.Numbers.{numbers_in};
ghost use Rattle.sample_values.specs.View.{seen_value, value_of};
ghost use Rattle.sample_values.specs.Raw.{listed, IsAll};

use crate::raw_value::read_value;
use crate::sample::Held;
use crate::size::size_of_format;
use std::marker::Model;
use xdf_model::Format;

/// A value that stands elsewhere: the pattern of a number, or the bytes of a text.
#[derive(Clone, Copy, Debug, PartialEq, Eq)]
pub enum ValueView<'a> {
    Number(u64),
    Text(&'a [u8]),
}

// Values of a format that stand in bytes, and take all of them.
#[derive(Debug, Drop)]
struct RawValues<'a> {
    format: Format,
    left: usize,
    rest: &'a [u8],
}

impl<'a> Model for RawValues<'a> {
    ghost use Rattle.std.specs.Prelude.{List};
    ghost use Rattle.xdf_model.specs.Reading.{many_at};
    ghost use Rattle.xdf_model.specs.Sample.{Value as SampleValue, size_of, value_at};
    ghost use Rattle.sample_values.specs.Raw.{listed, IsAll};

    ghost Value = { List SampleValue };

    ghost view = { λ w. listed (many_at (value_at (size_of w.format)) w.left w.rest.now) };

    ghost invariant = { λ w. IsAll (many_at (value_at (size_of w.format)) w.left w.rest.now) };
}

impl<'a> RawValues<'a> {
    #[inline(always)]
    fn next(&mut self) -> Option<ValueView<'a>>
        ensures gives { self.old ≡ map seen_value (option_to_list result) ++ self.new }
        ensures end { result ≡ None → self.old ≡ [] }
    {
        if self.left == 0 {
            return None;
        }
        let Ok((value, rest)) = read_value(self.format, self.rest) else {
            unreachable!();
        };
        self.rest = rest;
        self.left -= 1;
        Some(value)
    }

    fn numbers(&self, size: u8) -> Option<&'a [u8]>
        requires { 0 < size }
        ensures { IfSome result (λ b. self.now ≡ numbers_in size (length b.now / size) b.now) }
    {
        if size_of_format(self.format) == size {
            Some(self.rest)
        } else {
            None
        }
    }
}

#[derive(Debug, Drop)]
enum Rest<'a> {
    Kept(&'a [Held]),
    Raw(RawValues<'a>),
}

/// The values of a sample that are still to come, in the order of the channels. Contracts see the
/// list of them. Each byte is looked at once, and none is copied.
#[derive(Debug, Drop)]
pub struct ValueWalk<'a> {
    rest: Rest<'a>,
}

impl<'a> Model for ValueWalk<'a> {
    ghost use Rattle.std.specs.Prelude.{List};
    ghost use Rattle.xdf_model.specs.Sample.{Value as SampleValue};

    ghost Value = { List SampleValue };

    ghost use Rattle.sample_values.specs.Kinds.{values_of};

    ghost view = { λ w. values_of w.rest };
}

fn next_kept<'a>(values: &mut &'a [Held]) -> Option<ValueView<'a>>
    ensures gives { map value_of values.old.now ≡ map seen_value (option_to_list result) ++ map value_of values.new.now }
    ensures end { result ≡ None → values.old.now ≡ [] }
{
    match *values {
        [] => None,
        [first, rest @ ..] => {
            *values = rest;
            match first {
                Held::Number(bits) => Some(ValueView::Number(*bits)),
                Held::Text(text) => Some(ValueView::Text(text)),
            }
        }
    }
}

impl<'a> ValueWalk<'a> {
    pub(crate) fn kept(values: &'a [Held]) -> ValueWalk<'a>
        ensures { result ≡ map value_of values.now }
    {
        ValueWalk {
            rest: Rest::Kept(values),
        }
    }

    // So many values of a format, which take all the bytes.
    pub(crate) fn raw(format: Format, count: usize, bytes: &'a [u8]) -> ValueWalk<'a>
        requires { IsAll (many_at (value_at (size_of format)) count bytes.now) }
        ensures { result ≡ listed (many_at (value_at (size_of format)) count bytes.now) }
    {
        let values = RawValues {
            format,
            left: count,
            rest: bytes,
        };
        ValueWalk {
            rest: Rest::Raw(values),
        }
    }

    /// The next value, or `None` where none is left.
    #[inline(always)]
    pub fn next(&mut self) -> Option<ValueView<'a>>
        ensures gives { self.old ≡ map seen_value (option_to_list result) ++ self.new }
        ensures end { result ≡ None → self.old ≡ [] }
    {
        match &mut self.rest {
            Rest::Kept(values) => next_kept(values),
            Rest::Raw(values) => values.next(),
        }
    }

    /// The bytes of all values still to come, where these are numbers of this size that lie together,
    /// each with its lowest byte first.
    pub fn numbers(&self, size: u8) -> Option<&'a [u8]>
        requires { 0 < size }
        ensures { IfSome result (λ b. self.now ≡ numbers_in size (length b.now / size) b.now) }
    {
        match &self.rest {
            Rest::Kept(_) => None,
            Rest::Raw(values) => values.numbers(size),
        }
    }
}
