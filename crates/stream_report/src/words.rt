//! The words of a line: stamps and values.

ghost use Rattle.std.specs.Prelude.{◌≡◌, ◌++◌, ◌∷◌, ◌<◌, ◌≤◌, OnOk};
ghost use Rattle.std.specs.List.{flat_map};
ghost use Rattle.sample_values.specs.View.{seen_value};
ghost use Rattle.report_model.specs.Lines.{hex_digits, number_word, signed_decimal, stamp_word, value_word};

use crate::line::Line;
use rec_base::Memory;
use sample_values::{Format, Stamp, ValueView};

// Appends the number that a two's complement pattern of so many bytes stands for, behind a blank. The
// patterns from `half` on are those of the negative numbers.
#[inline]
fn push_signed(line: &mut Line, size: u8, pattern: u64) -> Result<(), Memory>
    requires some { 0 < size }
    requires few { size ≤ 8 }
    ensures { OnOk result (line.new ≡ line.old ++ 32 ∷ signed_decimal size pattern) }
{
    let half = 1u64 << (8 * size - 1);
    if pattern < half {
        line.push_ascii(b" ")?;
        line.push_decimal(pattern)
    } else {
        line.push_ascii(b" -")?;
        // How far the number is below 0; nothing for a pattern of more bytes.
        line.push_decimal(half.saturating_sub(pattern - half))
    }
}

// Appends a number of a format behind a blank, given by its pattern. As a text it has no word.
#[inline]
#[tactic(auto, unfolding(crate::specs::Words::double_word))]
fn push_number(line: &mut Line, format: Format, bits: u64) -> Result<(), Memory>
    ensures { OnOk result (line.new ≡ line.old ++ 32 ∷ number_word format bits) }
{
    match format {
        Format::Float32 => line.push_float(bits),
        Format::Double64 => line.push_double(bits),
        Format::Text => line.push_ascii(b" "),
        Format::Int32 => push_signed(line, 4, bits),
        Format::Int16 => push_signed(line, 2, bits),
        Format::Int8 => push_signed(line, 1, bits),
        Format::Int64 => push_signed(line, 8, bits),
    }
}

// Appends an `x` and two digits for each byte of a text, behind a blank.
#[inline]
fn push_text(line: &mut Line, text: &[u8]) -> Result<(), Memory>
    ensures { OnOk result (line.new ≡ line.old ++ 32 ∷ 120 ∷ flat_map (hex_digits 2) text.now) }
{
    line.push_ascii(b" x")?;
    line.push_bytes(text)
}

/// Appends a value behind a blank, as a value of this format.
#[inline]
pub(crate) fn push_value(
    line: &mut Line,
    format: Format,
    value: ValueView<'_>,
) -> Result<(), Memory>
    ensures { OnOk result (line.new ≡ line.old ++ 32 ∷ value_word format (seen_value value.entry)) }
{
    match value {
        ValueView::Number(bits) => push_number(line, format, bits),
        ValueView::Text(text) => push_text(line, text),
    }
}

/// Begins the line of a sample: two blanks, and the digits of its stamp, or `none`.
#[inline]
#[tactic(auto, unfolding(crate::specs::Words::double_word))]
pub(crate) fn begin_line(line: &mut Line, stamp: Stamp) -> Result<(), Memory>
    ensures { OnOk result (line.new ≡ 32 ∷ 32 ∷ stamp_word stamp) }
{
    line.clear();
    match stamp {
        Stamp::None => line.push_ascii(b"  none"),
        Stamp::Bits(bits) => {
            line.push_ascii(b" ")?;
            line.push_double(bits)
        }
    }
}
