//! The line of a sample.

ghost use Rattle.std.specs.Prelude.{◌≡◌, ◌++◌, ◌∷◌, ◌/◌, length, OnOk};
ghost use Rattle.std.specs.List.{flat_map};
ghost use Rattle.xdf_model.specs.declared.types.Format.TheVariants.{Float32, Double64};
ghost use Rattle.sample_values.specs.Numbers.{numbers_in};
ghost use Rattle.report_model.specs.Lines.{sample_line, value_word};

use crate::line::Line;
use crate::words::{begin_line, push_value};
use byteorder::{ByteOrder, LittleEndian};
use rec_base::Memory;
use sample_values::{Format, SampleView, ValueWalk};

// Appends each number of four bytes as a float, behind a blank.
fn push_floats(line: &mut Line, bytes: &[u8]) -> Result<(), Memory>
    ensures { OnOk result (line.new ≡ line.old ++ flat_map (λ v. 32 ∷ value_word Float32 v) (numbers_in 4 (length bytes.now / 4) bytes.now)) }
{
    let mut rest = bytes;
    while rest.len() >= 4 {
        line.push_float(LittleEndian::read_u32(rest) as u64)?;
        let (_, behind) = rest.split_at(4);
        rest = behind;
    }
    Ok(())
}

// Appends each number of eight bytes as a double, behind a blank.
#[tactic(auto, unfolding(crate::specs::Words::double_word))]
fn push_doubles(line: &mut Line, bytes: &[u8]) -> Result<(), Memory>
    ensures { OnOk result (line.new ≡ line.old ++ flat_map (λ v. 32 ∷ value_word Double64 v) (numbers_in 8 (length bytes.now / 8) bytes.now)) }
{
    let mut rest = bytes;
    while rest.len() >= 8 {
        line.push_double(LittleEndian::read_u64(rest))?;
        let (_, behind) = rest.split_at(8);
        rest = behind;
    }
    Ok(())
}

// Appends each value of a walk, behind a blank.
fn push_each(line: &mut Line, format: Format, values: ValueWalk<'_>) -> Result<(), Memory>
    ensures { OnOk result (line.new ≡ line.old ++ flat_map (λ v. 32 ∷ value_word format v) values.entry) }
{
    let mut rest = values;
    while let Some(value) = rest.next() {
        push_value(line, format, value)?;
    }
    Ok(())
}

// Appends all values of a walk, each behind a blank. Floats that lie together are made at once.
fn push_values(line: &mut Line, format: Format, values: ValueWalk<'_>) -> Result<(), Memory>
    ensures { OnOk result (line.new ≡ line.old ++ flat_map (λ v. 32 ∷ value_word format v) values.entry) }
{
    match format {
        Format::Float32 => match values.numbers(4) {
            Some(bytes) => push_floats(line, bytes),
            None => push_each(line, format, values),
        },
        Format::Double64 => match values.numbers(8) {
            Some(bytes) => push_doubles(line, bytes),
            None => push_each(line, format, values),
        },
        _ => push_each(line, format, values),
    }
}

/// Makes the line of a sample, in place of what stood in the buffer. At `Memory` the buffer holds
/// some front of it.
pub(crate) fn put_sample_line(
    line: &mut Line,
    format: Format,
    sample: &SampleView<'_>,
) -> Result<(), Memory>
    ensures { OnOk result (line.new ≡ sample_line format sample.now) }
{
    begin_line(line, sample.stamp())?;
    push_values(line, format, sample.values())
}
