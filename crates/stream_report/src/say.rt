//! Says the lines of a chunk.

ghost use Rattle.std.specs.Prelude.{◌≡◌, ◌≤◌, ◌⊎◌, ℕ, List, map, take, OnOk, OnErr, IsErrOf};
ghost use Rattle.std.specs.Io.KnownBytes.{Appends};
ghost use Rattle.rec_base.specs.Causes.{Blames, Rose};
ghost use Rattle.rec_base.specs.Known.{AppendsFront, printed_line};
ghost use Rattle.report_model.specs.Lines.{chunk_lines, sample_line};
ghost use Rattle.report_model.specs.Shown.{printed_lines};
ghost use Rattle.stream_report.specs.Parts.{later_lines};

use crate::chunk::chunk_line;
use crate::fault::SayFault;
use crate::line::Line;
use crate::sample_line::put_sample_line;
use chunk_grammar::{Chunk, Context, SampleList};
use rec_base::{Failed, Lines};
use sample_values::{Format, SampleView};
use std::alloc::Global;

/// Says one line.
pub(crate) fn say_line<L: Lines>(lines: &mut L, line: &str) -> Result<(), SayFault>
    ensures said { OnOk result (Appends (L.printed lines.old) (L.printed lines.new) (printed_line line.now)) }
    ensures print { OnErr result (AppendsFront (L.printed lines.old) (L.printed lines.new) (printed_line line.now)
        × Rose (L.print_faults lines.old) (L.print_faults lines.new)) }
    ensures none_else { OnErr result (IsErrOf result SayFault.Print) }
    ensures cause { Blames (IsErrOf result SayFault.Print) (L.print_faults lines.old) (L.print_faults lines.new) }
    ensures rest { L.rest lines.new ≡ L.rest lines.old }
{
    match lines.say(line) {
        Ok(()) => Ok(()),
        Err(Failed) => Err(SayFault::Print),
    }
}

// Says the line of a sample, which is made in the buffer.
fn say_sample<L: Lines>(
    lines: &mut L,
    line: &mut Line,
    format: Format,
    sample: &SampleView<'_>,
) -> Result<(), SayFault>
    ensures said { OnOk result (Appends (L.printed lines.old) (L.printed lines.new) (printed_line (sample_line format sample.now))) }
    ensures print { IsErrOf result SayFault.Print → AppendsFront (L.printed lines.old) (L.printed lines.new) (printed_line (sample_line format sample.now))
        × Rose (L.print_faults lines.old) (L.print_faults lines.new) }
    ensures memory { IsErrOf result SayFault.Memory → L.printed lines.new ≡ L.printed lines.old }
    ensures none_else { OnErr result (IsErrOf result SayFault.Print ⊎ IsErrOf result SayFault.Memory) }
    ensures cause { Blames (IsErrOf result SayFault.Print) (L.print_faults lines.old) (L.print_faults lines.new) }
    ensures rest { L.rest lines.new ≡ L.rest lines.old }
{
    put_sample_line(line, format, sample)?;
    say_line(lines, line.text())
}

// Says a line for each sample. One buffer serves for all of them.
fn say_samples<L: Lines>(
    alloc: Global,
    lines: &mut L,
    format: Format,
    samples: &SampleList,
) -> Result<(), SayFault>
    ensures said { OnOk result (Appends (L.printed lines.old) (L.printed lines.new) (printed_lines (map (sample_line format) samples.now))) }
    ensures print { IsErrOf result SayFault.Print → AppendsFront (L.printed lines.old) (L.printed lines.new) (printed_lines (map (sample_line format) samples.now))
        × Rose (L.print_faults lines.old) (L.print_faults lines.new) }
    ensures memory { IsErrOf result SayFault.Memory → (n : ℕ) × Appends (L.printed lines.old) (L.printed lines.new) (printed_lines (take n (map (sample_line format) samples.now))) }
    ensures none_else { OnErr result (IsErrOf result SayFault.Print ⊎ IsErrOf result SayFault.Memory) }
    ensures cause { Blames (IsErrOf result SayFault.Print) (L.print_faults lines.old) (L.print_faults lines.new) }
    ensures rest { L.rest lines.new ≡ L.rest lines.old }
{
    let mut line = Line::new(alloc);
    let mut walk = samples.walk();
    while let Some(sample) = walk.next() {
        say_sample(lines, &mut line, format, &sample)?;
    }
    Ok(())
}

/// Says the lines behind the first one, which only samples have.
pub(crate) fn say_later<L: Lines>(
    alloc: Global,
    lines: &mut L,
    ctx: &Context,
    chunk: &Chunk,
) -> Result<(), SayFault>
    ensures said { OnOk result (Appends (L.printed lines.old) (L.printed lines.new) (printed_lines (later_lines ctx.now chunk.now))) }
    ensures print { IsErrOf result SayFault.Print → AppendsFront (L.printed lines.old) (L.printed lines.new) (printed_lines (later_lines ctx.now chunk.now))
        × Rose (L.print_faults lines.old) (L.print_faults lines.new) }
    ensures memory { IsErrOf result SayFault.Memory → (n : ℕ) × Appends (L.printed lines.old) (L.printed lines.new) (printed_lines (take n (later_lines ctx.now chunk.now))) }
    ensures none_else { OnErr result (IsErrOf result SayFault.Print ⊎ IsErrOf result SayFault.Memory) }
    ensures cause { Blames (IsErrOf result SayFault.Print) (L.print_faults lines.old) (L.print_faults lines.new) }
    ensures rest { L.rest lines.new ≡ L.rest lines.old }
{
    match chunk {
        Chunk::Samples { id, samples } => match ctx.shape_of(*id) {
            Some(shape) => say_samples(alloc, lines, shape.format, samples),
            None => Ok(()),
        },
        _ => Ok(()),
    }
}

/// Says the lines of a chunk that begins at this byte of the file, in the context of the streams
/// before it. What the lines are is this project's own.
///
/// - First comes a line with the place, the kind, and what the kind has: the stream's id, the length
///   of a document or a body, the number of samples, the two times of an offset. A stream header's
///   line has the stream's shape too, where its document tells one.
/// - Behind a `samples` line comes a line for each sample, in order: its stamp or `none`, and its
///   values, by the format of its stream.
/// - Numbers are decimal, with a `-` where the pattern of an `int` format is of a negative number.
///   Stamps, times and floats are their patterns in hexadecimal digits, the highest first, with
///   nothing rounded. A text is an `x` and two such digits a byte.
///
/// `Print` comes only where `say` failed: a front of the lines was then said, which may end in the
/// midst of one. `Memory` comes for want of memory alone: some of the first lines were then said,
/// each whole, and no others.
pub fn say_chunk<L: Lines>(
    alloc: Global,
    lines: &mut L,
    ctx: &Context,
    at: u64,
    chunk: &Chunk,
) -> Result<(), SayFault>
    ensures said { OnOk result (Appends (L.printed lines.old) (L.printed lines.new) (printed_lines (chunk_lines ctx.now at chunk.now))) }
    ensures print { IsErrOf result SayFault.Print → AppendsFront (L.printed lines.old) (L.printed lines.new) (printed_lines (chunk_lines ctx.now at chunk.now))
        × Rose (L.print_faults lines.old) (L.print_faults lines.new) }
    ensures memory { IsErrOf result SayFault.Memory → (n : ℕ) × Appends (L.printed lines.old) (L.printed lines.new) (printed_lines (take n (chunk_lines ctx.now at chunk.now))) }
    ensures none_else { OnErr result (IsErrOf result SayFault.Print ⊎ IsErrOf result SayFault.Memory) }
    ensures cause { Blames (IsErrOf result SayFault.Print) (L.print_faults lines.old) (L.print_faults lines.new) }
    ensures rest { L.rest lines.new ≡ L.rest lines.old }
{
    let line = chunk_line(alloc, at, chunk)?;
    say_line(lines, line.as_str())?;
    say_later(alloc, lines, ctx, chunk)
}
