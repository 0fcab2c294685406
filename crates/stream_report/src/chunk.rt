//! The first line of a chunk.

ghost use Rattle.std.specs.Prelude.{◌≡◌, ◌++◌, IfOk, OnOk, string_bytes};
ghost use Rattle.chunk_grammar.specs.declared.chunk.Chunk.TheVariants.{StreamHeader, ClockOffset};
ghost use Rattle.stream_report.specs.Words.{double_word};
ghost use Rattle.stream_report.specs.Parts.{first_line};

use crate::line::Line;
use chunk_grammar::Chunk;
use rec_base::{Blob, Memory};
use sample_values::format_name;
use shape_pattern::find_shape;
use std::alloc::Global;

// The line of a stream header, with the shape where its document tells one.
fn header_line(alloc: Global, at: u64, id: u32, doc: &Blob) -> Result<String, Memory>
    ensures { IfOk result (λ line. string_bytes line ≡ first_line at (StreamHeader id doc.now)) }
{
    let bytes = doc.bytes().len();
    match find_shape(doc.bytes()) {
        Ok(shape) => {
            let count = shape.count;
            let name = format_name(shape.format);
            Ok(format!(in alloc;
                "{at} stream-header id {id} channels {count} format {name} bytes {bytes}"
            )?)
        }
        Err(_) => Ok(format!(in alloc; "{at} stream-header id {id} bytes {bytes}")?),
    }
}

// Appends a blank and the sixteen digits of a time.
fn push_time(line: &mut String, alloc: Global, time: u64) -> Result<(), Memory>
    ensures { OnOk result (string_bytes line.new ≡ string_bytes line.old ++ double_word time) }
{
    let mut word = Line::new(alloc);
    word.push_double(time)?;
    line.push_str(word.text())?;
    Ok(())
}

// The line of a clock offset, with the patterns of its two times.
fn offset_line(alloc: Global, at: u64, id: u32, time: u64, offset: u64) -> Result<String, Memory>
    ensures { IfOk result (λ line. string_bytes line ≡ first_line at (ClockOffset id time offset)) }
{
    let mut line = format!(in alloc; "{at} clock-offset id {id} time")?;
    push_time(&mut line, alloc, time)?;
    line.push_str(" offset")?;
    push_time(&mut line, alloc, offset)?;
    Ok(line)
}

/// Makes the first line of a chunk that begins at this byte of the file. Only samples have further
/// lines.
pub(crate) fn chunk_line(alloc: Global, at: u64, chunk: &Chunk) -> Result<String, Memory>
    ensures { IfOk result (λ line. string_bytes line ≡ first_line at chunk.now) }
{
    match chunk {
        Chunk::FileHeader { doc } => {
            let bytes = doc.bytes().len();
            Ok(format!(in alloc; "{at} file-header bytes {bytes}")?)
        }
        Chunk::StreamHeader { id, doc } => header_line(alloc, at, *id, doc),
        Chunk::Samples { id, samples } => {
            let count = samples.len();
            Ok(format!(in alloc; "{at} samples id {id} count {count}")?)
        }
        Chunk::ClockOffset { id, time, offset } => offset_line(alloc, at, *id, *time, *offset),
        Chunk::Boundary => Ok(format!(in alloc; "{at} boundary")?),
        Chunk::StreamFooter { id, doc } => {
            let bytes = doc.bytes().len();
            Ok(format!(in alloc; "{at} stream-footer id {id} bytes {bytes}")?)
        }
        Chunk::Other { tag, body } => {
            let bytes = body.bytes().len();
            Ok(format!(in alloc; "{at} other tag {tag} bytes {bytes}")?)
        }
    }
}
