//! What is to be noted of a chunk by itself.

ghost use Rattle.std.specs.Prelude.{◌≡◌};
ghost use Rattle.std.specs.List.{list_any};
ghost use Rattle.std.specs.Str.{is_utf8};
ghost use Rattle.sample_values.specs.View.{seen_value};
ghost use Rattle.report_model.specs.Notes as notes;

use chunk_grammar::{Chunk, SampleList};
use sample_values::{SampleView, ValueView};
use shape_pattern::behind;

// The version that is known (XDF 1.0, "FileHeader chunk").
const VERSION: &[u8] = b"<version>1.0</version>";

// Most texts are ASCII, which is told at less cost than by blocks of 64 bytes, into which a short text
// is copied.
fn is_text(bytes: &[u8]) -> bool
    ensures { result ≡ is_utf8 bytes.now }
{
    bytes.is_ascii() || simdutf8::is_utf8(bytes)
}

/// Whether it is the chunk that begins a file.
pub(crate) fn is_file_header(chunk: &Chunk) -> bool
    ensures { result ≡ notes.is_file_header chunk.now }
{
    matches!(chunk, Chunk::FileHeader { .. })
}

/// Whether it is a file header without the version that is known.
pub(crate) fn is_unversioned(chunk: &Chunk) -> bool
    ensures { result ≡ notes.is_unversioned chunk.now }
{
    match chunk {
        Chunk::FileHeader { doc } => behind(VERSION, doc.bytes()).is_none(),
        _ => false,
    }
}

/// Whether its document isn't UTF-8.
pub(crate) fn has_broken_document(chunk: &Chunk) -> bool
    ensures { result ≡ notes.has_broken_document chunk.now }
{
    match chunk {
        Chunk::FileHeader { doc }
        | Chunk::StreamHeader { id: _, doc }
        | Chunk::StreamFooter { id: _, doc } => !is_text(doc.bytes()),
        _ => false,
    }
}

// Whether a value is a text that isn't UTF-8.
fn is_broken_value(value: ValueView<'_>) -> bool
    ensures { result ≡ notes.is_broken (seen_value value.entry) }
{
    match value {
        ValueView::Number(_) => false,
        ValueView::Text(text) => !is_text(text),
    }
}

// Whether a sample has a text that isn't UTF-8.
fn is_broken(sample: &SampleView<'_>) -> bool
    ensures { result ≡ list_any notes.is_broken sample.now.values }
{
    let mut rest = sample.values();
    while let Some(value) = rest.next() {
        if is_broken_value(value) {
            return true;
        }
    }
    false
}

// Whether one of the samples has a text that isn't UTF-8. Numbers are passed by at once.
fn has_broken_sample(samples: &SampleList) -> bool
    ensures { result ≡ list_any (λ s. list_any notes.is_broken s.values) samples.now }
{
    if !samples.has_texts() {
        return false;
    }
    let mut rest = samples.walk();
    while let Some(sample) = rest.next() {
        if is_broken(&sample) {
            return true;
        }
    }
    false
}

/// Whether a sample of it has a text that isn't UTF-8.
pub(crate) fn has_broken_text(chunk: &Chunk) -> bool
    ensures { result ≡ notes.has_broken_text chunk.now }
{
    match chunk {
        Chunk::Samples { id: _, samples } => has_broken_sample(samples),
        _ => false,
    }
}

/// Whether it is of a kind that XDF 1.0 doesn't have.
pub(crate) fn is_unknown(chunk: &Chunk) -> bool
    ensures { result ≡ notes.is_unknown chunk.now }
{
    matches!(chunk, Chunk::Other { .. })
}

/// The stream that it names.
pub(crate) fn stream_of(chunk: &Chunk) -> Option<u32>
    ensures { result ≡ notes.stream_of chunk.now }
{
    match chunk {
        Chunk::StreamHeader { id, .. }
        | Chunk::Samples { id, .. }
        | Chunk::ClockOffset { id, .. }
        | Chunk::StreamFooter { id, .. } => Some(*id),
        _ => None,
    }
}
