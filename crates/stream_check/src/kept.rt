//! What is kept of each stream while a file is read.

ghost use Rattle.std.specs.Prelude.{◌≡◌, ◌&&◌, ◌==◌, map, is_some, IsTrue};
ghost use Rattle.std.specs.List.{list_any};
ghost use Rattle.recording_model.specs.Ledger.{is_in_range, row_in};
ghost use Rattle.stream_check.specs.Kept.{begun_at, closed, counted, kept_row, kept_rows, bad_rows, rowed, taken_row, takes};

use chunk_grammar::SampleList;
use overrun_ledger::{Row, read_row_view};
use sample_values::SampleView;

/// A stream's first footer: its place, and the numbers that it tells.
#[derive(Clone, Copy, Debug, PartialEq, Eq)]
pub(crate) struct Footer {
    pub(crate) at: u64,
    pub(crate) samples: Option<u64>,
    pub(crate) overruns: Option<u64>,
}

/// What is kept of a stream: its id, the place of its header, how many samples it has, how many
/// positions the ledger's good rows name, where the last of them ends, and the first footer. The two
/// counts stand still at the end of their type, above every number that a footer can tell.
#[derive(Clone, Copy, Debug, PartialEq, Eq)]
pub(crate) struct Kept {
    pub(crate) id: u32,
    pub(crate) at: u64,
    pub(crate) samples: u128,
    pub(crate) lost: u128,
    pub(crate) end: u64,
    pub(crate) footer: Option<Footer>,
}

impl Kept {
    /// A stream whose header stands at this place, and of which nothing came yet.
    pub(crate) fn new(id: u32, at: u64) -> Kept
        ensures { result ≡ begun_at at id }
    {
        Kept {
            id,
            at,
            samples: 0,
            lost: 0,
            end: 0,
            footer: None,
        }
    }

    // Samples of a stream came.
    fn count(&mut self, id: u32, n: usize)
        ensures { self.new ≡ counted id n self.old }
    {
        if id == self.id {
            self.samples = self.samples.saturating_add(n as u128);
        }
    }

    // A row came. Where it is a good one of this stream, it counts.
    fn take_row(&mut self, row: &Row) -> bool
        requires { IsTrue (is_in_range row.now) }
        ensures takes { result ≡ takes row.now self.old }
        ensures kept { self.new ≡ rowed row.now self.old }
    {
        let takes = row.stream == self.id && self.end <= row.first;
        if takes {
            self.lost = self.lost.saturating_add(row.count as u128);
            self.end = row.first + row.count;
        }
        takes
    }

    // A footer came. The first one of a stream is kept.
    fn close(&mut self, id: u32, footer: Footer)
        ensures { self.new ≡ closed id footer self.old }
    {
        if id == self.id && self.footer.is_none() {
            self.footer = Some(footer);
        }
    }
}

/// Counts samples of a stream.
pub(crate) fn count_samples(streams: &mut [Kept], id: u32, n: usize)
    ensures { streams.new ≡ map (counted id n) streams.old }
{
    for kept in streams.iter_mut() {
        kept.count(id, n);
    }
}

/// Keeps the footer of a stream, where it is the first.
pub(crate) fn close_stream(streams: &mut [Kept], id: u32, footer: Footer)
    ensures { streams.new ≡ map (closed id footer) streams.old }
{
    for kept in streams.iter_mut() {
        kept.close(id, footer);
    }
}

/// Whether a footer of the stream came.
pub(crate) fn is_closed(streams: &[Kept], id: u32) -> bool
    ensures { result ≡ list_any (λ kept. id == kept.id && is_some kept.footer) streams.now }
{
    streams
        .iter()
        .any(|kept| id == kept.id && kept.footer.is_some())
}

// Counts a row, and tells whether it is a good one.
fn take_row(streams: &mut [Kept], row: &Row) -> bool
    requires { IsTrue (is_in_range row.now) }
    ensures taken { result ≡ list_any (takes row.now) streams.old }
    ensures kept { streams.new ≡ map (rowed row.now) streams.old }
{
    let mut taken = false;
    for kept in streams.iter_mut() {
        taken |= kept.take_row(row);
    }
    taken
}

// Counts the row that a sample is, and tells whether it is a good one.
fn take_sample(streams: &mut [Kept], sample: &SampleView<'_>) -> bool
    ensures taken { result ≡ taken_row (row_in sample.now) streams.old }
    ensures kept { streams.new ≡ kept_row (row_in sample.now) streams.old }
{
    match read_row_view(sample) {
        Some(row) => take_row(streams, &row),
        None => false,
    }
}

/// Counts the rows that samples of the ledger are, and tells whether one is no good row.
pub(crate) fn take_rows(streams: &mut [Kept], samples: &SampleList) -> bool
    ensures bad { result ≡ bad_rows samples.now streams.old }
    ensures kept { streams.new ≡ kept_rows samples.now streams.old }
{
    let mut bad = false;
    let mut rest = samples.walk();
    while let Some(sample) = rest.next() {
        bad |= !take_sample(streams, &sample);
    }
    bad
}
