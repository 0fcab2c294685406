ghost use Rattle.std.specs.Prelude.{◌≡◌, ◌≤◌, IfOk, IfSome, IsTrue, Some};
ghost use Rattle.recording_model.specs.declared.row.Row.{Row as RowValue};
ghost use Rattle.recording_model.specs.Ledger.{is_in_range, row_in, row_sample};

use rec_base::Memory;
use recording_model::Row;
use sample_values::{Sample, SampleView, Stamp};
use std::alloc::Global;

/// The sample that stands for a row in the ledger stream: the stream's id, the first missing position
/// and the number missing, as `int64`, without a stamp. This project's own.
///
/// `Memory` comes for want of memory alone.
pub fn row_sample(alloc: Global, row: &Row) -> Result<Sample, Memory>
    requires { IsTrue (is_in_range row.now) }
    ensures { IfOk result (λ sample. sample ≡ row_sample row.now) }
{
    let mut sample = Sample::new(alloc, Stamp::None);
    sample.push_bits(row.stream as u64)?;
    sample.push_bits(row.first)?;
    sample.push_bits(row.count)?;
    Ok(sample)
}

// Whether a row may stand in a ledger.
fn in_range(stream: u64, first: u64, count: u64) -> bool
    ensures exact { result ≡ is_in_range (record { stream = stream; first = first; count = count }) }
    ensures stream { IsTrue result → stream ≤ 65_535 }
{
    1 <= stream && stream <= 65_535 && first < 1 << 62 && 1 <= count && count <= 1 << 62
}

/// The row that a sample stands for, where it is the sample of a row in range. It takes no memory.
/// This project's own.
pub fn read_row(sample: &Sample) -> Option<Row>
    ensures exact { result ≡ row_in sample.now }
    ensures some { IfSome result (λ row. IsTrue (is_in_range row)) }
    ensures sample { IfSome result (λ row. sample.now ≡ row_sample row) }
    ensures each { (row : RowValue) → IsTrue (is_in_range row) → sample.now ≡ row_sample row → result ≡ Some row }
{
    read_row_view(&sample.view())
}

/// The same of a sample that stands elsewhere, read where it lies.
pub fn read_row_view(sample: &SampleView<'_>) -> Option<Row>
    ensures exact { result ≡ row_in sample.now }
    ensures some { IfSome result (λ row. IsTrue (is_in_range row)) }
    ensures sample { IfSome result (λ row. sample.now ≡ row_sample row) }
    ensures each { (row : RowValue) → IsTrue (is_in_range row) → sample.now ≡ row_sample row → result ≡ Some row }
{
    if sample.stamp() != Stamp::None || sample.len() != 3 {
        return None;
    }
    let (Some(stream), Some(first), Some(count)) = (
        sample.bits_at(0),
        sample.bits_at(1),
        sample.bits_at(2),
    ) else {
        return None;
    };
    if !in_range(stream, first, count) {
        return None;
    }
    Some(Row {
        stream: stream as u32,
        first,
        count,
    })
}
