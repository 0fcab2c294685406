ghost use Rattle.std.specs.Prelude.{◌≡◌, ◌≤◌, ◌*◌, length};
ghost use Rattle.record_run.specs.Cost.{cost_of, ring_bytes, value_size};

use xdf_model::{Format, Shape};

// The bytes that are counted for a value; those of a text are taken as they come.
fn value_size(format: Format) -> u64
    ensures size { result ≡ value_size format }
    ensures small { result ≤ 8 }
{
    match format {
        Format::Int8 => 1,
        Format::Int16 => 2,
        Format::Float32 | Format::Int32 => 4,
        Format::Double64 | Format::Int64 | Format::Text => 8,
    }
}

// The bytes of one ring, with two samples more.
fn ring_bytes(ring: u64, shape: Shape) -> u64
    requires { ring ≤ 1_048_576 }
    ensures bytes { result ≡ ring_bytes ring shape }
    ensures small { result ≤ 1_048_578 * 524_289 }
{
    (ring + 2) * (9 + shape.count as u64 * value_size(shape.format))
}

/// How many bytes the rings of feeds of these shapes hold, with two samples more for each: a sample
/// counts as 9 bytes and its values, where a text counts as 8. This project's own.
pub fn ring_cost(ring: u64, shapes: &[Shape]) -> u64
    requires ring { ring ≤ 1_048_576 }
    requires few { length shapes.now ≤ 64 }
    ensures { result ≡ cost_of ring shapes.now }
{
    let mut cost = 0;
    for shape in shapes {
        cost += ring_bytes(ring, *shape);
    }
    cost
}
