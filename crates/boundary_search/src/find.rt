//! The search for a boundary.

ghost use Rattle.std.specs.Prelude.{◌≤◌, length};
ghost use Rattle.boundary_search.specs.Parts.{FindsBoundary};

use memchr::memmem;

// The content of a boundary (XDF 1.0, "Boundary chunk")
const BOUNDARY: [u8; 16] = [
    0x43, 0xA5, 0x46, 0xDC, 0xCB, 0xF5, 0x41, 0x0F, 0xB3, 0x0E, 0xD5, 0x46, 0x73, 0x83, 0xCB, 0xE4,
];

/// The first place at or past `from` at which the sixteen bytes of a boundary stand (XDF 1.0, "Boundary
/// chunk"), or `None` where they stand at none.
pub fn find_boundary(bytes: &[u8], from: usize) -> Option<usize>
    requires { from ≤ length bytes.now }
    ensures { FindsBoundary bytes.now from result }
{
    match memmem::find(&bytes[from..], &BOUNDARY) {
        Some(place) => Some(from + place),
        None => None,
    }
}
