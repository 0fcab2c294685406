use rec_base::Blob;
use xdf_model::Shape;

/// A stream of a recording: its id, the document of its header as bytes, and the shape that the
/// document tells.
#[derive(Debug, Drop)]
pub struct StreamDoc {
    pub id: u32,
    pub doc: Blob,
    pub shape: Shape,
}
