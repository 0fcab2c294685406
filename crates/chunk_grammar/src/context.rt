ghost use Rattle.std.specs.Prelude.{◌≡◌, ◌++◌, ◌∷◌, [], ◌⊎◌, ◌↔◌, None, IsSome, IsErr, IsErrOf, IfErr, OnOk, OnErr};
ghost use Rattle.xdf_model.specs.Shape.{shape_in};
ghost use Rattle.chunk_grammar.specs.Chunk.{shape_of};

use sample_values::Shape;
use shape_pattern::find_shape;
use std::alloc::Global;
use std::marker::Model;
use thiserror::Error;

/// Why a stream doesn't join a context. The first two are this project's own, and the first of them
/// that holds comes.
#[derive(Clone, Copy, Debug, PartialEq, Eq, Error)]
pub enum CtxFault {
    /// A header with this id came before.
    #[error("stream {0} is there")]
    Repeated(u32),
    /// The stream's header document has no shape.
    #[error("the document has no shape")]
    NoShape,
    /// Want of memory, and nothing else.
    #[error("out of memory")]
    Memory,
}

/// The streams whose headers came before, each with its shape, in the order of the headers: what a
/// chunk behind them is judged by. That a stream needs a header before it, and has no second one, is
/// this project's own, over XDF 1.0, "StreamHeader chunk".
#[derive(Debug, Drop)]
pub struct Context {
    streams: Vec<(u32, Shape)>,
}

impl Model for Context {
    ghost use Rattle.std.specs.Prelude.{List, ℕ};
    ghost use Rattle.xdf_model.specs.declared.types.Shape.{Shape};
    ghost use Rattle.chunk_grammar.specs.Chunk.{HasDistinctIds};

    ghost Value = { List (ℕ × Shape) };

    ghost view = { λ c. c.streams.items };

    ghost invariant = { λ c. HasDistinctIds c.streams.items };
}

// The shape of the first stream with this id.
fn shape_among(streams: &[(u32, Shape)], id: u32) -> Option<Shape>
    ensures { result ≡ shape_of streams.now id }
{
    for (stream, shape) in streams {
        if *stream == id {
            return Some(*shape);
        }
    }
    None
}

impl Context {
    /// The context of a file's first chunk, in which no stream is known. It takes no memory before
    /// the first stream.
    pub fn new(alloc: Global) -> Context
        ensures { result ≡ [] }
    {
        Context {
            streams: Vec::new(alloc),
        }
    }

    /// The shape of the stream with this id, where its header came before.
    pub fn shape_of(&self, id: u32) -> Option<Shape>
        ensures { result ≡ shape_of self.now id }
    {
        shape_among(&self.streams, id)
    }

    /// Appends a stream with the shape that its header document tells, as a StreamHeader does for the
    /// chunks behind it. The document isn't kept.
    ///
    /// An `Err` changes nothing. `Repeated` comes exactly where the id is there, whatever the document
    /// holds; else `NoShape` exactly where [`find_shape`] finds no shape in the document; else
    /// `Memory` for want of memory alone.
    #[tactic(auto, using(crate::proofs::Contexts::distinct_more))]
    pub fn context_add(&mut self, id: u32, doc: &[u8]) -> Result<(), CtxFault>
        ensures ok { OnOk result ((shape_of self.old id ≡ None) × (shape : Shape) × (shape_in doc.now ≡ Ok shape)
            × (self.new ≡ self.old ++ (id, shape) ∷ [])) }
        ensures repeated { IsErrOf result (CtxFault.Repeated id) ↔ IsSome (shape_of self.old id) }
        ensures no_shape { IsErrOf result CtxFault.NoShape ↔ ((shape_of self.old id ≡ None) × IsErr (shape_in doc.now)) }
        ensures none_else { IfErr result (λ e. (e ≡ CtxFault.Repeated id) ⊎ (e ≡ CtxFault.NoShape) ⊎ (e ≡ CtxFault.Memory)) }
        ensures err { OnErr result (self.new ≡ self.old) }
    {
        if self.shape_of(id).is_some() {
            return Err(CtxFault::Repeated(id));
        }
        match find_shape(doc) {
            Err(_) => Err(CtxFault::NoShape),
            Ok(shape) => match self.streams.push((id, shape)) {
                Ok(()) => Ok(()),
                Err(_) => Err(CtxFault::Memory),
            },
        }
    }
}
