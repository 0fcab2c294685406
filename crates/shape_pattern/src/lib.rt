//! What is looked for in the documents of a stream: the shape in its header, and numbers in its
//! footer.
//!
//! A document is XML for other programs. Here it is bytes, in which elements are looked for by a
//! pattern that is this project's own: the channel count and the channel format of XDF 1.0,
//! "StreamHeader chunk", and two numbers of "StreamFooter chunk". This crate promises that the answer
//! is that of the definition, also where the document has no shape: it then tells the first reason.
//!
//! A document is gone over once for each element, by `memchr`. Nothing is copied, and no memory is
//! taken.
#![tactic(auto)]

mod footer;
mod front;
mod header;

pub use footer::{Element, find_number};
pub use front::behind;
pub use header::find_shape;
pub use xdf_model::{Format, NoShape, Shape};

#[cfg(test)]
mod tests;
