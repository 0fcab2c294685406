//! Samples: their values, whether they fit a shape, and their bytes in a file.
//!
//! A sample is a time stamp and a value for each channel. This crate holds one, says whether it has
//! a shape, says how long its text is and appends that text with the least widths. It promises that
//! the text is the least one of the definition, and that want of memory leaves the output as it was.
//!
//! On the way a sample's byte is copied twice: once as it comes in (a number as its pattern of bits,
//! a text by `push_text`), and once as it goes into `out`. Texts alone stand in one vector as they
//! stand in a file, so that they go out in one piece, and `Sample::reset` keeps that vector.
//!
//! Samples of a file need no copy to be looked at. `walk_samples` goes past them where they lie, or
//! says which byte is wrong. `RawSamples` keeps them as these bytes, which are copied once, and
//! contracts see the list of samples; walks lend each sample and each value where it lies, take no
//! memory and look at a byte once.
#![tactic(auto)]

mod fault;
mod fits;
mod format;
mod put;
mod raw;
mod raw_value;
mod raw_view;
mod reverse;
mod sample;
mod size;
mod texts;
mod value;
mod view;
mod walk;

pub use fault::WalkFault;
pub use fits::{sample_fits, view_fits};
pub use format::{format_name, format_of_name};
pub use put::{put_sample, put_view};
pub use raw::{RawSamples, RawWalk};
pub use reverse::reverse_value;
pub use sample::Sample;
pub use size::{sample_size, size_of_format, view_size};
pub use value::{ValueView, ValueWalk};
pub use view::SampleView;
pub use walk::walk_samples;
pub use xdf_model::{Format, Shape, Stamp};

#[cfg(test)]
mod tests;
