//! The lane of a feed: what its samples pass on their way from the thread that reads the feed to the
//! one that writes the file.
//!
//! A lane is a ring between two threads. With numbers the ring holds blocks, and a pool brings them
//! back; a block goes from the pool to the tail, through the ring to the head, and home, so that a
//! sample that is read takes no memory. With texts the ring holds the samples. [`make_lane`] makes both
//! ends, [`LaneTail`] and [`LaneHead`]; [`join_lane`] makes one of them again. Contracts see samples
//! alone: which lane of the two it is, they say nowhere.
#![tactic(auto)]

mod block_head;
mod block_last;
mod block_tail;
mod head;
mod last;
mod make;
mod step;
mod tail;
mod terms;
mod text_head;
mod text_last;
mod text_tail;

pub use head::LaneHead;
pub use last::{LaneLast, join_lane};
pub use make::make_lane;
pub use step::LaneStep;
pub use tail::LaneTail;
