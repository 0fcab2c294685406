use feed_samples::FeedEnd;

/// What a reader gave to a lane. This project's own.
#[derive(Clone, Copy, Debug)]
pub enum LaneStep {
    /// A sample, which was put.
    Sample,
    /// The feed ended so.
    End(FeedEnd),
    /// There was no memory.
    Memory,
}
