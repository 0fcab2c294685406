use rec_base::Word;

/// A feed that is to be recorded. This project's own.
#[derive(Debug, Drop)]
pub struct FeedSource<S> {
    /// Where its bytes come from.
    pub source: S,
    /// The uid that the outlet's reply must have, if it has one.
    pub uid: Option<Word>,
    /// The most samples that are received, where there is a limit.
    pub limit: Option<u64>,
}
