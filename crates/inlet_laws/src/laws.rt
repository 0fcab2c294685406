//! The laws.

ghost use Rattle.std.specs.Prelude.{◌≡◌, ◌<◌, ◌≤◌, ◌↔◌, ◌++◌, ℕ, List, Option, Some, All, length, slice_index, sum_by};
ghost use Rattle.feed_model.specs.Feed.{text_size};
ghost use Rattle.inlet_laws.specs.FeedOf.{IsFeedOf};
ghost use Rattle.inlet_model.specs.declared.end.FeedEnd.{FeedEnd};
ghost use Rattle.inlet_model.specs.Inlet.{feed_in, feed_kind};
ghost use Rattle.reading_model.specs.Outlook.{How, final};
ghost use Rattle.xdf_model.specs.declared.types.Shape.{Shape};
ghost use Rattle.xdf_model.specs.Sample.{Sample, FitsShape};

/// What an inlet gets of a feed is what a reader of the format would say of it, and nothing else.
pub fn feed_is_spelled()
    ensures { (uid : Option (List ℕ)) (shape : Shape) (limit : Option ℕ) (b : List ℕ) (how : How) (samples : List Sample) (e : FeedEnd)
        → ((i : ℕ) → slice_index b i < 256)
        → (feed_in uid shape limit b how ≡ (samples, e)) ↔ IsFeedOf uid shape limit b how samples e }
{}

/// A refused reply, a reached limit and a fault in a sample are final: whatever follows, and however
/// the input goes on, the samples and the end stay.
pub fn fault_is_final()
    ensures { (uid : Option (List ℕ)) (shape : Shape) (limit : Option ℕ) (b more : List ℕ) (how then : How) (samples : List Sample) (e : FeedEnd)
        → feed_in uid shape limit b how ≡ (samples, e) → feed_kind e ≡ final
        → feed_in uid shape limit (b ++ more) then ≡ (samples, e) }
{}

/// Each sample that is got fits the shape, and its texts have at most 16,777,216 bytes together. There
/// are no more samples than bytes, and no more than asked for.
pub fn samples_fit()
    ensures fit { (uid : Option (List ℕ)) (shape : Shape) (limit : Option ℕ) (b : List ℕ) (how : How) (samples : List Sample) (e : FeedEnd)
        → ((i : ℕ) → slice_index b i < 256) → feed_in uid shape limit b how ≡ (samples, e)
        → All (λ s. FitsShape shape s × (sum_by text_size s.values ≤ 16_777_216)) samples }
    ensures few { (uid : Option (List ℕ)) (shape : Shape) (limit : Option ℕ) (b : List ℕ) (how : How) (samples : List Sample) (e : FeedEnd)
        → ((i : ℕ) → slice_index b i < 256) → feed_in uid shape limit b how ≡ (samples, e)
        → length samples ≤ length b }
    ensures asked { (uid : Option (List ℕ)) (shape : Shape) (n : ℕ) (b : List ℕ) (how : How) (samples : List Sample) (e : FeedEnd)
        → ((i : ℕ) → slice_index b i < 256) → feed_in uid shape (Some n) b how ≡ (samples, e)
        → length samples ≤ n }
{}
