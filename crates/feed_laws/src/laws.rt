//! The laws.

ghost use Rattle.std.specs.Prelude.{◌≡◌, ◌<◌, ◌≤◌, ◌+◌, ◌-◌, ◌↔◌, ◌++◌, ℕ, List, length, drop, slice_index, Ok, Err};
ghost use Rattle.feed_laws.specs.Faulty.{IsFaulty};
ghost use Rattle.feed_laws.specs.Followed.{followed, StandsWithin};
ghost use Rattle.feed_model.specs.declared.Order.{Order};
ghost use Rattle.feed_model.specs.Feed.{IsFeedSample};
ghost use Rattle.feed_model.specs.FeedReading.{FeedFault, short, bad_tag, bad_width, too_long, feed_sample_at};
ghost use Rattle.xdf_model.specs.declared.types.Shape.{Shape};
ghost use Rattle.xdf_model.specs.Sample.{Sample};

/// A sample stands whole at the front of some bytes exactly where they begin with a text of it.
pub fn whole_is_spelled()
    ensures { (shape : Shape) (order : Order) (b : List ℕ) (s : Sample) (rest : List ℕ)
        → ((i : ℕ) → slice_index b i < 256)
        → (feed_sample_at shape order b ≡ Ok (s, rest))
        ↔ ((x : List ℕ) × IsFeedSample shape order s x × (b ≡ x ++ rest)) }
{}

/// No text of a sample begins another of the same shape and order, and a text has one sample.
pub fn text_has_one_sample()
    ensures { (shape : Shape) (order : Order) (s t : Sample) (a b x y : List ℕ)
        → IsFeedSample shape order s a → IsFeedSample shape order t b → a ++ x ≡ b ++ y
        → (s ≡ t) × (a ≡ b) }
{}

/// What isn't short stays the same for every longer input: the same sample with the same text, or
/// the same fault at the same place from the front.
pub fn more_bytes_change_nothing()
    ensures all { (shape : Shape) (order : Order) (b more : List ℕ)
        → (feed_sample_at shape order b ≡ Err short → ⊥)
        → feed_sample_at shape order (b ++ more) ≡ followed more (feed_sample_at shape order b) }
    ensures whole { (shape : Shape) (order : Order) (b more : List ℕ) (s : Sample) (rest : List ℕ)
        → feed_sample_at shape order b ≡ Ok (s, rest)
        → feed_sample_at shape order (b ++ more) ≡ Ok (s, rest ++ more) }
    ensures tag { (shape : Shape) (order : Order) (b more : List ℕ) (left byte : ℕ)
        → feed_sample_at shape order b ≡ Err (bad_tag left byte)
        → feed_sample_at shape order (b ++ more) ≡ Err (bad_tag (left + length more) byte) }
    ensures width { (shape : Shape) (order : Order) (b more : List ℕ) (left byte : ℕ)
        → feed_sample_at shape order b ≡ Err (bad_width left byte)
        → feed_sample_at shape order (b ++ more) ≡ Err (bad_width (left + length more) byte) }
    ensures long { (shape : Shape) (order : Order) (b more : List ℕ) (left : ℕ)
        → feed_sample_at shape order b ≡ Err (too_long left)
        → feed_sample_at shape order (b ++ more) ≡ Err (too_long (left + length more)) }
{}

/// A sample that is cut anywhere is short, and never faulty.
pub fn cut_sample_is_short()
    ensures { (shape : Shape) (order : Order) (s : Sample) (p q : List ℕ)
        → IsFeedSample shape order s (p ++ q) → 0 < length q
        → feed_sample_at shape order p ≡ Err short }
{}

/// A whole sample takes at least one byte, and the bytes after it are the end of all. A fault
/// stands at one of the bytes.
pub fn answers_stand_within()
    ensures whole { (shape : Shape) (order : Order) (b : List ℕ) (s : Sample) (rest : List ℕ)
        → feed_sample_at shape order b ≡ Ok (s, rest)
        → (length rest < length b) × (drop (length b - length rest) b ≡ rest) }
    ensures fault { (shape : Shape) (order : Order) (b : List ℕ) (f : FeedFault)
        → feed_sample_at shape order b ≡ Err f → StandsWithin (length b) f }
{}

/// A fault says what stands there: a sample is right up to its place, and there stands what the
/// fault names. It is final: whatever follows, no sample stands at the front.
pub fn fault_is_final()
    ensures named { (shape : Shape) (order : Order) (b : List ℕ) (f : FeedFault)
        → ((i : ℕ) → slice_index b i < 256) → feed_sample_at shape order b ≡ Err f → (f ≡ short → ⊥)
        → IsFaulty shape order b f }
    ensures last { (shape : Shape) (order : Order) (b more : List ℕ) (f : FeedFault) (s : Sample) (x rest : List ℕ)
        → feed_sample_at shape order b ≡ Err f → (f ≡ short → ⊥) → b ++ more ≡ x ++ rest
        → IsFeedSample shape order s x → ⊥ }
{}
