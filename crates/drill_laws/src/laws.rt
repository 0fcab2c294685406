//! The law.

ghost use Rattle.std.specs.Prelude.{◌≡◌, ◌≤◌, ◌<◌, ◌^◌, ℕ, None, slice_index};
ghost use Rattle.inlet_model.specs.Inlet.{feed_within};
ghost use Rattle.inlet_model.specs.declared.end.FeedEnd.TheVariants.{Whole};
ghost use Rattle.drill_feeds.specs.Drill.{drill_bytes, drill_samples, drill_shape};

/// An inlet that wants the shape of a drill's feed, and no certain uid, gets the feed's samples, and then
/// its end, whole.
pub fn drill_feed_is_its_samples()
    ensures { (number id : ℕ) → number ≤ 1_000_000 → 1 ≤ id → id ≤ 3
        → ((i : ℕ) → slice_index (drill_bytes number id) i < 256)
        → feed_within None (drill_shape id) None (2 ^ 40) (drill_bytes number id) ≡ (drill_samples number id, Whole) }
{}
