//! The laws.

ghost use Rattle.std.specs.Prelude.{◌≡◌, ◌≤◌, ◌*◌, ℕ, List, length};
ghost use Rattle.std.specs.List.{AllByRecursion};
ghost use Rattle.xdf_model.specs.Sample.{Sample};
ghost use Rattle.turns_model.specs.Turns.{kept_in, first_turns, turn_batches};
ghost use Rattle.turns_laws.specs.Slabs.{last_of, slab};

/// What is kept of a slab are its last entries, as many as the ring holds.
pub fn kept_are_the_last()
    ensures { (ring batch t : ℕ) (samples : List Sample) → 1 ≤ batch
        → kept_in ring batch t samples ≡ last_of ring (slab batch t samples) }
{}

/// So many turns are all, once no list has more positions than they have.
pub fn enough_turns()
    ensures { (ring batch n : ℕ) (lists : List (List Sample)) → 1 ≤ batch → AllByRecursion (λ samples. length samples ≤ n * batch) lists
        → first_turns ring batch lists n ≡ turn_batches ring batch lists }
{}
