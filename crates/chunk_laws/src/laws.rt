//! The laws.

ghost use Rattle.std.specs.Prelude.{◌≡◌, ◌≤◌, ◌<◌, ◌+◌, ◌↔◌, ◌++◌, ℕ, List, length, take, slice_index};
ghost use Rattle.chunk_grammar.specs.Chunk.{Context, IsChunkText, least_chunk_text};
ghost use Rattle.chunk_grammar.specs.Standing.{standing_at, whole, torn};
ghost use Rattle.chunk_grammar.specs.declared.chunk.Chunk.{Chunk};

/// A chunk is whole at a place exactly where a text of it stands there.
pub fn whole_is_a_text()
    ensures { (ctx : Context) (b : List ℕ) (c : Chunk) (used : ℕ) → ((i : ℕ) → slice_index b i < 256)
        → (standing_at ctx b ≡ whole c used) ↔ ((used ≤ length b) × IsChunkText ctx c (take used b)) }
{}

/// A chunk that is cut anywhere is torn, and never bad.
pub fn cut_chunk_is_torn()
    ensures { (ctx : Context) (c : Chunk) (p q : List ℕ) → IsChunkText ctx c (p ++ q) → 0 < length q
        → standing_at ctx p ≡ torn }
{}

/// No chunk's text begins another in the same context, and a text has one chunk.
pub fn text_has_one_reading()
    ensures { (ctx : Context) (c d : Chunk) (a b x y : List ℕ) → IsChunkText ctx c a → IsChunkText ctx d b
        → a ++ x ≡ b ++ y → (c ≡ d) × (a ≡ b) }
{}

/// What isn't torn stays the same for every longer input.
pub fn more_bytes_change_nothing()
    ensures { (ctx : Context) (b more : List ℕ) → (standing_at ctx b ≡ torn → ⊥)
        → standing_at ctx (b ++ more) ≡ standing_at ctx b }
{}

/// A chunk that has a text has the least one, and no text of it is shorter.
pub fn least_text_is_a_text()
    ensures { (ctx : Context) (c : Chunk) (b : List ℕ) → IsChunkText ctx c b
        → IsChunkText ctx c (least_chunk_text ctx c) × (length (least_chunk_text ctx c) ≤ length b) }
{}
