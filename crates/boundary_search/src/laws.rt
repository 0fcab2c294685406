//! The laws.

ghost use Rattle.std.specs.Prelude.{◌≡◌, ℕ, ◌<◌, ◌++◌, ◌∷◌, [], List, length, slice_index};
ghost use Rattle.chunk_grammar.specs.declared.chunk.Chunk.{Chunk};
ghost use Rattle.chunk_grammar.specs.Chunk.{magic, AreChunkTexts};
ghost use Rattle.chunk_grammar.specs.Standing.{standing_at, IsWhole, context_after_all};
ghost use Rattle.boundary_search.specs.Parts.{Part, skipped, EndsWithFirst, AreSalvageParts, AreCountedParts, chunk_parts, kept_chunks, kept_bytes, skipped_size};

/// Whatever bytes a file has behind the magic, it has parts: each of its bytes lies in a whole chunk or
/// in a range that is skipped.
pub fn a_file_has_salvage_parts()
    ensures { (y : List ℕ) → ((i : ℕ) → slice_index y i < 256) → (parts : List Part) × AreSalvageParts (magic ++ y) parts }
{}

/// It has only one list of them: what is kept of a damaged file depends on its bytes alone.
pub fn salvage_parts_are_determined()
    ensures { (b : List ℕ) (x y : List Part) → AreSalvageParts b x → AreSalvageParts b y → x ≡ y }
{}

/// The same of a file that is longer than the limit: what is told of its first bytes depends on these
/// bytes alone.
pub fn counted_parts_are_determined()
    ensures { (b : List ℕ) (limit : ℕ) (x y : List Part) → AreCountedParts b limit x → AreCountedParts b limit y → x ≡ y }
{}

/// Chunks that are followed by damage, up to the bytes of the first boundary in it, and by further
/// chunks: just the damage is skipped, and all chunks before it and behind it are kept, byte for byte.
pub fn search_goes_over_the_damage()
    ensures { (cs ds : List Chunk) (x d y : List ℕ) (before : AreChunkTexts [] cs x) (behind : AreChunkTexts (context_after_all [] cs) ds y)
        → (IsWhole (standing_at (context_after_all [] cs) (d ++ y)) → ⊥) → EndsWithFirst d
        → (parts : List Part) × AreSalvageParts (magic ++ x ++ d ++ y) parts
        × (parts ≡ chunk_parts [] cs x before ++ skipped d ∷ chunk_parts (context_after_all [] cs) ds y behind)
        × (kept_chunks parts ≡ cs ++ ds) × (kept_bytes parts ≡ x ++ y) × (skipped_size parts ≡ length d) }
{}
