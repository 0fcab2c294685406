//! The laws.

ghost use Rattle.std.specs.Prelude.{◌≡◌, ℕ, ◌-◌, ◌<◌, ◌≤◌, ◌++◌, ◌∷◌, [], List, length, take, slice_index, Option, Some};
ghost use Rattle.chunk_grammar.specs.declared.chunk.Chunk.{Chunk};
ghost use Rattle.chunk_grammar.specs.Chunk.{Context, magic, IsFileText, AreChunkTexts, least_chunk_texts, least_file_text};
ghost use Rattle.chunk_grammar.specs.Standing.{standing_at, whole, bad, context_after_all, IsFront};
ghost use Rattle.xdf_model.specs.declared.types.Why.{Why};
ghost use Rattle.file_model.specs.declared.next.Next.{Next};
ghost use Rattle.file_model.specs.declared.next.Next.TheVariants.{End};
ghost use Rattle.file_model.specs.Cut.{chunks_within, IsEndOrTorn};
ghost use Rattle.file_model.specs.Readings.{placed, AreReadings};
ghost use Rattle.file_model.specs.Reader.{file_within, readings_of};

/// A file that begins with the magic has whole chunks at its front, none or more, and a rest behind
/// them.
pub fn file_has_a_front()
    ensures { (y : List ℕ) → ((i : ℕ) → slice_index y i < 256)
        → (cs : List Chunk) × (rest : List ℕ) × IsFront (magic ++ y) cs rest }
{}

/// A file has one list of chunks at its front, and one rest.
pub fn front_is_determined()
    ensures { (b : List ℕ) (cs ds : List Chunk) (r s : List ℕ) → IsFront b cs r → IsFront b ds s → (cs ≡ ds) × (r ≡ s) }
{}

/// A file that is cut anywhere behind the magic yields the chunks that lie whole within what is left,
/// and behind them nothing or a torn chunk, but never a fault.
pub fn cut_file_yields_its_whole_chunks()
    ensures { (cs : List Chunk) (b : List ℕ) (p : ℕ) (file : IsFileText cs b) → 4 ≤ p
        → (rest : List ℕ) × IsFront (take p b) (chunks_within [] cs file.0 file.1 (p - 4)) rest
        × IsEndOrTorn (context_after_all [] (chunks_within [] cs file.0 file.1 (p - 4))) rest }
{}

/// A file that begins with the magic, within the limit, has answers for one who reads it.
pub fn file_has_readings()
    ensures { (y : List ℕ) (limit : ℕ) → ((i : ℕ) → slice_index y i < 256) → 4 ≤ limit
        → (answers : List Next) × AreReadings (magic ++ y) limit answers }
{}

/// It has only one list of them.
pub fn readings_are_determined()
    ensures { (b : List ℕ) (limit : ℕ) (x y : List Next) → AreReadings b limit x → AreReadings b limit y → x ≡ y }
{}

/// A file of chunks, within the limit, is read as these chunks and then its end.
pub fn file_is_read_whole()
    ensures { (cs : List Chunk) (b : List ℕ) (limit : ℕ) (file : IsFileText cs b) → length b ≤ limit
        → AreReadings b limit (placed [] cs file.0 file.1 4 ++ End (length b) ∷ []) }
{}

/// Chunks that have a file have the one with the least widths.
pub fn least_file_is_a_file()
    ensures { (cs : List Chunk) (b : List ℕ) → IsFileText cs b → AreChunkTexts [] cs (least_chunk_texts [] cs) }
{}

/// What is written with the least widths is read: these chunks, and then the end.
pub fn written_file_is_read()
    ensures { (cs : List Chunk) (limit : ℕ) (texts : AreChunkTexts [] cs (least_chunk_texts [] cs))
        → length (least_file_text cs) ≤ limit
        → AreReadings (least_file_text cs) limit
        (placed [] cs (least_chunk_texts [] cs) texts 4 ++ End (length (least_file_text cs)) ∷ []) }
{}

/// A whole chunk takes at least one byte, and no more than there are; a fault stands at one of the
/// bytes or at their end.
pub fn answers_stand_within()
    ensures whole { (ctx : Context) (b : List ℕ) (c : Chunk) (used : ℕ) → ((i : ℕ) → slice_index b i < 256)
        → standing_at ctx b ≡ whole c used → (0 < used) × (used ≤ length b) }
    ensures bad { (ctx : Context) (b : List ℕ) (place : ℕ) (reason : Why) → ((i : ℕ) → slice_index b i < 256)
        → standing_at ctx b ≡ bad place reason → place ≤ length b }
{}

/// What a reader gives of a whole file that begins with the magic, its chunks and then its end, is what
/// the file holds for one who reads it.
pub fn readings_are_those_of_a_reader()
    ensures { (limit : ℕ) (y : List ℕ) → ((i : ℕ) → slice_index y i < 256) → 4 ≤ limit
        → AreReadings (magic ++ y) limit (readings_of (file_within limit y)) }
{}
