//! The laws.

ghost use Rattle.std.specs.Prelude.{◌≡◌, ◌<◌, ◌≤◌, ◌^◌, ◌++◌, ℕ, List, length};
ghost use Rattle.xdf_model.specs.declared.types.Shape.{Shape};
ghost use Rattle.xdf_model.specs.Varlen.{IsVarlen, least_varlen};
ghost use Rattle.xdf_model.specs.Sample.{Sample, IsSampleText, least_sample_text};

/// The least text of a number is a text of it, and no text of it is shorter.
pub fn least_is_a_number()
    ensures text { (n : ℕ) → n < 2 ^ 64 → IsVarlen n (least_varlen n) }
    ensures shortest { (n : ℕ) (b : List ℕ) → IsVarlen n b → length (least_varlen n) ≤ length b }
{}

/// No text of a number begins another, and a text has one number.
pub fn number_has_one_reading()
    ensures { (m n : ℕ) (a b x y : List ℕ) → IsVarlen m a → IsVarlen n b
        → a ++ x ≡ b ++ y → (m ≡ n) × (a ≡ b) }
{}

/// No text of a sample begins another of the same shape, and a text has one sample. A sample that
/// has a text has the least one.
pub fn sample_has_one_reading()
    ensures one { (shape : Shape) (s t : Sample) (a b x y : List ℕ) → IsSampleText shape s a
        → IsSampleText shape t b → a ++ x ≡ b ++ y → (s ≡ t) × (a ≡ b) }
    ensures least { (shape : Shape) (s : Sample) (b : List ℕ) → IsSampleText shape s b
        → IsSampleText shape s (least_sample_text shape s) × (length (least_sample_text shape s) ≤ length b) }
{}
