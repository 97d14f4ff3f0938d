//! What is written is read back, and only that.
ghost use Rattle.std.specs.Prelude.{◌≡◌, ◌++◌, ℕ, List};
ghost use Rattle.text_fields.specs.Finds.{Finds};
ghost use Rattle.text_fields.specs.Decimals.{IsDecimal, number_of};
ghost use Rattle.text_fields.specs.Parts.{IsSplit, behind, parts_at};

/// Digits are read as exactly the number whose decimal they are.
pub fn decimals_are_read_back()
    ensures { (digits : List ℕ) → Finds (number_of digits) (IsDecimal digits) }
{}

/// A text is split at the byte into two parts, the first of which doesn't have the byte.
pub fn parts_are_read_back()
    ensures { (byte : ℕ) (text : List ℕ) → Finds (parts_at byte text) (IsSplit byte text) }
{}

/// What stands behind a front is the one text that follows it.
pub fn fronts_are_cut()
    ensures { (front text : List ℕ) → Finds (behind front text) (λ rest. text ≡ front ++ rest) }
{}
