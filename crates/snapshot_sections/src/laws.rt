//! Laws of the definitions.
ghost use Rattle.std.specs.Prelude.{◌≡◌, ℕ, List, [], ◌++◌};
ghost use Rattle.snapshot_sections.specs.Sections.{snapshot_text, AreSections};

/// What is written is read back as the same texts, and a snapshot that was cut short is none.
pub fn sections_are_read_back()
    ensures same { (texts others : List (List ℕ)) → AreSections texts → AreSections others
        → snapshot_text texts ≡ snapshot_text others → texts ≡ others }
    ensures cut { (texts others : List (List ℕ)) (rest : List ℕ) → AreSections texts → AreSections others
        → snapshot_text texts ≡ snapshot_text others ++ rest → rest ≡ [] }
{}
