//! Laws of the answers. These functions do nothing when they run.
ghost use Rattle.std.specs.Prelude.{◌≡◌, ◌↔◌, ℕ, List, Some};
ghost use Rattle.std.specs.List.{Contains};
ghost use Rattle.harvest_lattice.specs.Knowledge.{Harvested, shown};
ghost use Rattle.memento_time.specs.Second.{IsSecond};
ghost use Rattle.timemap_formats.specs.Dates.{digits};
ghost use Rattle.single_questions.specs.Datetimes.{moment_of};
ghost use Rattle.single_questions.specs.Outcomes.{AreWorst};
ghost use Rattle.single_questions.specs.Wants.{answer_text};
ghost use Rattle.single_questions.specs.declared.wants.Want.{Want};

/// What is answered depends only on which harvests came, not on their order or repetition.
pub fn order_makes_no_difference()
    ensures { (want : Want) (base original : List ℕ) (hs gs : List Harvested)
        → ((h : Harvested) → Contains hs h ↔ Contains gs h)
        → answer_text want base original (shown hs original) ≡ answer_text want base original (shown gs original) }
{}

/// The fourteen digits of each second are read as that second.
pub fn digits_are_read()
    ensures { (s : ℕ) → IsSecond s → moment_of (digits s) ≡ Some s }
{}

/// What several questions come to.
pub fn worst_outcomes()
    ensures { AreWorst }
{}
