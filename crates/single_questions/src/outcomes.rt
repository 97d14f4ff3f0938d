//! What a question comes to.
ghost use Rattle.std.specs.Prelude.{◌≡◌};
ghost use Rattle.single_questions.specs.Outcomes.{outcome_of, worse};

/// What a question comes to.
#[derive(Clone, Copy, Debug, PartialEq, Eq)]
pub enum Outcome {
    /// A memento is known.
    Found,
    /// Every archive has answered, and none has a memento.
    Nothing,
    /// No memento is known, and an archive failed.
    Unknown,
}

impl Outcome {
    /// What it comes to while so many mementos are known, where an archive failed or none did.
    pub(crate) fn of(mementos: usize, has_failed: bool) -> Outcome
        ensures { result ≡ outcome_of mementos has_failed }
    {
        if mementos > 0 {
            Outcome::Found
        } else if has_failed {
            Outcome::Unknown
        } else {
            Outcome::Nothing
        }
    }

    /// What several questions come to: the worst of what each does.
    pub fn worse(self, other: Outcome) -> Outcome
        ensures { result ≡ worse self other }
    {
        match (self, other) {
            (Outcome::Unknown, _) | (_, Outcome::Unknown) => Outcome::Unknown,
            (Outcome::Nothing, _) | (_, Outcome::Nothing) => Outcome::Nothing,
            (Outcome::Found, Outcome::Found) => Outcome::Found,
        }
    }
}
