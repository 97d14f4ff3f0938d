//! What is asked of each original.
ghost use Rattle.std.specs.Prelude.{◌≡◌};
ghost use Rattle.single_questions.specs.Wants.{form_named};

use memento_time::Moment;

/// The form in which a TimeMap is written.
#[derive(Clone, Copy, Debug, PartialEq, Eq)]
pub enum TextForm {
    Link,
    Json,
    Cdxj,
}

/// What is asked of each original.
#[derive(Clone, Copy, Debug)]
pub enum Want {
    /// Its TimeMap in this form, whole, however long.
    TimeMap(TextForm),
    /// The memento nearest to this moment; the most recent if there is `None`.
    TimeGate(Option<Moment>),
}

impl TextForm {
    /// The form with this name: `link`, `json` or `cdxj`.
    pub fn named(name: &str) -> Option<TextForm>
        ensures { result ≡ form_named name.now }
    {
        match name.as_bytes() {
            b"link" => Some(TextForm::Link),
            b"json" => Some(TextForm::Json),
            b"cdxj" => Some(TextForm::Cdxj),
            _ => None,
        }
    }
}
