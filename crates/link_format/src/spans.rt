//! The parts of a text, where they stand in it.
ghost use Rattle.std.specs.Prelude.{◌≡◌, ℕ, List, length, Some, option_map};
ghost use Rattle.link_format.specs.Scan.{params_of};
ghost use Rattle.link_format.specs.Usual.{SaysMemento};

/// A value, as it stands in the text.
#[derive(Clone, Copy)]
pub(crate) enum ValueSpan<'a> {
    /// A token, or a quoted text without `\`: the bytes that are meant.
    Plain(&'a [u8]),
    /// A quoted text with `\` in it: everything after the opening quote.
    Escaped(&'a [u8]),
}

/// A parameter, as it stands in the text.
#[derive(Clone, Copy)]
pub(crate) struct ParamSpan<'a> {
    pub(crate) name: &'a [u8],
    pub(crate) value: Option<ValueSpan<'a>>,
}

/// The parameters of a link, as they stand in the text.
#[derive(Clone, Copy)]
pub(crate) struct ParamsSpan<'a> {
    /// Everything after the target's `>`, with the parameters at the front.
    pub(crate) text: &'a [u8],
    /// How many parameters there are.
    pub(crate) count: usize,
    /// The datetime of a memento; none also if a value has to be unescaped to know it.
    pub(crate) usual: Option<&'a [u8]>,
    ghost counted: { count ≡ length (params_of text.now) },
    ghost says: { (datetime : List ℕ) → option_map (λ u. u.now) usual ≡ Some datetime
        → SaysMemento (params_of text.now) datetime },
}

/// A link, as it stands in the text.
#[derive(Clone, Copy)]
pub(crate) struct LinkSpan<'a> {
    pub(crate) target: &'a [u8],
    pub(crate) params: ParamsSpan<'a>,
}
