//! Which base gates name in their replies.
use std::marker::Brand;

/// The base that gates name in their replies. As a type has it, it is known of gates behind a lock, too.
pub trait NamesBase {
    ghost use Rattle.std.specs.Prelude.{ℕ, List};

    ghost base: { List ℕ };
}

impl NamesBase for Brand {
    ghost use Rattle.std.specs.Prelude.{[]};

    ghost base = { [] };
}
