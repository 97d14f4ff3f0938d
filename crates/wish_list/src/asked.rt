//! Originals that may be wished for.
ghost use Rattle.std.specs.Prelude.{◌≡◌};
ghost use Rattle.wish_list.specs.Asked.{IsRead};

use memento_time::Original;
use std::marker::Model;

/// An original as `read_original` writes it. Nothing else can be wished for: however a reader spells an original, it is
/// looked after under one name, which is the one that replies show.
#[derive(Debug, Drop)]
pub struct AskedOriginal {
    original: Original,
}

impl Model for AskedOriginal {
    ghost use Rattle.std.specs.Prelude.{ℕ, List};
    ghost use Rattle.wish_list.specs.Asked.{IsRead};

    ghost Value = { List ℕ };

    ghost view = { λ asked. asked.original };

    ghost invariant = { λ asked. IsRead asked.original };
}

impl AskedOriginal {
    /// What `read_original` gave.
    pub fn new(original: Original) -> AskedOriginal
        requires { IsRead original }
        ensures { result ≡ original }
    {
        AskedOriginal { original }
    }

    /// The original itself.
    pub fn as_original(&self) -> &Original
        ensures value { result.now ≡ self.now }
        ensures read { IsRead result.now }
    {
        &self.original
    }
}
