//! Originals as keys of a hash table.
ghost use Rattle.std.specs.Prelude.{◌≡◌, ◌∷◌, [], bytes_eq, IfOk};
ghost use Rattle.std.proofs.Common.{rules};
ghost use Rattle.std.specs.Cmp.Rules.{comparing, hashing};

use memento_time::{NoMemory, Original};
use std::hash::{Hash, Hasher};
use std::marker::Model;

/// An original, which a hash table finds by its bytes.
#[derive(Debug, Drop)]
pub struct Key {
    original: Original,
}

impl Model for Key {
    ghost use Rattle.std.specs.Prelude.{ℕ, List};

    ghost Value = { List ℕ };

    ghost view = { λ key. key.original };
}

impl Key {
    /// The key of an original, whose text it shares.
    pub fn new(original: &Original) -> Result<Key, NoMemory>
        ensures { IfOk result (λ key. key ≡ original.now) }
    {
        Ok(Key {
            original: original.try_clone()?,
        })
    }
}

impl PartialEq for Key {
    ghost eq = { bytes_eq };

    ghost laws = { Prim.search (comparing, rules) };

    fn eq(&self, other: &Key) -> bool {
        self.original == other.original
    }
}

impl Eq for Key {
    ghost laws = { Prim.search (comparing, rules) };
}

impl Hash for Key {
    // All bytes at once, which is several times as fast as one after the other.
    ghost hash_input = { λ key. key ∷ [] };

    ghost respects_eq = { Prim.search (hashing, rules) };

    fn hash<H: Hasher>(&self, state: &mut H) {
        state.write(self.original.as_bytes());
    }
}
