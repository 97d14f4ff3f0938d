//! Which forms gates answer in.
use std::marker::Brand;

/// The forms that gates answer in. As a type has them, they are known of gates behind a lock, too.
pub trait NamesForms {
    ghost use Rattle.timemap_formats.specs.declared.forms.Forms.{Forms};

    ghost forms: { Forms };
}

impl NamesForms for Brand {
    ghost use Rattle.std.specs.Prelude.{false};

    ghost forms = { record { json = false; cdxj = false } };
}
