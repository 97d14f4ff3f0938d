//! Laws for readers. These functions do nothing when they run.
ghost use Rattle.std.specs.Prelude.{◌≡◌, ℕ, List, Option};
ghost use Rattle.timegate.specs.declared.reply.Reply.{Reply};
ghost use Rattle.timegate.specs.declared.request.Request.{Request};
ghost use Rattle.timemap_formats.specs.declared.listing.Listing.{Listing};
ghost use Rattle.timemap_formats.specs.Listing.{Lists};
ghost use Rattle.format_gates.specs.Converted.{IsConvertedOnce, IsOneInForms};

/// A text lists one thing.
pub fn texts_list_once()
    ensures { (text : List ℕ) (one other : Option Listing) → Lists text one → Lists text other → one ≡ other }
{}

/// Gates that agree in link-format agree in each form: of one reply of the gate inside one reply is made. So a gate
/// replies with one text where the gate inside does, and without a form its reply is that of the gate inside.
pub fn forms_agree()
    ensures once { IsConvertedOnce }
    ensures gates { IsOneInForms }
{}
