//! The forms beside link-format.
ghost use Rattle.std.specs.Prelude.{◌≡◌, IfOk};
ghost use Rattle.timemap_formats.specs.Forms.{front_of, media_type, listing_text};

use crate::cdxj::write_cdxj;
use crate::json_form::write_json;
use crate::listing::Listing;
use memento_time::NoMemory;
use std::alloc::Global;

/// A form of TimeMaps beside link-format.
#[derive(Clone, Copy, Debug, PartialEq, Eq)]
pub enum Form {
    Json,
    Cdxj,
}

/// In which forms beside link-format TimeMaps are given.
#[derive(Clone, Copy, Debug, PartialEq, Eq)]
pub struct Forms {
    pub json: bool,
    pub cdxj: bool,
}

impl Form {
    /// Where the TimeMaps in this form stand, each followed by its original.
    pub fn front(self) -> &'static [u8]
        ensures { result.now ≡ front_of self }
    {
        match self {
            Form::Json => b"/timemap/json/",
            Form::Cdxj => b"/timemap/cdxj/",
        }
    }

    /// The form's media type.
    pub fn media_type(self) -> &'static [u8]
        ensures { result.now ≡ media_type self }
    {
        match self {
            Form::Json => b"application/json",
            Form::Cdxj => b"application/cdxj+ors",
        }
    }
}

/// The listing in this form. Takes time and memory in proportion to what is written.
pub fn write_listing(alloc: Global, form: Form, listing: &Listing) -> Result<Vec<u8>, NoMemory>
    ensures { IfOk result (λ text. text.items ≡ listing_text form listing.now) }
{
    match form {
        Form::Json => write_json(alloc, listing),
        Form::Cdxj => write_cdxj(alloc, listing),
    }
}
