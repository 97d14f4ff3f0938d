//! Laws of what a reader finds in the texts.
ghost use Rattle.std.specs.Prelude.{◌≡◌, ℕ, List, Some, map, true, false, All};
ghost use Rattle.json.specs.Json.{document};
ghost use Rattle.memento_time.specs.declared.mementos.Memento.{Memento};
ghost use Rattle.memento_time.specs.Mementos.{IsMemento};
ghost use Rattle.memento_time.specs.Second.{IsSecond};
ghost use Rattle.memento_time.specs.Text.{IsClean, IsOriginal};
ghost use Rattle.timemap_writer.specs.TimeMap.{timemap_links};
ghost use Rattle.timemap_formats.specs.declared.listing.Listing.{Listing};
ghost use Rattle.timemap_formats.specs.Dates.{rfc3339, digits};
ghost use Rattle.timemap_formats.specs.Json.{is_index, json_of, json_text};
ghost use Rattle.timemap_formats.specs.Listing.{listing_of};
ghost use Rattle.timemap_formats.specs.Readback.{mementos_of, mementos_in, as_found, memento_rows, timemap_listing};

/// A listing in JSON is a text of RFC 8259 that has the stated value. Under `mementos` and `list` a reader finds the
/// datetimes and the addresses of the listing's mementos: all of them, in their order, and no others.
pub fn json_is_read()
    ensures value { (l : Listing) → document (json_text l) ≡ Some (json_of l) }
    ensures mementos { (l : Listing) → is_index l.rows ≡ false
        → mementos_in (json_text l) ≡ Some (map as_found (mementos_of l.rows)) }
{}

/// No two seconds have the same text.
pub fn datetimes_are_told()
    ensures rfc3339 { (s t : ℕ) → IsSecond s → IsSecond t → rfc3339 s ≡ rfc3339 t → s ≡ t }
    ensures digits { (s t : ℕ) → IsSecond s → IsSecond t → digits s ≡ digits t → s ≡ t }
{}

/// The links of a TimeMap list its mementos, in order, and so does what is written of them in another form.
pub fn timemaps_are_listed()
    ensures listing { (base original : List ℕ) (mementos : List Memento)
        → IsClean base → IsOriginal original → All IsMemento mementos
        → listing_of (timemap_links base original mementos) ≡ Some (timemap_listing base original mementos) }
    ensures mementos { (mementos : List Memento) → mementos_of (memento_rows true mementos) ≡ mementos }
{}
