//! Laws of what readers of pages find in the TimeMaps that are written here.
ghost use Rattle.std.specs.Prelude.{◌≡◌, ◌<◌, ◌^◌, List, ℕ, Some, Ok, All, length};
ghost use Rattle.std.specs.List.{flat_map};
ghost use Rattle.url.specs.Parts.{Parts};
ghost use Rattle.memento_time.specs.Text.{IsOriginal};
ghost use Rattle.memento_time.specs.declared.mementos.Memento.{Memento};
ghost use Rattle.memento_time.specs.Mementos.{IsMemento};
ghost use Rattle.url_texts.specs.Followed.{IsFollowed};
ghost use Rattle.link_format.specs.Grammar.{Reading};
ghost use Rattle.timemap_reader.specs.Page.{IsPageOf};
ghost use Rattle.timemap_reader.specs.Answer.{IsAnswer, IsShort, base_of};
ghost use Rattle.timemap_writer.specs.Service.{IsBase};
ghost use Rattle.timemap_writer.specs.TimeMap.{timemap_text};
ghost use Rattle.timemap_writer.specs.Pages.{numbers, stretch, index_links, index_text, page_text};
ghost use Rattle.replica_world.specs.ReadBack.{AreOnWeb, page_of, index_of};

/// A TimeMap can be read as a page of exactly its mementos, whatever http or https URL it was fetched from, if it has
/// at most 8,388,608 bytes and the addresses of its mementos begin with `http://` or `https://`. So one aggregator can
/// harvest another. `read_page` can give no other page of it, by `one_page`, and no fault other than `NoMemory`, by
/// `no_fault_beside_a_page`.
pub fn timemaps_are_pages()
    ensures { (base original address : List ℕ) (url : Parts) (mementos : List Memento)
        → IsBase base → IsOriginal original → AreOnWeb mementos
        → base_of address ≡ Some url → IsShort (timemap_text base original mementos)
        → IsAnswer address (timemap_text base original mementos) (Ok (page_of mementos)) }
{}

/// The index of a TimeMap and each of its pages can also be read as pages of an archive. The index, for a base as
/// `Service::new` keeps it and an original as `read_original` writes it, has one reading, wherever it stands: no
/// mementos, and its further TimeMaps are exactly the pages, in order, with nothing left out. `read_page` gives it so
/// where it has at most 8,388,608 bytes. A page is always short enough, and page K has the mementos of its stretch of
/// the list. The stretches, in order, are the list: whoever reads the index and then the pages that it names has
/// exactly the list's mementos.
pub fn paged_timemaps_are_pages()
    ensures index { (base original : List ℕ) (mementos : List Memento)
        → IsBase base → IsFollowed base → IsOriginal original → IsFollowed original
        → All IsMemento mementos → length mementos < 2 ^ 64
        → Reading (index_text base original mementos) (index_links base original mementos)
        × ((url : Parts) → IsPageOf url (index_links base original mementos) (index_of base original mementos)) }
    ensures answer { (base original address : List ℕ) (url : Parts) (mementos : List Memento)
        → IsBase base → IsFollowed base → IsOriginal original → IsFollowed original
        → All IsMemento mementos → length mementos < 2 ^ 64
        → base_of address ≡ Some url → IsShort (index_text base original mementos)
        → IsAnswer address (index_text base original mementos) (Ok (index_of base original mementos)) }
    ensures page { (base original address : List ℕ) (url : Parts) (mementos : List Memento) (page : ℕ)
        → IsBase base → IsOriginal original → AreOnWeb mementos → page < 2 ^ 64
        → base_of address ≡ Some url
        → IsAnswer address (page_text base original mementos page) (Ok (page_of (stretch page mementos))) }
    ensures union { (mementos : List Memento)
        → flat_map (λ page. stretch page mementos) (numbers mementos) ≡ mementos }
{}
