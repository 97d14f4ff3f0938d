//! Laws of the definitions.
ghost use Rattle.std.specs.Prelude.{◌≡◌, ◌↔◌, ℕ, Bool, IsTrue, List, Some, codes};
ghost use Rattle.std.specs.Cmp.{IsTotalOrder};
ghost use Rattle.std.specs.Ordering.{nat_cmp};
ghost use Rattle.std.specs.declared.cmp.Ordering.TheVariants.{Equal};
ghost use Rattle.httpdate.specs.Valid.{IsValid, parts_secs};
ghost use Rattle.memento_time.specs.BeforeEpoch.{IsBeforeEpoch, is_before_epoch};
ghost use Rattle.memento_time.specs.Blanks.{IsTrimmed, trim};
ghost use Rattle.memento_time.specs.Civil.{civil_time};
ghost use Rattle.memento_time.specs.Mementos.{text_cmp, memento_cmp};
ghost use Rattle.memento_time.specs.Second.{IsSecond, imf, Reads, Asks};
ghost use Rattle.memento_time.specs.SecondOf.{second_of, asked_of};
ghost use Rattle.memento_time.specs.declared.mementos.Memento.{Memento};

use crate::lists::Octets;
use crate::mementos::Memento;
use crate::moments::Moment;
use crate::names::ArchiveName;
use crate::texts::{Clean, Original};

/// Moments compare as their numbers, texts and names by their bytes, and mementos by datetime and then by URI.
pub fn orders_are_plain()
    ensures moments { ⟦<Moment as Ord>⟧.cmp ≡ nat_cmp }
    ensures octets { ⟦<Octets as Ord>⟧.cmp ≡ text_cmp }
    ensures clean { ⟦<Clean as Ord>⟧.cmp ≡ text_cmp }
    ensures originals { ⟦<Original as Ord>⟧.cmp ≡ text_cmp }
    ensures names { ⟦<ArchiveName as Ord>⟧.cmp ≡ text_cmp }
    ensures mementos { ⟦<Memento as Ord>⟧.cmp ≡ memento_cmp }
{}

/// Of two different mementos, exactly one comes before the other.
pub fn mementos_are_ordered()
    ensures total { IsTotalOrder memento_cmp }
    ensures exact { (a b : Memento) → memento_cmp a b ≡ Equal → a ≡ b }
{}

/// The text of each second reads as that second, and no text reads as two seconds. The functions that read pages and
/// requests find these readings: `second_of` finds the second that a text reads as, `asked_of` the one that it asks
/// for.
pub fn texts_are_read()
    ensures own { (s : ℕ) → IsSecond s → Reads (imf s) s }
    ensures one { (text : List ℕ) (s t : ℕ) → Reads text s → Reads text t → s ≡ t }
    ensures second { (text : List ℕ) (s : ℕ) → (second_of text ≡ Some s) ↔ Reads text s }
    ensures asked { (text : List ℕ) (s : ℕ) → (asked_of text ≡ Some s) ↔ Asks text s }
{}

/// The date of a second, counted day after day, is a date of the calendar, and counting the days of whole years and
/// months leads back from it to the second.
pub fn dates_are_of_the_calendar()
    ensures valid { (s : ℕ) → IsSecond s → IsValid (civil_time s) }
    ensures back { (s : ℕ) → IsSecond s → parts_secs (civil_time s) ≡ s }
    ensures first { imf 0 ≡ codes "Thu, 01 Jan 1970 00:00:00 GMT" }
    ensures of_rfc_9110 { imf 784111777 ≡ codes "Sun, 06 Nov 1994 08:49:37 GMT" }
{}

/// Trimming removes only such bytes, and all of them that are at an end.
pub fn blanks_are_cut()
    ensures { (test : ℕ → Bool) (text : List ℕ) → IsTrimmed test text (trim test text) }
{}

/// The texts that the test finds to be dates before 1970, byte by byte, are the IMF-fixdates of those years.
pub fn early_dates_are_dates()
    ensures { (text : List ℕ) → IsTrue (is_before_epoch text) ↔ IsBeforeEpoch text }
{}
