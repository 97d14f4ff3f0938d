//! Laws of the definitions.
ghost use Rattle.std.specs.Prelude.{◌≡◌, true, ℕ, List, Option, None, Some};
ghost use Rattle.harvest_lattice.specs.Lattice.{Entries, AtMost, join};
ghost use Rattle.replica_exchange.specs.declared.cursor.Cursor.{Cursor};
ghost use Rattle.delta_parts.specs.Asks.{IsAsk, Names, target_of};
ghost use Rattle.delta_parts.specs.PartText.{part_text, IsPart, IsPartText};
ghost use Rattle.delta_parts.specs.declared.asks.PartAsk.{PartAsk};
ghost use Rattle.delta_parts.specs.declared.walk.Walk.{Walk};
ghost use Rattle.delta_parts.specs.declared.part.Part.{Part};
ghost use Rattle.delta_parts.specs.PartRule.{Incarnations, IsReached, AreWalked, IsPartOf, fits_part, walk_after};
ghost use Rattle.delta_parts.specs.PartRule.{held_after, known_by, Receiver, Event, AllFit, after_events, IsSound};

/// What a receiver's walk and cursor say of a peer's merges stays true: once a part is taken that fits, whatever its
/// sender merged meanwhile, and whenever else the receiver learns more. With the last part of a walk, the cursor says
/// it of all keys: the receiver has at least what the sender had after so many merges as the least END of the walk's
/// parts says.
pub fn parts_suffice()
    ensures first { (merges : Incarnations) (x : Entries) → IsReached merges None x × AreWalked merges None x }
    ensures part { (merges : Incarnations) (held : Option Cursor) (walk : Option Walk) (p : Part) (x : Entries)
        → IsReached merges held x → AreWalked merges walk x → IsPartOf merges p → fits_part held walk p ≡ true
        → IsReached merges (held_after held walk p) (join x p.delta.state)
        × AreWalked merges (walk_after walk p) (join x p.delta.state) }
{}

/// Whatever else the receiver learns, what they say stays true.
pub fn walks_are_kept()
    ensures cursors { (merges : Incarnations) (held : Option Cursor) (x y : Entries) → AtMost x y
        → IsReached merges held x → IsReached merges held y }
    ensures walks { (merges : Incarnations) (walk : Option Walk) (x y : Entries) → AtMost x y
        → AreWalked merges walk x → AreWalked merges walk y }
{}

/// So whatever parts are taken and whatever else is learnt, in any order: once a receiver holds a cursor, it has at
/// least what the peer's incarnation had after as many merges as the cursor says. If it began with nothing, nothing is
/// required of it.
pub fn cursors_are_reached()
    ensures first { (merges : Incarnations) (x : Entries) → IsSound merges (record { held = None; walk = None; state = x }) }
    ensures events { (merges : Incarnations) (r : Receiver) (events : List Event) → IsSound merges r
        → AllFit merges r events → IsSound merges (after_events r events) }
    ensures cursor { (merges : Incarnations) (r : Receiver) (events : List Event) (c : Cursor) → IsSound merges r
        → AllFit merges r events → (after_events r events).held ≡ Some c
        → AtMost (known_by merges c.incarnation c.number) (after_events r events).state }
{}

/// No two parts have the same text, whatever their formats.
pub fn one_text_of_a_part()
    ensures written { (x y : Part) → IsPart x → IsPart y → part_text x ≡ part_text y → x ≡ y }
    ensures read { (text : List ℕ) (x y : Part) → IsPartText text x → IsPartText text y → x ≡ y }
{}

/// The target that is written for a part names it.
pub fn parts_stand_at_their_targets()
    ensures { (ask : PartAsk) → IsAsk ask → Names (target_of ask) ask }
{}
