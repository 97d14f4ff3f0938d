//! Laws of the definitions.
ghost use Rattle.std.specs.Prelude.{◌≡◌, ℕ, ◌&&◌, List, true, false, None, fold, map as map_list};
ghost use Rattle.std.specs.FinMap as map;
ghost use Rattle.memento_sets.specs.Sets as set;
ghost use Rattle.harvest_lattice.specs.Lattice.{Entries, Key, AtMost, join};
ghost use Rattle.harvest_lattice.specs.Knowledge.{Harvested, lat, shown_of};
ghost use Rattle.retention.specs.Examples.{AreAges, AreAmounts, AreBounds};
ghost use Rattle.retention.specs.Restriction.{Rule, restrict, kept_of, IsWithin, KeepsOriginal, DropsOriginal, taken_in};

/// A restriction by a rule commutes with joins: to join and then to forget is to forget and then to join.
pub fn restriction_commutes_with_join()
    ensures { (keeps : Rule) (x y : Entries) → restrict keeps (join x y) ≡ join (restrict keeps x) (restrict keeps y) }
{}

/// Two rules, one after the other, keep what both keep, and what is kept is at most what was known.
pub fn restrictions_meet()
    ensures meet { (first second : Rule) (x : Entries)
        → restrict second (restrict first x) ≡ restrict (λ k. second k && first k) x }
    ensures again { (keeps : Rule) (x : Entries) → restrict keeps (restrict keeps x) ≡ restrict keeps x }
    ensures within { (inner outer : Rule) (x : Entries) → IsWithin inner outer
        → restrict inner (restrict outer x) ≡ restrict inner x }
    ensures less { (keeps : Rule) (x : Entries) → AtMost (restrict keeps x) x }
    ensures monotone { (keeps : Rule) (x y : Entries) → AtMost x y → AtMost (restrict keeps x) (restrict keeps y) }
{}

/// The restriction of what harvests make is what the kept ones among them make. So a replica that has forgotten by a
/// rule is as one that has learnt nothing but what the rule keeps.
pub fn a_restriction_is_of_kept_harvests()
    ensures { (keeps : Rule) (hs : List Harvested) → restrict keeps (lat hs) ≡ lat (kept_of keeps hs) }
{}

/// Of a kept original the same is shown before and after, and of one that is dropped nothing.
pub fn kept_originals_are_shown_the_same()
    ensures entries { (keeps : Rule) (x : Entries) (k : Key) → keeps k ≡ true
        → map.get (restrict keeps x) k ≡ map.get x k }
    ensures shown { (keeps : Rule) (x : Entries) (original : List ℕ) → KeepsOriginal keeps original
        → shown_of (restrict keeps x) original ≡ shown_of x original }
    ensures dropped { (keeps : Rule) (x : Entries) (original : List ℕ) → DropsOriginal keeps original
        → shown_of (restrict keeps x) original ≡ set.empty }
{}

/// What a rule drops isn't there afterwards, and nothing that is restricted by it brings it back.
pub fn forgotten_stays_forgotten()
    ensures gone { (keeps : Rule) (x : Entries) (k : Key) → keeps k ≡ false → map.get (restrict keeps x) k ≡ None }
    ensures stays { (keeps : Rule) (x y : Entries) (k : Key) → keeps k ≡ false → map.get x k ≡ None
        → map.get (taken_in keeps x y) k ≡ None }
{}

/// What comes may be restricted by any rule that keeps at least as much: of what the inner rule keeps, all is there
/// then, as if all had been taken. So a replica that takes in restrictions is, as far as a rule goes that they all
/// keep to, a replica of the world in which every state was restricted by it.
pub fn what_is_taken_in_suffices()
    ensures one { (inner outer : Rule) (x y : Entries) → IsWithin inner outer
        → restrict inner (taken_in outer x y) ≡ restrict inner (join x y) }
    ensures all { (inner outer : Rule) (x : Entries) (ys : List Entries) → IsWithin inner outer
        → restrict inner (fold (taken_in outer) x ys)
        ≡ fold (λ was y. join was y) (restrict inner x) (map_list (restrict inner) ys) }
{}

/// How much is known, and what is no more than a bound, by examples on both sides of it.
pub fn amounts_by_example()
    ensures amounts { AreAmounts }
    ensures bounds { AreBounds }
{}

/// How young entries and originals are, by examples on both sides of a floor.
pub fn ages_by_example()
    ensures { AreAges }
{}
