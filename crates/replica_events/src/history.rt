//! Laws of what replicas have taken, by the events that were accepted.
ghost use Rattle.std.specs.Prelude.{◌≡◌, ◌↔◌, ◌++◌, ℕ, List, ◌∷◌, Some, Ok, Contains};
ghost use Rattle.harvest_lattice.specs.Knowledge.{Harvested, lat};
ghost use Rattle.replica_exchange.specs.DeltaText.{delta_text};
ghost use Rattle.replica_events.specs.declared.event.Event.{Event};
ghost use Rattle.replica_events.specs.declared.event.Event.TheVariants.{Deliver};
ghost use Rattle.replica_events.specs.declared.event.Said.TheVariants.{Sent, Joined};
ghost use Rattle.replica_events.specs.World.{Knowledge, World, Message, Course, message};
ghost use Rattle.replica_events.specs.Agreement.{HasTaken};
ghost use Rattle.replica_events.specs.History.{Happened, History, NoRestart, IsLocal, Learnt, Carries, HasSent};
ghost use Rattle.replica_events.specs.History.{history_of};

/// After every list of events, what a replica has taken is what it has learnt since its last restart: the harvests that
/// it took itself, those of the states that it received, and, of each message that it was delivered, those that the
/// sender had learnt before it sent the message. A message records who sent it, what the sender had learnt then, and
/// the text of its delta. The state of a delta from the beginning is that of everything that the sender had learnt.
pub fn what_replicas_have_taken()
    ensures taken { (base : List ℕ) (course : Course base) (i : ℕ) (known : Knowledge) → HasTaken course.world i known →
        (h : Harvested) → Contains known h ↔ Learnt (history_of course) i h }
    ensures carried { (base : List ℕ) (course : Course base) (k : ℕ) (m : Message) → message course.world k ≡ Some m →
        (h : Harvested) → Contains m.taken h ↔ Carries (history_of course) k h }
    ensures sender { (base : List ℕ) (course : Course base) (k : ℕ) (m : Message) → message course.world k ≡ Some m →
        HasSent (history_of course) m.sender k }
    ensures bytes { (base : List ℕ) (course : Course base) (k : ℕ) (m : Message) → message course.world k ≡ Some m →
        m.bytes ≡ delta_text m.delta }
    ensures whole { (base : List ℕ) (course : Course base) (k : ℕ) (m : Message) → message course.world k ≡ Some m →
        m.delta.start ≡ 0 → m.delta.state ≡ lat m.taken }
{}

/// A message that no delivery names changes nothing in what replicas have learnt. Nor does another delivery of the same
/// message to the same replica, if the replica wasn't restarted and no other message got the number in between
/// (`repeated`); in a course of events none does (`again`). Two successive events, neither of which is a restart or a
/// sending, can be exchanged.
pub fn deliveries_in_any_order()
    ensures lost { (before after : History) (sending : Event) (k : ℕ) →
        ((i : ℕ) → ¬ Contains after (Deliver i k, Ok Joined)) →
        (i : ℕ) (h : Harvested) →
        Learnt (before ++ (sending, Ok (Sent k)) ∷ after) i h ↔ Learnt (before ++ after) i h }
    ensures repeated { (before between after : History) (i k : ℕ) →
        NoRestart between i → ((sending : Event) → ¬ Contains between (sending, Ok (Sent k))) →
        (j : ℕ) (h : Harvested) →
        Learnt (before ++ (Deliver i k, Ok Joined) ∷ between ++ (Deliver i k, Ok Joined) ∷ after) j h
        ↔ Learnt (before ++ (Deliver i k, Ok Joined) ∷ between ++ after) j h }
    ensures again { (base : List ℕ) (course : Course base) (before between after : History) (i k : ℕ) →
        history_of course ≡ before ++ (Deliver i k, Ok Joined) ∷ between ++ (Deliver i k, Ok Joined) ∷ after →
        NoRestart between i → (j : ℕ) (h : Harvested) →
        Learnt (history_of course) j h
        ↔ Learnt (before ++ (Deliver i k, Ok Joined) ∷ between ++ after) j h }
    ensures reordered { (before after : History) (x y : Happened) → IsLocal x → IsLocal y →
        (i : ℕ) (h : Harvested) →
        Learnt (before ++ x ∷ y ∷ after) i h ↔ Learnt (before ++ y ∷ x ∷ after) i h }
{}
