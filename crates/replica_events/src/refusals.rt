//! Laws of the outcomes of events.
ghost use Rattle.std.specs.Prelude.{◌≡◌, ℕ, List, Ok, Err};
ghost use Rattle.replica_events.specs.declared.event.Event.{Event};
ghost use Rattle.replica_events.specs.declared.event.Said.{Said};
ghost use Rattle.replica_events.specs.declared.event.Refused.{Refused};
ghost use Rattle.replica_events.specs.declared.event.Refused.TheVariants.{NoMemory};
ghost use Rattle.replica_events.specs.World.{World, EventAnswer, Effect, Step};
ghost use Rattle.replica_events.specs.Refusals.{IsCause, IsResult};

/// If memory isn't refused, an event has only one answer and leads to only one world. No event is without an outcome.
pub fn one_outcome()
    ensures once { (base : List ℕ) (world : World) (event : Event) (answer other : EventAnswer) (next last : World) →
        Effect base world event answer next → Effect base world event other last →
        (answer ≡ other) × (next ≡ last) }
    ensures some { (base : List ℕ) (world : World) (event : Event) →
        ¬ ((answer : EventAnswer) (next : World) → ¬ Effect base world event answer next) }
{}

/// Each refusal has its cause, and changes nothing. A cause other than memory is the answer unless memory was refused
/// first. An accepted event has the result that goes with it. A restart is never refused for lack of memory.
pub fn refusals_have_causes()
    ensures cause { (base : List ℕ) (world : World) (event : Event) (why : Refused) (next : World) →
        Step base world event (Err why) next → IsCause world event why }
    ensures unchanged { (base : List ℕ) (world : World) (event : Event) (why : Refused) (next : World) →
        Step base world event (Err why) next → next ≡ world }
    ensures answered { (base : List ℕ) (world : World) (event : Event) (why : Refused) →
        IsCause world event why → ¬ (why ≡ NoMemory) → Effect base world event (Err why) world }
    ensures result { (base : List ℕ) (world : World) (event : Event) (said : Said) (next : World) →
        Step base world event (Ok said) next → IsResult world event said next }
{}
