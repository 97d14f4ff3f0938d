//! Laws that hold for all replicas of a world.
ghost use Rattle.std.specs.Prelude.{◌≡◌, ◌↔◌, ℕ, List, Some};
ghost use Rattle.harvest_lattice.specs.Knowledge.{lat};
ghost use Rattle.timegate.specs.declared.reply.Reply.{Reply};
ghost use Rattle.timegate.specs.declared.request.Request.{Request};
ghost use Rattle.timegate.specs.Reply.{reply, reply_of};
ghost use Rattle.timegate.specs.Route.{IsOfTaken};
ghost use Rattle.replica_exchange.specs.Stamps.{StampedState, IsStamped};
ghost use Rattle.replica_events.specs.World.{Knowledge, World, Replica, Course, replica};
ghost use Rattle.replica_events.specs.History.{LearntAlike, history_of};
ghost use Rattle.replica_events.specs.Agreement.{HasTaken, Gives, SameHarvests, Agree, ServesTimeMaps};
ghost use Rattle.replica_events.specs.Agreement.{ServesTimeGates, RedirectsWell};

/// Two replicas that have learnt the same harvests since their last restart, directly or through each other, give the
/// same TimeMap bytes for every original, and the same reply to every request that asks for no delta. This holds after
/// every list of harvests taken, messages sent, restarts, and deliveries that were lost, delayed, repeated or
/// reordered. The accepted events alone determine what the replicas have learnt. A delta also tells by which merges the
/// harvests came. Each redirect names a memento of the latest harvests, and none of their mementos is nearer to the
/// datetime that was asked for.
///
/// `learnt` says so for every course of events. The other clauses say for every world what this rests on. Unless a
/// delta is asked for, a replica's reply is that of what it has taken. Two replicas already agree if the states of what
/// they have taken are the same. A TimeGate redirects if any memento of the original is shown.
pub fn replicas_agree()
    ensures learnt { (base : List ℕ) (course : Course base) (i j : ℕ) (known other : Knowledge) →
        HasTaken course.world i known → HasTaken course.world j other →
        LearntAlike (history_of course) i j → Agree base course.world i j known other }
    ensures same_harvests { (base : List ℕ) (world : World) (i j : ℕ) (known other : Knowledge) →
        HasTaken world i known → HasTaken world j other → SameHarvests known other → Agree base world i j known other }
    ensures same_state { (base : List ℕ) (world : World) (i j : ℕ) (known other : Knowledge) →
        HasTaken world i known → HasTaken world j other → lat known ≡ lat other → Agree base world i j known other }
    ensures replies { (base : List ℕ) (world : World) (i : ℕ) (known : Knowledge) → HasTaken world i known →
        (q : Request) (r : Reply) → IsOfTaken q → Gives base world i q r ↔ (r ≡ reply base known q) }
    ensures timemaps { (base : List ℕ) (world : World) (i : ℕ) (known : Knowledge) → HasTaken world i known →
        ServesTimeMaps base world i known }
    ensures timegates { (base : List ℕ) (world : World) (i : ℕ) (known : Knowledge) → HasTaken world i known →
        ServesTimeGates base world i known }
    ensures redirects { (base : List ℕ) (world : World) (i : ℕ) (known : Knowledge) → HasTaken world i known →
        RedirectsWell base world i known }
{}

/// After every list of events, a replica answers each request, even one for a delta, by the state and the stamps that
/// its merges made.
pub fn replies_are_of_merges()
    ensures { (base : List ℕ) (course : Course base) (i : ℕ) (r : Replica) → replica course.world i ≡ Some r →
        (q : Request) (said : Reply) → Gives base course.world i q said ↔ ((s : StampedState)
        × IsStamped r.merges s × (s.incarnation ≡ r.incarnation) × (said ≡ reply_of base s q)) }
{}
