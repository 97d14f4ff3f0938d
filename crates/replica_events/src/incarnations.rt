//! Laws of the incarnations that replicas are in, and of how often they have merged in them.
ghost use Rattle.std.specs.Prelude.{◌≡◌, ℕ, List, length, Some, zip};
ghost use Rattle.replica_events.specs.World.{Replica, Message, Course, replica, message};
ghost use Rattle.replica_events.specs.History.{NoRestart, history_of};
ghost use Rattle.replica_events.specs.Cursors.{GoesOn};
ghost use Rattle.replica_events.specs.Incarnations.{IsIn, WasSentIn};

/// The accepted events alone determine which incarnation a replica is in, and how often it has merged in it: the first
/// incarnations are the numbers of the replicas, and each accepted restart begins the next number. The delta of a
/// message has the incarnation that its sender was in when it sent the message, and ends at the number of the sender's
/// merges then (`messages`). Each message that was sent is there, under its number (`sent`). No two replicas ever have
/// the same incarnation, at whatever times, and no replica has the same incarnation before and after a restart
/// (`apart`).
pub fn incarnations_are_new()
    ensures replicas { (base : List ℕ) (course : Course base) (i : ℕ) (r : Replica) → replica course.world i ≡ Some r →
        IsIn course.count (history_of course) i r.incarnation (length r.merges) }
    ensures messages { (base : List ℕ) (course : Course base) (k : ℕ) (m : Message) → message course.world k ≡ Some m →
        WasSentIn course.count (history_of course) m.sender k m.delta.incarnation m.delta.end }
    ensures sent { (base : List ℕ) (course : Course base) (sender k incarnation merges : ℕ) →
        WasSentIn course.count (history_of course) sender k incarnation merges →
        (m : Message) × (message course.world k ≡ Some m) × (m.sender ≡ sender)
        × (m.delta.incarnation ≡ incarnation) × (m.delta.end ≡ merges) }
    ensures apart { (base : List ℕ) (earlier course : Course base) (on : GoesOn earlier course) (i j : ℕ)
        (was r : Replica) → replica earlier.world i ≡ Some was → replica course.world j ≡ Some r →
        was.incarnation ≡ r.incarnation → (i ≡ j) × NoRestart (zip on.events on.answers) i }
{}
