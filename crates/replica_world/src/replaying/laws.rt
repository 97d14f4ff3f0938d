//! Laws of scripts.
ghost use Rattle.std.specs.Prelude.{◌≡◌, ℕ, List, [], ◌∷◌, ◌++◌, Some};
ghost use Rattle.text_fields.specs.Finds.{Finds};
ghost use Rattle.replica_world.specs.Fields.{line_of, block_of, after_empty_lines};
ghost use Rattle.timegate.specs.declared.request.Request.{Request};
ghost use Rattle.timegate.specs.Reply.{reply};
ghost use Rattle.timegate.specs.Route.{IsOfTaken};
ghost use Rattle.replica_events.specs.declared.event.Event.TheVariants.{Ask};
ghost use Rattle.replica_world.specs.Script.{Command, start_at, command_at, commands_of};
ghost use Rattle.replica_world.specs.Script as script;
ghost use Rattle.replica_events.specs.World.{Knowledge, World, Replica, replica, start};
ghost use Rattle.replica_events.specs.Agreement.{SameHarvests, HasTaken};
ghost use Rattle.replica_world.specs.Reached.{IsRunOf, AnswersTwice, WritesReplyOf};
ghost use Rattle.replica_world.specs.Layout.{IsLine, IsBlock, IsStartAt, IsCommandAt, IsBehindEmptyLines, IsReadAs};
ghost use Rattle.replica_world.specs.Output.{IsOutput, Performs, Says, reply_text};

use timemap_reader::one_page;

/// A script has exactly one output. That it has one is stated as "it isn't so that it has none", since no law here
/// decides which bytes are a state.
pub fn one_output()
    ensures once { (script output other : List ℕ) → IsOutput script output → IsOutput script other → output ≡ other }
    ensures some { (script : List ℕ) → ¬ ((output : List ℕ) → ¬ IsOutput script output) }
{
    one_page();
}

/// What is found in a script is exactly what is laid out in it: lines, blocks, the first line, and each command by the
/// text of its line. Commands are read one after the other, up to the end or to the first bad line.
pub fn script_is_its_layout()
    ensures line { (text : List ℕ) → Finds (line_of text) (IsLine text) }
    ensures start { (text : List ℕ) → Finds (start_at text) (λ s. IsStartAt text s.0 s.1) }
    ensures command { (text : List ℕ) → Finds (command_at text) (λ c. IsCommandAt text c.0 c.1) }
    ensures block { (len : ℕ) (text : List ℕ) → Finds (block_of len text) (IsBlock len text) }
    ensures empty_lines { (text : List ℕ) → IsBehindEmptyLines text (after_empty_lines text) }
    ensures commands { (text : List ℕ) → IsReadAs text (commands_of text).list (commands_of text).bad }
{}

/// The commands of a script amount to events; these lead to the script's world, and it writes their answers (`runs`).
/// So what holds for all replicas of a world holds for those of a script, whatever has happened in it. Each question,
/// even one for a delta, writes the reply of what its replica's merges made (`replies`). If the script ends by making
/// one request, which asks for no delta, to two replicas that have learnt the same harvests, its output ends with one
/// reply, written twice (`twice`).
pub fn scripts_are_runs()
    ensures runs { (base : List ℕ) (world : World) (commands : List Command) (text : List ℕ) (end : World) →
        Says base world commands text end → IsRunOf base world commands text end }
    ensures replies { (base : List ℕ) (count : ℕ) (commands : List Command) (text : List ℕ) (world : World) →
        Says base (start count) commands text world → (i : ℕ) (r : Replica) → replica world i ≡ Some r →
        (q : Request) (said : List ℕ) (next : World) → Performs base world (script.Step (Ask i q)) said next →
        WritesReplyOf base r q said }
    ensures twice { (base : List ℕ) (count : ℕ) (commands : List Command)
        (i j : ℕ) (q : Request) (output : List ℕ) (end : World) → IsOfTaken q →
        Says base (start count) (commands ++ script.Step (Ask i q) ∷ script.Step (Ask j q) ∷ []) output end →
        AnswersTwice base count commands i j output }
{
    one_page();
}

/// A `map`, a `gate` and an `ask` that asks for no delta write the reply of what their replica has taken. So two
/// replicas that have taken the same harvests write the same text for the same request. No question changes anything.
pub fn same_text_from_both()
    ensures own { (base : List ℕ) (world : World) (i : ℕ) (known : Knowledge) → HasTaken world i known →
        (q : Request) (text : List ℕ) (next : World) → IsOfTaken q →
        Performs base world (script.Step (Ask i q)) text next → text ≡ reply_text (reply base known q) }
    ensures unchanged { (base : List ℕ) (world : World) (i : ℕ) (q : Request) (text : List ℕ) (next : World) →
        Performs base world (script.Step (Ask i q)) text next → next ≡ world }
    ensures same { (base : List ℕ) (world : World) (i j : ℕ) (known other : Knowledge) →
        HasTaken world i known → HasTaken world j other → SameHarvests known other →
        (q : Request) (text again : List ℕ) (next after : World) → IsOfTaken q →
        Performs base world (script.Step (Ask i q)) text next →
        Performs base world (script.Step (Ask j q)) again after → text ≡ again }
{}
