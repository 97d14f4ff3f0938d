//! What holds for all gates. No program calls this function: it is a statement with its proof.
ghost use Rattle.std.specs.Prelude.{◌≡◌, ℕ, List};
ghost use Rattle.replica_exchange.specs.Stamps.{StampedState, IsStamped};
ghost use Rattle.timegate.specs.declared.request.Request.{Request};
ghost use Rattle.timegate.specs.declared.reply.Reply.{Reply};
ghost use Rattle.timegate.specs.Reply.{reply, reply_of};
ghost use Rattle.timegate.specs.Route.{IsOfTaken};
ghost use Rattle.published_index.specs.Batches.{Batch, fold_of, merges_of};
ghost use Rattle.published_index.specs.Views.{GateView};
ghost use Rattle.gate_server.specs.Gates.{Shows};

/// If a request asks for no delta, whatever a gate shows is the reply of a replica that has taken what the gate has
/// seen. Conversely, there are gates that show whatever a replica answers to a request.
pub fn gates_answer_as_replicas()
    ensures taken { (gate : GateView) (q : Request) (made : Reply) → Shows gate q made → IsOfTaken q
        → made ≡ reply gate.base (fold_of gate.pass.front) q }
    ensures each { (base : List ℕ) (front : List Batch) (s : StampedState) (q : Request) → IsStamped (merges_of front) s
        → (gate : GateView) × (gate.base ≡ base) × (gate.pass.front ≡ front) × Shows gate q (reply_of base s q) }
{}
