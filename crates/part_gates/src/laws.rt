//! What holds for all these gates. No program calls this function: it is a statement with its proof.
ghost use Rattle.timegate.specs.declared.request.Request.{Request};
ghost use Rattle.timegate.specs.declared.reply.Reply.{Reply};
ghost use Rattle.part_gates.specs.Parts.{IsReplyOrPartOf};

use crate::bases::NamesBase;
use crate::gates::PartGate;
use gate_server::Answers;

/// What a gate shows is a reply, or a part, of a gate of the base that its type has.
pub fn parts_are_of_their_base<B: NamesBase>(gate: &PartGate<B>)
    ensures { (q : Request) (made : Reply) → ⟦<PartGate<B> as Answers>⟧.shows gate.now q made
        → IsReplyOrPartOf B.base q made }
{}
