//! What the gates of a service may reply, and what becomes of them. No program calls these functions: they are
//! statements with their proofs.
ghost use Rattle.std.specs.Prelude.{◌≡◌, None};
ghost use Rattle.timegate.specs.declared.request.Request.{Request};
ghost use Rattle.timegate.specs.declared.reply.Reply.{Reply};
ghost use Rattle.gate_server.specs.Gates.{GoesOn};
ghost use Rattle.service_threads.specs.Served.{IsServed};

use crate::gates::ServedGate;
use format_gates::NamesForms;
use harvester::SocketRuntime;
use hyper_edge::Answers;
use part_gates::NamesBase;

/// What a served gate shows is, in one of the forms that its type has, a reply or a part of a gate of the base that its
/// type has.
pub fn served_gates_reply_so<R, N>(gate: &ServedGate<R, N>)
where
    R: SocketRuntime + Drop,
    N: NamesBase + NamesForms,
    ensures { (q : Request) (made : Reply) → ⟦<ServedGate<R, N> as Answers>⟧.shows gate.now q made
        → IsServed N.base N.forms q made }
{}

/// A served gate to which no other gate is handed goes on with the list that it has: whatever it replies later is made
/// of a list that begins with all that it has replied from and was told.
pub fn served_gates_go_on<R, N>(gate: &ServedGate<R, N>, later: &ServedGate<R, N>)
where
    R: SocketRuntime + Drop,
    N: NamesBase + NamesForms,
    ensures { ⟦<ServedGate<R, N> as Answers>⟧.follows gate.now later.now → gate.now.gate.gate.gate.gate.slot.shared ≡ None
        → GoesOn gate.now.gate.gate.gate.gate.gate.gate later.now.gate.gate.gate.gate.gate.gate }
{}
