//! How a program names itself to those that it asks.
ghost use Rattle.std.specs.Prelude.{◌≡◌, ◌↔◌, IfOk, IsTrue, MatchOption};
ghost use Rattle.outgoing_requests.specs.Agents.{IsAgent, IsAgentByte};

use memento_time::trim_blanks;
use std::alloc::{AllocError, Global};
use std::marker::Model;

/// The most bytes of a name.
const MAX_AGENT: usize = 256;

/// A name of a program, as the value of `User-Agent` (RFC 9110, section 10.1.5).
#[derive(Debug, Drop)]
pub struct Agent {
    text: String,
}

impl Model for Agent {
    ghost use Rattle.std.specs.Prelude.{List, ℕ, string_bytes};

    ghost Value = { List ℕ };

    ghost view = { λ agent. string_bytes agent.text };
}

fn is_agent_byte(byte: u8) -> bool
    ensures { IsTrue result ↔ IsAgentByte byte }
{
    byte == b'\t' || (byte >= b' ' && byte <= b'~')
}

/// Whether a program may have this name.
fn is_agent(text: &str) -> bool
    ensures { IsTrue result ↔ IsAgent text.now }
{
    let bytes = text.as_bytes();
    !bytes.is_empty()
        && bytes.len() <= MAX_AGENT
        && bytes.iter().all(|byte| is_agent_byte(*byte))
        && trim_blanks(bytes) == bytes
}

impl Agent {
    /// The name that a text is, or `None` if it isn't one to 256 visible bytes of ASCII and blanks, or has a blank at
    /// an end.
    pub fn new(alloc: Global, text: &str) -> Result<Option<Agent>, AllocError>
        ensures { IfOk result (λ found. MatchOption found (¬ IsAgent text.now)
            (λ agent. (agent ≡ text.now) × IsAgent text.now)) }
    {
        if !is_agent(text) {
            return Ok(None);
        }
        let text = String::from_str(alloc, text)?;
        Ok(Some(Agent { text }))
    }

    /// Its text.
    pub fn as_str(&self) -> &str
        ensures { result.now ≡ self.now }
    {
        self.text.as_str()
    }
}
