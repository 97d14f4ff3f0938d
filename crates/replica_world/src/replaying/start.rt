//! The first line of a script.
ghost use Rattle.std.specs.Prelude.{◌≡◌, ◌≤◌, IfOk, IfSome};
ghost use Rattle.std.specs.Option.{option_map, option_and_then};
ghost use Rattle.timemap_writer.specs.Service.{base_of};
ghost use Rattle.replica_world.specs.Fields.{utf8_text};
ghost use Rattle.replica_world.specs.Script.{replicas_of, service_of, start_of, start_at};
ghost use Rattle.replica_world.specs.Spelled.{start_view};

use crate::replaying::fields::{line, number_field, utf8_text};
use memento_time::NoMemory;
use std::alloc::Global;
use text_fields::next_field;
use timemap_writer::{Service, ServiceFault};

const MOST_REPLICAS: u64 = 16;

/// The number of replicas and their service.
#[derive(Debug, Drop)]
pub(crate) struct Start {
    pub(crate) replicas: usize,
    pub(crate) service: Service,
}

/// The service that a text names.
fn service_in(alloc: Global, text: &[u8]) -> Result<Option<Service>, NoMemory>
    ensures { IfOk result (λ service. service ≡ service_of text.now) }
{
    let Some(text) = utf8_text(text) else {
        return Ok(None);
    };
    match Service::new(alloc, text) {
        Ok(service) => Ok(Some(service)),
        Err(ServiceFault::BadBase) => Ok(None),
        Err(ServiceFault::NoMemory) => Err(NoMemory),
    }
}

/// The count of replicas and the base that `replicas N BASE` names.
fn replicas_in(line: &[u8]) -> Option<(u64, &[u8])>
    ensures named { option_map (λ p. (p.0, p.1.now)) result ≡ replicas_of line.now }
    ensures some { IfSome result (λ p. 1 ≤ p.0) }
    ensures few { IfSome result (λ p. p.0 ≤ 16) }
{
    let (word, fields) = next_field(line)?;
    let (replicas, base) = number_field(fields)?;
    if word != b"replicas".as_slice() || replicas == 0 || replicas > MOST_REPLICAS {
        return None;
    }
    Some((replicas, base))
}

/// `replicas N BASE`.
#[tactic(auto, unfolding(crate::specs::Script::start_of))]
fn start_in(alloc: Global, line: &[u8]) -> Result<Option<Start>, NoMemory>
    ensures start { IfOk result (λ start. option_map start_view start ≡ start_of line.now) }
    ensures some { IfOk result (λ start. IfSome start (λ s. 1 ≤ s.replicas)) }
    ensures few { IfOk result (λ start. IfSome start (λ s. s.replicas ≤ 16)) }
{
    let Some((replicas, base)) = replicas_in(line) else {
        return Ok(None);
    };
    let Some(service) = service_in(alloc, base)? else {
        return Ok(None);
    };
    Ok(Some(Start {
        replicas: replicas as usize,
        service,
    }))
}

/// What the first line of a text says, and the text after it. `None` if the line is bad.
#[tactic(auto, unfolding(crate::specs::Script::start_at))]
pub(crate) fn start_at(alloc: Global, text: &[u8]) -> Result<Option<(Start, &[u8])>, NoMemory>
    ensures found { IfOk result (λ found. option_map (λ p. (start_view p.0, p.1.now)) found ≡ start_at text.now) }
    ensures some { IfOk result (λ found. IfSome found (λ p. 1 ≤ p.0.replicas)) }
    ensures few { IfOk result (λ found. IfSome found (λ p. p.0.replicas ≤ 16)) }
{
    let Some((line, rest)) = line(text) else {
        return Ok(None);
    };
    let Some(start) = start_in(alloc, line)? else {
        return Ok(None);
    };
    Ok(Some((start, rest)))
}
