//! A message, as a world keeps it.
use memento_time::Octets;

/// A message: the number of the replica that sent it, and the bytes that travel.
#[derive(Debug, Drop)]
pub struct SentMessage {
    pub sender: usize,
    pub bytes: Octets,
}
