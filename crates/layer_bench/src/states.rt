//! Reading the text of a state, and what is done with the state.
use anyhow::Result;
use memento_index::{Index, Merge};
use replica_exchange::{read_state, write_state};
use std::alloc::Global;

/// Reads the text, and writes the state again: how long that is.
pub(crate) fn rewrite(alloc: Global, text: &[u8]) -> Result<usize> {
    let state = read_state(alloc, text)?;
    Ok(write_state(alloc, &state)?.len())
}

/// Reads the text, and has an index of nothing absorb the state that another replica sent: how many keys it has then.
pub(crate) fn absorb(alloc: Global, text: &[u8]) -> Result<usize> {
    let state = read_state(alloc, text)?;
    let mut index = Index::new(alloc);
    index.absorb(&Merge::State(state))?;
    Ok(index.state().len())
}
