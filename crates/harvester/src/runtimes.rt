//! What a fetch over sockets requires of a runtime.
use std::alloc::AllocGlobal;
use std::net::{Net, TcpListener, TcpStream};
use std::random::RandomSource;
use std::sync::Wait;
use std::time::Clock;

/// A runtime with std's sockets, a clock, waiting, random numbers and an allocator: one name for the bounds of what
/// fetches and serves. Functions that `main` or a test calls itself write the bounds out, because the borrow checker
/// doesn't cover a call by this name if its runtime isn't a parameter.
pub trait SocketRuntime: Wait
    + Clock
    + Net<Listener = TcpListener, Stream = TcpStream>
    + RandomSource
    + AllocGlobal {}

impl<R> SocketRuntime for R
where
    R: Wait + Clock + Net<Listener = TcpListener, Stream = TcpStream> + RandomSource + AllocGlobal,
{}
