//! Sockets that take connections.
ghost use Rattle.std.specs.Prelude.{◌≡◌, ◌⊎◌, IfErr};

use crate::faults::EdgeFault;
use std::alloc::AllocGlobal;
use std::net::{Net, ToSocketAddrs};
use std::random::RandomSource;
use std::time::Clock;
use tokio::net::TcpListener;
use tokio::runtime::LocalRuntime;

/// A socket that takes connections, and the runtime that drives them.
#[derive(Drop)]
pub struct Bound {
    pub(crate) runtime: LocalRuntime,
    pub(crate) listener: TcpListener,
    port: u16,
}

impl Bound {
    /// The port that was bound.
    pub fn port(&self) -> u16
        ensures { result ≡ self.now.port }
    {
        self.port
    }
}

/// Binds an address, such as `127.0.0.1:8080`. Port 0 asks for a free port.
pub fn bind<R>(rt: &R, address: &str) -> Result<Bound, EdgeFault>
where
    R: Clock + Net + RandomSource + AllocGlobal,
    ensures cause { IfErr result (λ fault. (fault ≡ EdgeFault.Bind) ⊎ (fault ≡ EdgeFault.NoMemory)) }
{
    let runtime = LocalRuntime::new(rt).map_err(|error| EdgeFault::of_binding(&error))?;
    let addresses = address
        .to_socket_addrs(rt)
        .map_err(|error| EdgeFault::of_binding(&error))?;
    for address in addresses {
        if let Ok(listener) = TcpListener::bind(rt, address, runtime.handle().reactor()) {
            let port = listener
                .local_addr()
                .map_err(|error| EdgeFault::of_binding(&error))?
                .port();
            return Ok(Bound {
                runtime,
                listener,
                port,
            });
        }
    }
    Err(EdgeFault::Bind)
}
