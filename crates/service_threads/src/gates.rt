//! The gates of a service, and the address of its status. Each has a thread that binds and serves it.
ghost use Rattle.std.specs.Prelude.{◌≡◌, Err, IfErr, IfOk};

use crate::faults::ServeFault;
use crate::shared::Shared;
use crossbeam_channel::{Receiver, Sender, bounded};
use format_gates::{FormGate, NamesForms};
use harvester::SocketRuntime;
use hyper_edge::{
    Answers, Bound, EdgeFault, GateService, ReadyGate, bind, serve_gate, serve_together,
};
use part_gates::{NamesBase, PartGate};
use round_values::Log;
use service_log::{GateEnd, Line};
use service_settings::Settings;
use service_status::{CountingGate, ReplyCounter, StatusGate};
use std::alloc::{AllocGlobal, Global};
use std::io::Write;
use std::sync::Wait;
use std::thread::{self, JoinHandle, Threads};
use switching_gates::{GateSlot, SwitchingGate};
use wishing_gates::WishingGate;

/// How a gate's thread ends.
type Ending = Result<(), ServeFault>;

/// A gate as its thread serves it: it goes on with each gate that it is handed, answers with parts of deltas and in the
/// settings' forms, once it is ready, and notes what readers wish for. Its replies are counted. The type `N` has the
/// base and the forms.
pub type ServedGate<R, N> = CountingGate<
    FormGate<WishingGate<ReadyGate<SwitchingGate<PartGate<N>, R>>, R>, N>,
>;

/// A gate's thread, as the thread that makes the rounds sees it.
#[derive(Drop)]
struct Listener {
    thread: JoinHandle<Ending>,
    /// Receives the port once it is bound.
    port: Receiver<u16>,
    /// Tells the thread to serve. If it is dropped first, the thread ends.
    start: Sender<()>,
}

/// What a listener serves.
#[derive(Clone, Copy)]
enum Served {
    /// The gate with this number in the settings, counted from 1.
    Gate(u64),
    Status,
}

impl Served {
    /// What the log is told once the listener at this address is closed.
    fn line(self, address: &str, end: GateEnd) -> Line<'_> {
        match self {
            Served::Gate(number) => Line::Gate {
                number,
                address,
                end,
            },
            Served::Status => Line::Status { address, end },
        }
    }
}

/// What is served, and where it listens.
#[derive(Clone, Copy)]
struct Place<'a> {
    served: Served,
    address: &'a str,
}

/// How many connections are served, and how many of them at once.
#[derive(Clone, Copy)]
struct Load {
    connections: u64,
    together: u64,
    /// For how many seconds requests are held, if they are.
    wait: Option<u64>,
}

impl Load {
    /// What each gate serves.
    fn of(settings: &Settings) -> Load {
        Load {
            connections: settings.connections,
            together: settings.together,
            wait: settings.wait,
        }
    }

    /// The same connections, one after the other.
    fn in_turn(self) -> Load {
        Load {
            together: 1,
            wait: None,
            ..self
        }
    }
}

/// What a gate's thread and the thread that makes the rounds tell each other.
#[derive(Drop)]
struct Signals {
    /// Tells the port once it is bound.
    port: Sender<u16>,
    /// Says that the gate is to be served.
    start: Receiver<()>,
}

/// What a gate's thread is given.
#[derive(Drop)]
struct Task<G> {
    alloc: Global,
    gate: G,
    served: Served,
    address: String,
    load: Load,
    signals: Signals,
}

/// Gates that are bound and served.
#[derive(Drop)]
pub struct Listeners {
    threads: Vec<JoinHandle<Ending>>,
    ports: Vec<u16>,
    status: Option<u16>,
}

impl Listeners {
    /// The ports that were bound, in the order of the gates.
    pub fn ports(&self) -> &[u16]
        ensures { result.now ≡ self.now.ports.items }
    {
        &self.ports
    }

    /// The port of the status, if the settings ask for one.
    pub fn status(&self) -> Option<u16>
        ensures { result ≡ self.now.status }
    {
        self.status
    }

    /// Waits until each gate has served its last connection. Returns the first fault, in the order of the gates.
    pub fn wait(self, rt: &(impl Threads + Wait)) -> Ending {
        wait_for(rt, self.threads)
    }
}

fn wait_for(rt: &(impl Threads + Wait), threads: Vec<JoinHandle<Ending>>) -> Ending {
    let mut ending = Ok(());
    for thread in threads {
        ending = first_fault(ending, thread.join(rt));
    }
    ending
}

/// The first of two faults.
fn first_fault(first: Ending, then: Ending) -> Ending
    ensures ok { IfOk first (λ _. result ≡ then) }
    ensures err { IfErr first (λ fault. result ≡ Err fault) }
{
    match first {
        Ok(()) => then,
        Err(fault) => Err(fault),
    }
}

/// A gate as its thread serves it.
fn served_gate<R, N>(
    rt: &R,
    settings: &Settings,
    gate: PartGate<N>,
    shared: &Shared<N>,
    counter: &ReplyCounter,
    slot: &GateSlot<PartGate<N>>,
) -> Result<ServedGate<R, N>, ServeFault>
where
    R: SocketRuntime + Clone + Drop,
    N: NamesBase + NamesForms,
    requires { settings.now.forms ≡ N.forms }
{
    let (Ok(readiness), Ok(book), Ok(counter), Ok(slot)) = (
        shared.readiness.share(),
        shared.book.share(),
        counter.share(),
        slot.share(),
    ) else {
        return Err(ServeFault::NoMemory);
    };
    let gate = SwitchingGate::new(rt.clone()?, gate, slot);
    let gate = WishingGate::new(rt.clone()?, ReadyGate::new(gate, readiness), book);
    let gate = FormGate::new(rt.alloc(), gate, settings.forms);
    Ok(CountingGate::new(gate, counter))
}

/// The gate of the status.
fn status_gate<R, N>(rt: &R, shared: &Shared<N>) -> Result<StatusGate<R>, ServeFault>
where
    R: SocketRuntime + Clone + Drop,
    N: NamesBase,
{
    let own = rt.clone()?;
    match shared.telling.gate(own, rt.alloc()) {
        Ok(Some(gate)) => Ok(gate),
        Ok(None) => Err(ServeFault::NoGate),
        Err(_) => Err(ServeFault::NoMemory),
    }
}

/// Binds each gate and the status in a thread of its own, and lets all serve once all are bound. What the gates may
/// reply is in `laws::served_gates_reply_so`.
pub fn open_listeners<R, L, N>(
    rt: &R,
    settings: &Settings,
    gates: Vec<PartGate<N>>,
    shared: &Shared<N>,
    log: Log<L>,
) -> Result<Listeners, ServeFault>
where
    R: SocketRuntime + Threads + Sync + Send + Clone + Drop + 'static,
    L: Write + Copy + Send + 'static,
    N: NamesBase + NamesForms + Send + Sync + 'static,
    requires { settings.now.forms ≡ N.forms }
{
    let alloc = rt.alloc();
    let mut listeners = Vec::with_capacity(alloc, gates.len())?;
    let mut fault = None;
    let load = Load::of(settings);
    let places = settings
        .gates
        .iter()
        .zip(shared.telling.counters().iter().zip(&shared.slots));
    for (number, (gate, (address, (counter, slot)))) in (1..).zip(gates.into_iter().zip(places)) {
        let place = Place {
            served: Served::Gate(number),
            address: address.as_str(),
        };
        let opened = match served_gate(rt, settings, gate, shared, counter, slot) {
            Ok(gate) => open_listener(rt, gate, place, load, log),
            Err(refused) => Err(refused),
        };
        match opened {
            Ok(listener) => listeners.push(listener)?,
            Err(refused) => fault = Some(refused),
        }
    }
    let Some(address) = &settings.status else {
        return start_all(rt, listeners, fault);
    };
    let place = Place {
        served: Served::Status,
        address: address.as_str(),
    };
    let opened = match status_gate(rt, shared) {
        Ok(gate) => open_listener(rt, gate, place, load.in_turn(), log),
        Err(refused) => Err(refused),
    };
    match opened {
        Ok(listener) => listeners.push(listener)?,
        Err(refused) => fault = Some(refused),
    }
    let mut opened = start_all(rt, listeners, fault)?;
    // The program ends with its gates, however many connections the status has served.
    drop(opened.threads.pop());
    opened.status = opened.ports.pop();
    Ok(opened)
}

/// Starts a listener's thread.
fn open_listener<R, G, L>(
    rt: &R,
    gate: G,
    place: Place<'_>,
    load: Load,
    log: Log<L>,
) -> Result<Listener, ServeFault>
where
    R: SocketRuntime + Threads + Sync + Send + Clone + Drop + 'static,
    G: Answers + Send + 'static,
    L: Write + Copy + Send + 'static,
{
    let alloc = rt.alloc();
    let own = rt.clone()?;
    let (port_in, port_out) = bounded(alloc, 1)?;
    let (start_in, start_out) = bounded(alloc, 1)?;
    let task = Task {
        alloc,
        gate,
        served: place.served,
        address: String::from_str(alloc, place.address)?,
        load,
        signals: Signals {
            port: port_in,
            start: start_out,
        },
    };
    match thread::spawn(rt, move || run_listener(&own, task, log)) {
        Ok(thread) => Ok(Listener {
            thread,
            port: port_out,
            start: start_in,
        }),
        Err(_) => Err(ServeFault::NoGate),
    }
}

/// Runs a listener's thread: keeps the gate, and tells the log how that ended.
fn run_listener<R, G, L>(rt: &R, task: Task<G>, log: Log<L>) -> Ending
where
    R: SocketRuntime + Clone + Drop,
    G: Answers,
    L: Write + Copy,
{
    let Task {
        alloc,
        gate,
        served,
        address,
        load,
        signals,
    } = task;
    let kept = serve_when_asked(rt, alloc, gate, address.as_str(), load, &signals);
    let address = address.as_str();
    let end = match kept {
        Ok(true) => GateEnd::Served,
        Ok(false) => return Ok(()),
        Err(fault) => GateEnd::Failed(fault),
    };
    log.tell(alloc, served.line(address, end));
    kept?;
    Ok(())
}

/// Binds a gate, says so, and serves it once that is asked for. Returns whether it was asked for.
fn serve_when_asked<R, G>(
    rt: &R,
    alloc: Global,
    gate: G,
    address: &str,
    load: Load,
    signals: &Signals,
) -> Result<bool, EdgeFault>
where
    R: SocketRuntime + Clone + Drop,
    G: Answers,
{
    let own = rt.clone()?;
    let mut bound = bind(rt, address)?;
    let Ok(service) = GateService::new(alloc, own, gate) else {
        return Err(EdgeFault::NoMemory);
    };
    if signals.port.send(rt, bound.port()).is_err() || signals.start.recv(rt).is_err() {
        return Ok(false);
    }
    serve(rt, &mut bound, &service, load)?;
    Ok(true)
}

/// Serves a gate that is bound: one connection after the other, or several at once.
fn serve<R, G>(
    rt: &R,
    bound: &mut Bound,
    service: &GateService<G, R>,
    load: Load,
) -> Result<u64, EdgeFault>
where
    R: SocketRuntime + Clone + Drop,
    G: Answers,
{
    if load.together == 1 {
        return serve_gate(rt, bound, service, load.connections);
    }
    let Some(seconds) = load.wait else {
        return serve_together(rt, bound, service, load.connections, load.together);
    };
    // The other half answers at once, however much is asked for that nobody knows.
    let Ok(service) = service.holding(bound, seconds, load.together / 2) else {
        return Err(EdgeFault::NoMemory);
    };
    serve_together(rt, bound, &service, load.connections, load.together)
}

/// Lets the gates serve if all of them are bound and nothing went wrong before. Otherwise no gate serves, and all
/// threads end.
fn start_all<R>(
    rt: &R,
    listeners: Vec<Listener>,
    before: Option<ServeFault>,
) -> Result<Listeners, ServeFault>
where
    R: Threads + Wait + AllocGlobal,
{
    let alloc = rt.alloc();
    let mut threads = Vec::with_capacity(alloc, listeners.len())?;
    let mut ports = Vec::with_capacity(alloc, listeners.len())?;
    let mut starts = Vec::with_capacity(alloc, listeners.len())?;
    let mut fault = before;
    for listener in listeners {
        match listener.port.recv(rt) {
            Ok(port) => ports.push(port)?,
            Err(_) => fault = Some(ServeFault::NoGate),
        }
        threads.push(listener.thread)?;
        starts.push(listener.start)?;
    }
    if let Some(fault) = fault {
        drop(starts);
        wait_for(rt, threads)?;
        return Err(fault);
    }
    for start in starts {
        let _ = start.send(rt, ());
    }
    Ok(Listeners {
        threads,
        ports,
        status: None,
    })
}
