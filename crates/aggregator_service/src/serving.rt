//! Serves: gates in threads of their own, and rounds in the caller's thread.
ghost use Rattle.std.specs.Prelude.{◌≡◌, ◌&&◌, ◌||◌, ℕ, All, IfOk, List, OnOk, is_some, length, true};
ghost use Rattle.std.specs.Io.KnownBytes.{Appends};
ghost use Rattle.std.specs.Arc.{arc_value};
ghost use Rattle.service_threads.specs.Jobs.{Covers};
ghost use Rattle.round_values.specs.Keeping.{Starts};
ghost use Rattle.round_values.specs.Lines.{round_line};
ghost use Rattle.round_values.specs.declared.rounds.Round.{Round as Counts};
ghost use Rattle.aggregator_service.specs.Lines.{round_lines};
ghost use Rattle.round_values.specs.Ahead as ahead;
ghost use Rattle.forgetting.specs.Renewing.{AreGone};
ghost use Rattle.round_course.specs.Asking as asking;

use crate::beginning::{begin_rule, book_bounds};
use crate::making::Rounds;
use format_gates::NamesForms;
use harvest_workers::WalkRules;
use harvester::SocketRuntime;
use part_gates::{NamesBase, PartGate, part_gates};
use published_index::{Gate, Merger, open};
use round_course::{Course, EndedRound};
use round_standing::{Console, Standing};
use round_values::{
    Keeping, Log, Millis, Stopwatch, incarnation_now, last_taken, second_now, shuffle,
};
use service_ledger::{Begins, Ledger};
use service_log::Line;
use service_settings::Settings;
use service_threads::{Listeners, Means, ServeFault, Shared, Terms, forgets, open_listeners};
use std::alloc::{AllocGlobal, Global};
use std::hash::RandomState;
use std::io::Write;
use std::marker::Brand;
use std::net::{Net, SocketAddr, TcpListener, TcpStream};
use std::random::RandomSource;
use std::rt::Files;
use std::sync::{Arc, Wait};
use std::thread::Threads;
use std::time::Clock;

/// Serves by these settings until the last round and the last connection, and writes what it does to `out`, line by
/// line. If the settings ask for a log, what went wrong is written to `log`, one line for each call; each gate's thread
/// has a copy of it.
///
/// `NoMemory` only before the first round, or if a gate that has ended ran out of memory. After a failed write, no
/// further round is made, and `Device` is returned once the gates have ended.
pub fn serve_settings<R, W, L>(
    rt: &R,
    mut settings: Settings,
    mut out: W,
    log: L,
) -> Result<(), ServeFault>
where
    R: Threads
        + Wait
        + Clock
        + Net<Listener = TcpListener, Stream = TcpStream>
        + RandomSource
        + Files
        + AllocGlobal
        + Sync
        + Send
        + Clone
        + Drop
        + 'static,
    W: Write + Drop,
    L: Write + Copy + Send + 'static,
{
    let log = Log::new(log, settings.log);
    let service = match settings.base.try_clone() {
        Ok(service) => service,
        Err(_) => return Err(ServeFault::NoMemory),
    };
    let incarnation = incarnation_now(rt);
    if settings.timing.again.is_some() {
        // Replicas that share the work begin at other originals.
        shuffle(&mut settings.originals, incarnation);
    }
    let settings = Arc::new(rt.alloc(), settings)?;
    let (mut merger, gates) = open(rt, rt.alloc(), service, settings.gates.len(), incarnation)?;
    let keeping = take_snapshot_in(rt, &*settings, &mut merger, log);
    let opened = Opened {
        merger,
        gates,
        keeping,
        incarnation,
    };
    serve_opened::<R, W, L, Brand>(rt, &settings, opened, &mut out, log)?;
    writeln!(out, "done")?;
    out.flush()?;
    Ok(())
}

/// Takes in what the snapshot has, if the settings name one.
fn take_snapshot_in<R, L>(rt: &R, settings: &Settings, merger: &mut Merger, log: Log<L>) -> Keeping
where
    R: SocketRuntime + Files,
    L: Write + Copy,
    ensures { (now : ℕ) × Starts (ahead.last_taken settings.now.timing.ahead now) merger.old merger.new }
{
    let mut keeping = Keeping::new(&settings.storing, Millis(0));
    if let Some(path) = &settings.storing.snapshot {
        let last = last_taken(settings.timing.ahead, second_now(rt));
        let _ = keeping.take_in(rt, path.as_str(), last, merger, log);
    }
    keeping
}

/// Secret keys for hashes, where sets of originals are made.
fn secret_keys<R: RandomSource>(
    rt: &R,
    settings: &Settings,
) -> Result<Option<RandomState>, ServeFault>
    ensures forgets { IfOk result (λ keys. asking.forgets settings.now ≡ true → is_some keys ≡ true) }
    ensures sets { IfOk result (λ keys. is_some keys ≡ (is_some settings.now.wishing.wanted
        || (is_some settings.now.wishing.originals_file || asking.forgets settings.now))) }
{
    let has_sets = settings.wishing.wanted.is_some() || settings.wishing.originals_file.is_some();
    if !has_sets && !forgets(settings) {
        return Ok(None);
    }
    Ok(Some(RandomState::new(rt)?))
}

/// What a start makes before anything is served.
struct Opened {
    /// It has what the snapshot has.
    merger: Merger,
    gates: Vec<Gate>,
    keeping: Keeping,
    /// That of the merger.
    incarnation: u64,
}

/// Gates that aren't served yet, and what the rounds begin with.
#[derive(Drop)]
struct Begun<P: NamesBase> {
    gates: Vec<PartGate<P>>,
    keeping: Keeping,
    incarnation: u64,
}

/// Serves what a start made, by a ledger that begins with its merger.
fn serve_opened<R, W, L, P>(
    rt: &R,
    settings: &Arc<Settings, Global>,
    opened: Opened,
    out: &mut W,
    log: Log<L>,
) -> Result<(), ServeFault>
where
    R: SocketRuntime + Files + Threads + Sync + Send + Clone + Drop + 'static,
    W: Write,
    L: Write + Copy + Send + 'static,
    P: WalkRules + Begins + NamesBase + NamesForms + Send + Sync + 'static,
    requires covers { Covers (arc_value settings.now) P.jobs P.answers P.faults }
    requires begun { opened.merger ≡ P.begun }
    requires base { (arc_value settings.now).base ≡ P.base }
    requires forms { (arc_value settings.now).forms ≡ P.forms }
    requires gates { All (λ gate. gate.base ≡ P.base) opened.gates.items }
{
    let Opened {
        merger,
        gates,
        keeping,
        incarnation,
    } = opened;
    let mut ledger: Ledger<P> = Ledger::new(merger);
    let served = match part_gates(rt.alloc(), gates, settings.timing.room()) {
        Ok(gates) => {
            let begun = Begun {
                gates,
                keeping,
                incarnation,
            };
            serve_gates(rt, settings, begun, &mut ledger, out, log)
        }
        Err(_) => Err(ServeFault::NoMemory),
    };
    ledger.close(rt);
    served
}

/// Opens the gates' listeners, makes the rounds, and waits for the gates to end. What rounds take memory for is made
/// before the first gate answers.
fn serve_gates<R, W, L, P>(
    rt: &R,
    settings: &Arc<Settings, Global>,
    begun: Begun<P>,
    ledger: &mut Ledger<P>,
    out: &mut W,
    log: Log<L>,
) -> Result<(), ServeFault>
where
    R: SocketRuntime + Files + Threads + Sync + Send + Clone + Drop + 'static,
    W: Write,
    L: Write + Copy + Send + 'static,
    P: WalkRules + Begins + NamesBase + NamesForms + Send + Sync + 'static,
    requires covers { Covers (arc_value settings.now) P.jobs P.answers P.faults }
    requires base { (arc_value settings.now).base ≡ P.base }
    requires forms { (arc_value settings.now).forms ≡ P.forms }
{
    let Begun {
        gates,
        keeping,
        incarnation,
    } = begun;
    let terms: Terms<P> = Terms::new(Arc::try_clone(settings)?);
    let keys = secret_keys(rt, terms.settings())?;
    let mut means = Means::new(rt.alloc(), terms.settings(), keys)?;
    let mut standing = Standing::new(rt.alloc(), terms.settings(), keeping, incarnation)?;
    begin_rule(rt, &terms, &means.shared, &mut standing, ledger, log)?;
    let listeners = listen(rt, &terms, gates, &means.shared, &standing, ledger, log)?;
    let said = say_ports(&listeners, terms.settings(), out);
    let made = match said {
        Ok(()) => {
            means.start(rt, &terms);
            make_rounds(rt, &terms, &means, standing, ledger, out, log)
        }
        Err(fault) => Err(fault),
    };
    means.close(rt);
    // Gates may serve for a long time after the last round, so the log is told now.
    if made.is_err() {
        log.tell(rt.alloc(), Line::Output);
    }
    let ended = listeners.wait(rt);
    made?;
    ended
}

/// Makes the rounds with the threads that are started, and then writes a last snapshot.
fn make_rounds<R, W, L, P>(
    rt: &R,
    terms: &Terms<P>,
    means: &Means<P>,
    standing: Standing,
    ledger: &mut Ledger<P>,
    out: &mut W,
    log: Log<L>,
) -> Result<(), ServeFault>
where
    R: SocketRuntime + Files,
    W: Write,
    L: Write + Copy,
    P: WalkRules + Begins + NamesBase,
    requires base { (arc_value terms.now.settings).base ≡ P.base }
    requires keys { asking.forgets (arc_value terms.now.settings) ≡ true → is_some means.now.shared.keys ≡ true }
    ensures { OnOk result ((made : List Counts) × (length made ≡ (arc_value terms.now.settings).rounds)
        × Appends (W.contents out.old) (W.contents out.new) (round_lines 1 made)) }
{
    let console = Console {
        rt,
        log,
        telling: &means.shared.telling,
    };
    let course = Course {
        rt,
        terms,
        shared: &means.shared,
        watch: Stopwatch::start(rt),
        seed: incarnation_now(rt),
        console,
        standing,
        ledger,
    };
    let mut rounds = Rounds {
        course,
        pool: &means.pool,
        pullers: &means.pullers,
    };
    let made = make_all(&mut rounds, out);
    // From now on nothing changes.
    rounds.course.keep();
    made
}

/// Opens the gates' listeners, and tells what they share what is known by then. The rule of a service that forgets is
/// known, and nothing that is withdrawn is published.
fn listen<R, L, P>(
    rt: &R,
    terms: &Terms<P>,
    gates: Vec<PartGate<P>>,
    shared: &Shared<P>,
    standing: &Standing,
    ledger: &Ledger<P>,
    log: Log<L>,
) -> Result<Listeners, ServeFault>
where
    R: SocketRuntime + Threads + Sync + Send + Clone + Drop + 'static,
    L: Write + Copy + Send + 'static,
    P: WalkRules + Begins + NamesBase + NamesForms + Send + Sync + 'static,
    requires forms { (arc_value terms.now.settings).forms ≡ P.forms }
    requires gone { asking.forgets (arc_value terms.now.settings) ≡ true
        → AreGone standing.now.forgetting.withdrawn standing.now.forgetting.listed ledger.now.merger }
    requires read { asking.forgets (arc_value terms.now.settings) ≡ true
        → (is_some standing.now.forgetting.withdrawn && is_some standing.now.forgetting.listed) ≡ true }
{
    let (settings, merger) = (terms.settings(), ledger.merger());
    if !merger.published_state().is_empty() {
        shared.readiness.set();
        shared.telling.tell_snapshot(rt, merger);
    }
    book_bounds(rt, shared, settings, standing.list(settings), merger);
    open_listeners(rt, settings, gates, shared, log)
}

/// Writes a line for each gate, in the order of the settings, and one for the status, if the settings ask for it.
fn say_ports<W: Write>(
    listeners: &Listeners,
    settings: &Settings,
    out: &mut W,
) -> Result<(), ServeFault> {
    for (address, port) in settings.gates.iter().zip(listeners.ports()) {
        if let Ok(mut address) = address.parse::<SocketAddr>() {
            address.set_port(*port);
            writeln!(out, "gate {address}")?;
        }
    }
    if let (Some(address), Some(port)) = (&settings.status, listeners.status()) {
        if let Ok(mut address) = address.parse::<SocketAddr>() {
            address.set_port(port);
            writeln!(out, "status {address}")?;
        }
    }
    out.flush()?;
    Ok(())
}

/// Makes the rounds, and writes a line for each.
fn make_all<R, W, L, P>(rounds: &mut Rounds<'_, R, P, L>, out: &mut W) -> Result<(), ServeFault>
where
    R: SocketRuntime + Files,
    W: Write,
    L: Write + Copy,
    P: WalkRules + Begins + NamesBase,
    ensures { OnOk result ((made : List Counts)
        × (length made ≡ (arc_value rounds.old.course.terms.now.settings).rounds)
        × Appends (W.contents out.old) (W.contents out.new) (round_lines 1 made)) }
{
    let count = rounds.course.settings().rounds;
    rounds.greet();
    for made in 0..count {
        if made > 0 {
            rounds.wait_between();
        }
        let ended = rounds.make(made + 1);
        say_round(ended, out)?;
    }
    Ok(())
}

/// Writes the line of a round that has ended.
fn say_round<W: Write>(ended: EndedRound, out: &mut W) -> Result<(), ServeFault>
    ensures { OnOk result (Appends (W.contents out.old) (W.contents out.new) (round_line ended.number ended.round)) }
{
    let (number, round) = (ended.number(), ended.round());
    writeln!(out, "round {number} {round}")?;
    out.flush()?;
    Ok(())
}
