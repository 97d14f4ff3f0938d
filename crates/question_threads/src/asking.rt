//! Questions that are asked once: for one original, or for those of a list.
ghost use Rattle.std.specs.Prelude.{◌≡◌, OnOk, OnErr};
ghost use Rattle.std.specs.Arc.{arc_value};
ghost use Rattle.question_threads.specs.Jobs.{Covers, MayAnswer, any_fault, jobs_of};
ghost use Rattle.question_threads.specs.Queued.{AreBegun, AreWritten, AsksTheSame, OneIsBegun, OneIsWritten};

use crate::desks::{Count, Desk, TICK};
use crate::faults::AskFault;
use crate::lists::{Line, List, Next};
use crate::pool::Pool;
use crate::telling::Teller;
use crate::terms::Terms;
use harvest_workers::WalkRules;
use harvester::SocketRuntime;
use memento_time::Original;
use service_settings::Sources;
use single_questions::{Outcome, Want};
use std::alloc::{AllocGlobal, Global};
use std::io::{Read, Write};
use std::marker::Brand;
use std::net::{Net, TcpListener, TcpStream};
use std::random::RandomSource;
use std::sync::{Arc, Wait};
use std::thread::Threads;
use std::time::Clock;

/// What asking for the originals of a list came to.
#[derive(Clone, Copy, Debug, PartialEq, Eq)]
pub struct Ended {
    /// What the answers come to.
    pub outcome: Outcome,
    /// How many lines hold no original.
    pub bad: u64,
}

/// Asks each archive for an original, and writes the answer to `out`: the text of what harvests show each of which came
/// of a walk for the original, by a job of an archive of `sources`. After an error a beginning of such an answer may
/// stand there. No contract says which archives answered, as that is up to threads.
pub fn ask_one<R, W, E>(
    rt: &R,
    sources: Sources,
    want: Want,
    original: Original,
    out: &mut W,
    teller: Teller<E>,
) -> Result<Outcome, AskFault>
where
    R: Threads
        + Wait
        + Clock
        + Net<Listener = TcpListener, Stream = TcpStream>
        + RandomSource
        + AllocGlobal
        + Sync
        + Send
        + Clone
        + Drop
        + 'static,
    W: Write,
    E: Write + Copy,
    ensures ok { OnOk result (OneIsWritten (jobs_of sources) (MayAnswer sources) any_fault want sources.base original
        (W.contents out.old) (W.contents out.new)) }
    ensures err { OnErr result (OneIsBegun (jobs_of sources) (MayAnswer sources) any_fault want sources.base original
        (W.contents out.old) (W.contents out.new)) }
{
    let sources = Arc::new(rt.alloc(), sources)?;
    answer_one::<R, W, E, Brand>(rt, sources, want, original, out, teller)
}

fn answer_one<R, W, E, P>(
    rt: &R,
    sources: Arc<Sources, Global>,
    want: Want,
    original: Original,
    out: &mut W,
    teller: Teller<E>,
) -> Result<Outcome, AskFault>
where
    R: SocketRuntime + Threads + Sync + Send + Clone + Drop + 'static,
    W: Write,
    E: Write + Copy,
    P: WalkRules + Send + Sync + 'static,
    requires { Covers (arc_value sources) P.jobs P.answers P.faults }
    ensures ok { OnOk result (OneIsWritten P.jobs P.answers P.faults want (arc_value sources).base original
        (W.contents out.old) (W.contents out.new)) }
    ensures err { OnErr result (OneIsBegun P.jobs P.answers P.faults want (arc_value sources).base original
        (W.contents out.old) (W.contents out.new)) }
{
    let terms: Terms<P> = Terms::new(sources);
    let pool = Pool::start(rt, &terms)?;
    let mut desk = Desk::new(rt, &terms, &pool, want, Count::One, teller)?;
    desk.add(original)?;
    for _ in rt.forever() {
        desk.hand_out()?;
        desk.write_ready(out)?;
        if desk.is_done() {
            return Ok(desk.outcome());
        }
        desk.wait()?;
    }
    unreachable!()
}

/// Asks each archive for the originals of a list, one a line, and writes the answers to `out`, in the order of the
/// list. A line of nothing but blanks is passed over, and one that holds no original is told by its number.
///
/// Each answer is as that of `ask_one`. After an error a beginning of one more may stand behind them. No contract says
/// which originals the list holds, as another thread reads it.
pub fn ask_list<R, I, W, E>(
    rt: &R,
    sources: Sources,
    want: Want,
    input: I,
    out: &mut W,
    teller: Teller<E>,
) -> Result<Ended, AskFault>
where
    R: Threads
        + Wait
        + Clock
        + Net<Listener = TcpListener, Stream = TcpStream>
        + RandomSource
        + AllocGlobal
        + Sync
        + Send
        + Clone
        + Drop
        + 'static,
    I: Read + Send + Drop + 'static,
    W: Write,
    E: Write + Copy,
    ensures ok { OnOk result (AreWritten (jobs_of sources) (MayAnswer sources) any_fault want sources.base
        (W.contents out.old) (W.contents out.new)) }
    ensures err { OnErr result (AreBegun (jobs_of sources) (MayAnswer sources) any_fault want sources.base
        (W.contents out.old) (W.contents out.new)) }
{
    let sources = Arc::new(rt.alloc(), sources)?;
    let list = List::start(rt, input)?;
    answer_list::<R, W, E, Brand>(rt, sources, want, &list, out, teller)
}

fn answer_list<'a, R, W, E, P>(
    rt: &'a R,
    sources: Arc<Sources, Global>,
    want: Want,
    list: &'a List,
    out: &mut W,
    teller: Teller<E>,
) -> Result<Ended, AskFault>
where
    R: SocketRuntime + Threads + Sync + Send + Clone + Drop + 'static,
    W: Write,
    E: Write + Copy,
    P: WalkRules + Send + Sync + 'static,
    requires { Covers (arc_value sources) P.jobs P.answers P.faults }
    ensures ok { OnOk result (AreWritten P.jobs P.answers P.faults want (arc_value sources).base
        (W.contents out.old) (W.contents out.new)) }
    ensures err { OnErr result (AreBegun P.jobs P.answers P.faults want (arc_value sources).base
        (W.contents out.old) (W.contents out.new)) }
{
    let terms: Terms<P> = Terms::new(sources);
    let pool = Pool::start(rt, &terms)?;
    let desk = Desk::new(rt, &terms, &pool, want, Count::Many, teller)?;
    let mut asker = Asker {
        desk,
        list,
        is_over: false,
        bad: 0,
    };
    for _ in rt.forever() {
        asker.read_more()?;
        asker.desk.take_waiting()?;
        asker.desk.hand_out()?;
        asker.desk.write_ready(out)?;
        if asker.is_over && asker.desk.is_done() {
            return Ok(asker.ended());
        }
        asker.wait()?;
    }
    unreachable!()
}

/// Asks for the originals of a list.
#[derive(Drop)]
struct Asker<'a, R, P: WalkRules, E: Copy> {
    desk: Desk<'a, R, P, E>,
    list: &'a List,
    /// Whether the list is over.
    is_over: bool,
    /// How many lines hold no original.
    bad: u64,
}

impl<R, P, E> Asker<'_, R, P, E>
where
    R: SocketRuntime,
    P: WalkRules,
    E: Write + Copy,
{
    fn ended(&self) -> Ended {
        Ended {
            outcome: self.desk.outcome(),
            bad: self.bad,
        }
    }

    /// Takes lines that wait, as far as there is room.
    fn read_more(&mut self) -> Result<(), AskFault>
        ensures { AsksTheSame self.old.desk.queue self.new.desk.queue }
    {
        for _ in self.desk.rt.forever() {
            if self.is_over || !self.desk.has_room() {
                return Ok(());
            }
            let next = self.list.next(self.desk.rt);
            if matches!(next, Next::Nothing) {
                return Ok(());
            }
            self.take(next)?;
        }
        Ok(())
    }

    /// Takes what came next of the list.
    fn take(&mut self, next: Next) -> Result<(), AskFault>
        ensures { AsksTheSame self.old.desk.queue self.new.desk.queue }
    {
        match next {
            Next::Line(Line::Original(original)) => self.desk.add(original)?,
            Next::Line(Line::Bad(number)) => {
                self.bad = self.bad.saturating_add(1);
                self.desk.tell_bad_line(number);
            }
            Next::Line(Line::NoMemory) => return Err(AskFault::NoMemory),
            Next::Line(Line::Unread) => return Err(AskFault::Device),
            Next::Nothing => {}
            Next::End => self.is_over = true,
        }
        Ok(())
    }

    /// Waits for what comes: a report, or a line if nothing is out.
    fn wait(&mut self) -> Result<(), AskFault>
        ensures { AsksTheSame self.old.desk.queue self.new.desk.queue }
    {
        if !self.desk.is_done() {
            return self.desk.wait();
        }
        let next = self.list.wait(self.desk.rt, TICK);
        self.take(next)
    }
}
