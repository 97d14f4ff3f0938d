//! Until when the other side of a connection is waited for.
ghost use Rattle.std.specs.Prelude.{IfOk, IfSome};

use crate::limits::is_too_slow;
use crate::patience::Patience;
use futures::future::Either;
use futures::{Future, future};
use std::alloc::AllocGlobal;
use std::io;
use std::random::RandomSource;
use std::sync::Wait;
use std::sync::atomic::{AtomicU64, Ordering};
use std::time::{Clock, Duration, Instant};
use tokio::runtime::LocalRuntime;

/// Until when a future is waited for.
#[derive(Clone, Copy)]
pub(crate) struct Limit<'a> {
    deadline: Instant,
    pace: Option<Pace<'a>>,
}

/// How fast the bytes of a body have to come.
#[derive(Clone, Copy)]
struct Pace<'a> {
    /// The fewest bytes a second.
    least: u64,
    /// When the head came.
    since: Instant,
    /// When the count is first looked at.
    first: Instant,
    /// How many bytes came.
    came: &'a AtomicU64,
}

impl<'a> Limit<'a> {
    /// Waits up to the deadline.
    pub(crate) fn until(deadline: Instant) -> Limit<'a> {
        Limit {
            deadline,
            pace: None,
        }
    }

    /// Waits up to the deadline for a body whose head came just now, and no longer than its bytes come fast enough.
    pub(crate) fn for_body(
        clock: &impl Clock,
        deadline: Instant,
        patience: Patience,
        rate: Option<u64>,
        came: &'a AtomicU64,
    ) -> io::Result<Limit<'a>> {
        let Some(least) = rate else {
            return Ok(Limit::until(deadline));
        };
        let since = Instant::now(clock)?;
        let first = since.checked_add(patience.for_head()).unwrap_or(deadline);
        let pace = Pace {
            least,
            since,
            first,
            came,
        };
        Ok(Limit {
            deadline,
            pace: Some(pace),
        })
    }

    /// When the wait is looked at first: at the deadline, or once the pace can be told.
    fn first_look(self) -> Instant {
        match self.pace {
            Some(pace) => pace.first.min(self.deadline),
            None => self.deadline,
        }
    }

    /// When the wait is looked at next: a second later. `TimedOut` if the deadline has passed, or if too few bytes
    /// came.
    fn look_after(self, clock: &impl Clock, look: Instant) -> io::Result<Instant> {
        let Some(pace) = self.pace else {
            return Err(io::Error::from(io::ErrorKind::TimedOut));
        };
        let now = Instant::now(clock)?;
        let seconds = now.duration_since(pace.since).as_secs();
        let came = pace.came.load(Ordering::SeqCst);
        if look >= self.deadline || is_too_slow(came, pace.least, seconds) {
            return Err(io::Error::from(io::ErrorKind::TimedOut));
        }
        let next = now.checked_add(Duration::from_secs(1));
        Ok(next.unwrap_or(self.deadline).min(self.deadline))
    }
}

/// What a future gives within the limit. Otherwise the error is `TimedOut`.
fn in_time<R, F>(
    rt: &R,
    runtime: &mut LocalRuntime,
    wanted: F,
    limit: Limit<'_>,
) -> io::Result<F::Output>
where
    R: Wait + Clock + RandomSource + AllocGlobal,
    F: Future,
    requires { F.can_poll wanted }
    ensures { IfOk result (F.gives wanted) }
{
    let mut waiting = wanted;
    let mut look = limit.first_look();
    for _ in rt.forever() {
        let sleep = runtime.handle().time().sleep_until(look)?;
        match runtime.block_on(rt, future::select(waiting, sleep))? {
            Either::Left((given, _sleep)) => return Ok(given),
            Either::Right((_over, left)) => waiting = left,
        }
        look = limit.look_after(rt, look)?;
    }
    unreachable!()
}

/// What `wanted` gives within the limit, while the connection is driven, and the connection if it hasn't ended.
pub(crate) fn while_connected<R, F, C>(
    rt: &R,
    runtime: &mut LocalRuntime,
    wanted: F,
    connection: Option<C>,
    limit: Limit<'_>,
) -> io::Result<(F::Output, Option<C>)>
where
    R: Wait + Clock + RandomSource + AllocGlobal,
    F: Future,
    C: Future<Output: Drop>,
    requires wanted { F.can_poll wanted }
    requires connection { IfSome connection C.can_poll }
    ensures gives { IfOk result (λ r. F.gives wanted r.0) }
    ensures left { IfOk result (λ r. IfSome r.1 C.can_poll) }
{
    let Some(connection) = connection else {
        let given = in_time(rt, runtime, wanted, limit)?;
        return Ok((given, None));
    };
    match in_time(rt, runtime, future::select(wanted, connection), limit)? {
        Either::Left((given, connection)) => Ok((given, Some(connection))),
        Either::Right((_ended, wanted)) => {
            let given = in_time(rt, runtime, wanted, limit)?;
            Ok((given, None))
        }
    }
}
