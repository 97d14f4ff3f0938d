//! The schedule of rounds: which archive is asked next, for which original, and when.
//!
//! A round asks each archive once for each original. In a round of two archives and three originals, `offer` names the
//! first job of the first archive. `hand_out` gives leave to walk this job (a `Permit`), and `offer` then names the
//! first job of the second archive, since archives take turns. `done` notes how a walk ended: an archive that is busy
//! until a second is offered again from that second on, and an archive that failed too often in a row is dormant for a
//! while. `next_time` says when a job may be offered again, `is_over` whether the round is over, and `begin` begins the
//! next round. Walks for readers are beyond the list of a round: `begin_walk` and `end_walk`. The tests in
//! `src/tests.rt` begin with such a round.
//!
//! A time is a number of milliseconds that the caller counts. `lanes` has the jobs of one archive, `moods` what is
//! known of an archive's readiness, `schedules` all archives, and `turns` how a job is named; `laws` says what holds of
//! rounds.
#![tactic(auto)]

mod lanes;
mod laws;
mod moods;
mod permits;
mod schedules;
#[cfg(test)]
mod tests;
mod turns;

pub use lanes::Lane;
pub use laws::{
    archives_are_paced, archives_stand_alone, archives_wait, busy_archives_are_heeded,
    failures_in_a_row_make_dormant, few_failures_are_borne, jobs_are_counted,
    jobs_wait_for_one_wish, one_walk_goes_first, rounds_are_fair, signs_make_no_archive_dormant,
    times_are_exact, walks_are_few, what_is_left_is_dormant, wishes_wait_for_one_job,
};
pub use moods::{Limits, Mood, Pace, Verdict};
pub use permits::Permit;
pub use schedules::Schedule;
pub use turns::Turn;
