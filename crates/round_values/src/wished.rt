//! What a wish's walk says, and when an archive is passed over.
ghost use Rattle.std.specs.Prelude.{◌≡◌, ◌⊎◌, ◌↔◌, ◌≤◌, IsSomeAnd, IsTrue, [], option_map};
ghost use Rattle.memento_sets.specs.Sets as set;
ghost use Rattle.round_values.specs.Dues.{IsDueAt};
ghost use Rattle.round_values.specs.Wishes as spec;
ghost use Rattle.round_values.specs.Wishes.{IsLeftAlone, IsWaitedFor};

use crate::times::Millis;
use harvest_lattice::Harvest;
use harvest_schedule::Mood;
use harvester::WalkFault;
use service_settings::Timing;
use wish_list::WishAnswer;

/// For how many seconds what is known isn't asked for again by wishes, where the settings don't say it.
pub const DEFAULT_AGAIN: u64 = 86_400;

/// For how many milliseconds wishes wait at most for an archive that is busy. Whoever asked on the page of an unknown
/// original is told for about one and a half minutes what comes.
const MOST_WAIT: u64 = 60_000;

/// What an archive gave that was asked for a wish. A part of nothing is no harvest.
pub fn answer_to(walked: &Result<Harvest, WalkFault>) -> WishAnswer
    ensures { result ≡ spec.answer_to walked.now }
{
    match walked {
        Ok(harvest) if !harvest.mementos().is_empty() => WishAnswer::Copies,
        Ok(harvest) if harvest.is_part() => WishAnswer::NoHarvest,
        Ok(_) => WishAnswer::NoCopies,
        Err(_) => WishAnswer::NoHarvest,
    }
}

/// Whether a wish's harvest is kept: it has mementos, or something of its original is shown. What has none of an
/// original of which nothing is shown would stay for good, and changes no reply.
pub fn is_kept(harvest: &Harvest, is_shown: bool) -> bool
    ensures { IsTrue result ↔ (¬ (set.items harvest.now.mementos ≡ []) ⊎ IsTrue is_shown) }
{
    !harvest.mementos().is_empty() || is_shown
}

/// How old what is known may be so that a wish doesn't ask for it.
pub fn wish_timing(timing: Timing) -> Timing
    ensures { result ≡ spec.wish_timing timing }
{
    let again = timing.again.unwrap_or(DEFAULT_AGAIN);
    Timing {
        again: Some(again),
        again_none: Some(timing.again_none.unwrap_or(again)),
        ahead: timing.ahead,
        publish: timing.publish,
        pull: timing.pull,
        parts: timing.parts,
    }
}

/// Whether the archive isn't asked before a later time. It may also be found out just now whether it answers.
pub fn is_left_alone(mood: Option<Mood>, now: Millis) -> bool
    ensures { IsTrue result ↔ IsLeftAlone now.0 mood }
{
    let Some(mood) = mood else {
        return false;
    };
    match mood.asked_from() {
        Some(until) => now.0 < until,
        None => false,
    }
}

/// Whether wishes wait for an archive that isn't asked before a later time, where some do so since a moment: it named
/// the time, and no wish waits longer than a minute in all. One that is dormant isn't waited for.
pub fn is_waited_for(mood: Option<Mood>, since: Option<Millis>, now: Millis) -> bool
    ensures { IsTrue result ↔ IsWaitedFor now.0 (option_map (λ since. since.0) since) mood }
{
    let since = match since {
        Some(since) => since,
        None => now,
    };
    match mood {
        Some(Mood::Aside { until, failed: _ }) => until <= since.after(MOST_WAIT).0,
        Some(
            Mood::Awake { failed: _ }
            | Mood::Tried { failed: _ }
            | Mood::Dormant { until: _, named: _ }
            | Mood::Probed,
        )
        | None => false,
    }
}

/// Whether so many milliseconds have passed since a moment, if there is one.
pub(crate) fn is_overdue(since: Option<Millis>, most: u64, now: Millis) -> bool
    ensures { IsTrue result ↔ IsSomeAnd since (λ since. IsDueAt since.0 most now.0) }
{
    match since {
        Some(since) => since.after(most).0 <= now.0,
        None => false,
    }
}

/// How many more wishes for originals of which nothing is shown may stand in the book: the state may have as many
/// entries as each archive has for the originals that rounds look after, and for so many wanted ones.
pub fn room_left(archives: usize, listed: usize, wanted: usize, entries: usize) -> usize
    ensures { result ≡ spec.room_left archives listed wanted entries }
{
    let most = listed.saturating_add(wanted).saturating_mul(archives);
    let left = most.saturating_sub(entries) / archives.max(1);
    left.min(wanted)
}
