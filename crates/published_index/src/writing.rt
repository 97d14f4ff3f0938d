//! Steps of the merger's writer, over its log and its view.
ghost use Rattle.std.specs.Prelude.{◌≡◌, ◌≤◌, [], ◌∷◌, ◌++◌, drop, fold, IfOk, MatchResult};
ghost use Rattle.left_right.specs.Sides.{view as view_of};
ghost use Rattle.replica_events.specs.World.{last_number};
ghost use Rattle.published_index.specs.declared.marks.LogEntry.TheVariants.{Attempt};
ghost use Rattle.published_index.specs.Changes.{merges_in, after_change, batches_of, book_of};
ghost use Rattle.published_index.specs.Marks.{successes, successes_with_last, head_of};
ghost use Rattle.published_index.specs.Rule.{view_at, IsReady, Offers};

use crate::editions::Change;
use crate::marks::{Head, Mark, NamesEntry};
use crate::rules::{EditionWriter, Publication};
use memento_index::Merge;
use memento_time::NoMemory;
use std::alloc::{AllocError, Global};
use std::sync::Wait;

/// Appends the change to what is pending.
fn note(writer: &mut EditionWriter, change: Change) -> Result<(), NoMemory>
    ensures desk { writer.new.desk ≡ writer.old.desk }
    ensures log { MatchResult result
        (λ _. drop writer.new.behind writer.new.log.items
        ≡ drop writer.old.behind writer.old.log.items ++ change ∷ [])
        (λ _. drop writer.new.behind writer.new.log.items ≡ drop writer.old.behind writer.old.log.items) }
{
    match writer.append(change) {
        Ok(()) => Ok(()),
        Err(_) => Err(NoMemory),
    }
}

/// Appends the merge to what is pending.
pub(crate) fn add(writer: &mut EditionWriter, alloc: Global, merge: Merge) -> Result<(), NoMemory>
    ensures desk { writer.new.desk ≡ writer.old.desk }
    ensures log { MatchResult result
        (λ _. merges_in (drop writer.new.behind writer.new.log.items)
        ≡ merges_in (drop writer.old.behind writer.old.log.items) ++ merge ∷ [])
        (λ _. drop writer.new.behind writer.new.log.items ≡ drop writer.old.behind writer.old.log.items) }
{
    let merge = Box::new(alloc, merge)?;
    note(writer, Change::Add(merge))
}

/// Notes the attempt to publish what is pending, and appends the mark of that attempt.
pub(crate) fn offer<B: NamesEntry>(
    writer: &mut EditionWriter,
    head: &Head,
    mark: &mut Mark,
) -> Result<(), NoMemory>
    requires entry { B.entry ≡ Attempt (merges_in (drop writer.old.behind writer.old.log.items)) }
    requires head { head.now ≡ head_of mark.old.seen.book }
    requires shown { (book_of writer.old.desk.shown.value ≡ mark.old.seen.book)
        × (batches_of writer.old.desk.shown.value ≡ successes mark.old.seen.log) }
    ensures desk { writer.new.desk ≡ writer.old.desk }
    ensures pending { merges_in (drop writer.new.behind writer.new.log.items)
        ≡ merges_in (drop writer.old.behind writer.old.log.items) }
    ensures mark { (mark.new.seen.book ≡ mark.old.seen.book)
        × (successes mark.new.seen.log ≡ successes mark.old.seen.log) }
    ensures ready { IfOk result
        (λ _. Offers writer.new.desk.shown.value (drop writer.new.behind writer.new.log.items) mark.new
        × (successes_with_last mark.new.seen.log
        ≡ successes mark.old.seen.log ++ merges_in (drop writer.old.behind writer.old.log.items) ∷ [])) }
{
    let Some(attempted) = mark.record::<B>(head) else {
        return Err(NoMemory);
    };
    *mark = attempted;
    note(writer, Change::Reach(mark.copy()))
}

/// Shows what is pending. Its last change is the mark of an attempt.
pub(crate) fn show<R: Wait>(
    writer: EditionWriter,
    rt: &R,
) -> (EditionWriter, Result<(), AllocError>)
    requires { IsReady writer.desk.shown.value
        (fold after_change writer.desk.shown.value (drop writer.behind writer.log.items)) }
    ensures shown { MatchResult result.1
        (λ _. (result.0.desk.shown.value
        ≡ fold after_change writer.desk.shown.value (drop writer.behind writer.log.items))
        × (view_of result.0.desk.place ≡ view_at result.0.desk.shown.value)
        × (drop result.0.behind result.0.log.items ≡ []))
        (λ _. (result.0.desk.shown.value ≡ writer.desk.shown.value)
        × (view_of result.0.desk.place ≡ view_of writer.desk.place)
        × (drop result.0.behind result.0.log.items ≡ drop writer.behind writer.log.items)) }
    ensures number { result.0.desk.shown.value.stamped.number ≤ last_number }
{
    let (writer, shown) = writer.publish_as::<Publication, R>(rt);
    // The number fits into 64 bits, since it is a `u64`.
    let _number = writer.published().stamped.number();
    (writer, shown)
}

/// Has the copy that isn't shown take in what it lacks of the other, and shows it in its place. It does nothing while a
/// change is pending, since that would be shown too.
pub(crate) fn catch_up<R: Wait>(writer: EditionWriter, rt: &R) -> (EditionWriter, ())
    ensures shown { result.0.desk.shown.value ≡ writer.desk.shown.value }
    ensures pending { drop result.0.behind result.0.log.items ≡ drop writer.behind writer.log.items }
{
    if writer.has_pending_operations() {
        return (writer, ());
    }
    // Where memory is refused, the next publish brings that copy up.
    let (writer, _) = show(writer, rt);
    (writer, ())
}
