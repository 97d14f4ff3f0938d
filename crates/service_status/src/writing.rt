//! Writes a status as text.
ghost use Rattle.std.specs.Prelude.{◌≡◌, ◌++◌, ◌∷◌, [], OnOk, IfOk, flat_map, codes};
ghost use Rattle.service_status.specs.Labels.{as_label, as_labels};
ghost use Rattle.service_status.specs.Samples.{bit, if_known, publish_samples, snapshot_samples, version_samples};
ghost use Rattle.service_status.specs.Samples.{wish_samples, forgetting_samples, most_of, more_of, of_parts, samples_of, lines_of};
ghost use Rattle.service_status.specs.Samples.{metric_text, status_text};

use crate::counts::WishCounts;
use crate::exposition::{Label, push_alone, push_help, push_rows, push_sample, push_type};
use crate::metrics::Metric;
use crate::status::{
    ArchiveStatus, ForgettingStatus, GateStatus, PeerStatus, PublishStatus, SnapshotStatus, Status,
};
use std::alloc::{AllocError, Global};
use text_fields::write_decimal;

/// What of a status has samples of its own, each with its labels.
trait Sampled {
    ghost use Rattle.std.specs.Prelude.{◌≡◌, ◌++◌, OnOk, List};
    ghost use Rattle.service_status.specs.declared.metrics.Metric.{Metric as Measured};
    ghost use Rattle.service_status.specs.Exposition.{Sample};
    ghost use Rattle.service_status.specs.Samples.{lines_of};

    /// Its samples of a metric; none of a metric that isn't of it.
    ghost samples: { Measured → Self → List Sample };

    /// Appends its samples of a metric.
    fn push_samples(
        &self,
        out: &mut Vec<u8>,
        alloc: Global,
        metric: Metric,
    ) -> Result<(), AllocError>
        ensures { OnOk result (out.new.items ≡ out.old.items ++ lines_of metric (samples metric self.now)) };
}

/// The label of an archive.
fn archive_label(archive: &ArchiveStatus) -> Label<'_>
    ensures { as_label result ≡ (codes "archive", archive.now.name) }
{
    Label {
        name: "archive",
        value: archive.name.as_bytes(),
    }
}

impl Sampled for ArchiveStatus {
    ghost use Rattle.service_status.specs.Samples.{archive_samples};

    ghost samples = { archive_samples };

    fn push_samples(
        &self,
        out: &mut Vec<u8>,
        _alloc: Global,
        metric: Metric,
    ) -> Result<(), AllocError> {
        let label = archive_label(self);
        match metric {
            Metric::Walks => push_rows(out, metric, &[label], "outcome", &self.walks.rows()),
            Metric::WalkSeconds => push_sample(out, metric, &[], label, self.seconds),
            Metric::DormantUntil => push_sample(out, metric, &[], label, self.dormant_until),
            Metric::AsideUntil => push_sample(out, metric, &[], label, self.aside_until),
            _ => Ok(()),
        }
    }
}

/// The labels of a peer whose number has these digits.
fn peer_labels<'a>(peer: &'a PeerStatus, digits: &'a [u8]) -> [Label<'a>; 2]
    ensures { as_labels result ≡ (codes "peer", peer.now.base) ∷ (codes "number", digits.now) ∷ [] }
{
    let base = Label {
        name: "peer",
        value: peer.base.as_str().as_bytes(),
    };
    let number = Label {
        name: "number",
        value: digits,
    };
    [base, number]
}

impl Sampled for PeerStatus {
    ghost use Rattle.service_status.specs.Samples.{peer_samples};

    ghost samples = { peer_samples };

    fn push_samples(
        &self,
        out: &mut Vec<u8>,
        alloc: Global,
        metric: Metric,
    ) -> Result<(), AllocError> {
        let mut digits = Vec::new(alloc);
        write_decimal(&mut digits, self.number)?;
        let labels = peer_labels(self, digits.as_slice());
        match metric {
            Metric::Pulls => push_rows(out, metric, &labels, "outcome", &self.pulls.rows()),
            Metric::LastDelta => push_sample(out, metric, &labels[..1], labels[1], self.last),
            Metric::PullEntries => {
                push_rows(out, metric, &labels, "outcome", &self.entries.rows())
            }
            Metric::PullParts => push_sample(out, metric, &labels[..1], labels[1], self.parts),
            _ => Ok(()),
        }
    }
}

impl Sampled for GateStatus {
    ghost use Rattle.service_status.specs.Samples.{gate_samples};

    ghost samples = { gate_samples };

    fn push_samples(
        &self,
        out: &mut Vec<u8>,
        alloc: Global,
        metric: Metric,
    ) -> Result<(), AllocError> {
        let mut digits = Vec::new(alloc);
        write_decimal(&mut digits, self.number)?;
        let label = Label {
            name: "gate",
            value: digits.as_slice(),
        };
        match metric {
            Metric::Replies => push_rows(out, metric, &[label], "status", &self.replies.rows()),
            _ => Ok(()),
        }
    }
}

/// Appends the samples of a metric that each of these has.
fn push_each<T: Sampled>(
    out: &mut Vec<u8>,
    alloc: Global,
    metric: Metric,
    each: &[T],
) -> Result<(), AllocError>
    ensures { OnOk result (out.new.items ≡ out.old.items ++ lines_of metric (flat_map (T.samples metric) each.now)) }
{
    let mut left = each;
    while let [one, rest @ ..] = left {
        one.push_samples(out, alloc, metric)?;
        left = rest;
    }
    Ok(())
}

/// Appends what became of publishes.
fn push_publishes(
    out: &mut Vec<u8>,
    metric: Metric,
    publishes: PublishStatus,
) -> Result<(), AllocError>
    ensures { OnOk result (out.new.items ≡ out.old.items ++ lines_of metric (publish_samples publishes)) }
{
    let rows = [
        ("published", publishes.published),
        ("no_memory", publishes.refused),
    ];
    push_rows(out, metric, &[], "outcome", &rows)
}

/// Appends what became of snapshots, if they are written.
fn push_snapshots(
    out: &mut Vec<u8>,
    metric: Metric,
    snapshots: Option<SnapshotStatus>,
) -> Result<(), AllocError>
    ensures { OnOk result (out.new.items ≡ out.old.items ++ lines_of metric (snapshot_samples snapshots)) }
{
    let Some(snapshots) = snapshots else {
        return Ok(());
    };
    let rows = [("written", snapshots.written), ("failed", snapshots.failed)];
    push_rows(out, metric, &[], "outcome", &rows)
}

/// Appends what became of wishes, if wishes are taken.
fn push_wishes(
    out: &mut Vec<u8>,
    metric: Metric,
    wishes: Option<WishCounts>,
) -> Result<(), AllocError>
    ensures { OnOk result (out.new.items ≡ out.old.items ++ lines_of metric (wish_samples wishes)) }
{
    match wishes {
        Some(counts) => push_rows(out, metric, &[], "outcome", &counts.rows()),
        None => Ok(()),
    }
}

/// Appends what became of forgettings, if there are any.
fn push_forgettings(
    out: &mut Vec<u8>,
    metric: Metric,
    forgetting: Option<ForgettingStatus>,
) -> Result<(), AllocError>
    ensures { OnOk result (out.new.items ≡ out.old.items ++ lines_of metric (forgetting_samples forgetting)) }
{
    let Some(forgetting) = forgetting else {
        return Ok(());
    };
    let rows = [
        ("forgotten", forgetting.forgotten),
        ("refused", forgetting.unforgotten),
    ];
    push_rows(out, metric, &[], "outcome", &rows)
}

/// How many mementos unlisted originals may have, if that is bounded.
fn most_of(forgetting: Option<ForgettingStatus>) -> Option<u64>
    ensures { result ≡ most_of forgetting }
{
    match forgetting {
        Some(forgetting) => forgetting.most,
        None => None,
    }
}

/// Appends the version that runs.
fn push_version(out: &mut Vec<u8>, metric: Metric, version: &'static str) -> Result<(), AllocError>
    ensures { OnOk result (out.new.items ≡ out.old.items ++ lines_of metric (version_samples version.now)) }
{
    let label = Label {
        name: "version",
        value: version.as_bytes(),
    };
    push_sample(out, metric, &[], label, 1)
}

/// Appends a sample without labels, if there is a value.
fn push_if_known(out: &mut Vec<u8>, metric: Metric, value: Option<u64>) -> Result<(), AllocError>
    ensures { OnOk result (out.new.items ≡ out.old.items ++ lines_of metric (if_known value)) }
{
    match value {
        Some(value) => push_alone(out, metric, value),
        None => Ok(()),
    }
}

/// 1 if it is so, and 0 otherwise.
fn bit(is_so: bool) -> u64
    ensures { result ≡ bit is_so }
{
    if is_so { 1 } else { 0 }
}

/// Appends the samples of a metric.
fn push_samples(
    out: &mut Vec<u8>,
    alloc: Global,
    metric: Metric,
    status: &Status,
) -> Result<(), AllocError>
    ensures { OnOk result (out.new.items ≡ out.old.items ++ lines_of metric (samples_of status.now metric)) }
{
    let forgetting = status.forgetting;
    match metric {
        Metric::Clock => push_alone(out, metric, status.clock),
        Metric::Build => push_version(out, metric, status.version),
        Metric::Shown => push_alone(out, metric, bit(status.is_shown)),
        Metric::Rounds => push_alone(out, metric, status.rounds),
        Metric::RoundJobs => push_alone(out, metric, status.round.jobs),
        Metric::RoundDone => push_alone(out, metric, status.round.done),
        Metric::RoundPassed => push_alone(out, metric, status.round.passed),
        Metric::Walks | Metric::WalkSeconds | Metric::DormantUntil | Metric::AsideUntil => {
            push_each(out, alloc, metric, status.archives.as_slice())
        }
        Metric::Publishes => push_publishes(out, metric, status.publishes),
        Metric::LastPublish => push_alone(out, metric, status.publishes.last),
        Metric::Snapshots => push_snapshots(out, metric, status.snapshots),
        Metric::LastSnapshot => push_if_known(out, metric, status.snapshots.map(|kept| kept.last)),
        Metric::SnapshotBehind => {
            push_if_known(
                out,
                metric,
                status.snapshots.map(|kept| bit(kept.is_behind)),
            )
        }
        Metric::Pulls | Metric::LastDelta | Metric::PullEntries | Metric::PullParts => {
            push_each(out, alloc, metric, status.peers.as_slice())
        }
        Metric::Entries => push_alone(out, metric, status.known.entries),
        Metric::Mementos => push_alone(out, metric, status.known.mementos),
        Metric::RevisionsAhead => push_alone(out, metric, status.known.ahead),
        Metric::Resident => push_if_known(out, metric, status.resident),
        Metric::Replies => push_each(out, alloc, metric, status.gates.as_slice()),
        Metric::Wishes => push_wishes(out, metric, status.wishes),
        Metric::WantedUsed => push_if_known(out, metric, status.room.map(|room| room.used)),
        Metric::WantedLimit => push_if_known(out, metric, status.room.map(|room| room.most)),
        Metric::BadLines => push_if_known(out, metric, status.list.map(|list| list.bad)),
        Metric::LastList => push_if_known(out, metric, status.list.map(|list| list.last)),
        Metric::Forgettings => push_forgettings(out, metric, forgetting),
        Metric::ForgottenEntries => push_if_known(out, metric, forgetting.map(|it| it.entries)),
        Metric::Floor => push_if_known(out, metric, forgetting.map(|it| it.floor)),
        Metric::UnlistedMementos => push_if_known(out, metric, forgetting.map(|it| it.mementos)),
        Metric::UnlistedLimit => push_if_known(out, metric, most_of(forgetting)),
    }
}

/// Appends the lines of a metric.
fn push_metric(
    out: &mut Vec<u8>,
    alloc: Global,
    metric: Metric,
    status: &Status,
) -> Result<(), AllocError>
    ensures { OnOk result (out.new.items ≡ out.old.items ++ metric_text status.now metric) }
{
    push_help(out, metric)?;
    push_type(out, metric)?;
    push_samples(out, alloc, metric, status)
}

/// Appends the lines of these metrics.
fn push_metrics(
    out: &mut Vec<u8>,
    alloc: Global,
    metrics: &[Metric],
    status: &Status,
) -> Result<(), AllocError>
    ensures { OnOk result (out.new.items ≡ out.old.items ++ flat_map (metric_text status.now) metrics.now) }
{
    let mut left = metrics;
    while let [metric, rest @ ..] = left {
        push_metric(out, alloc, *metric, status)?;
        left = rest;
    }
    Ok(())
}

/// Appends the lines of the metrics of what is forgotten, if something may be.
fn push_more(out: &mut Vec<u8>, alloc: Global, status: &Status) -> Result<(), AllocError>
    ensures { OnOk result (out.new.items ≡ out.old.items ++ flat_map (metric_text status.now) (more_of status.now.forgetting)) }
{
    match status.forgetting {
        Some(_) => push_metrics(out, alloc, &Metric::of_forgetting(), status),
        None => Ok(()),
    }
}

/// Appends the lines of the metrics of deltas in parts, if peers are asked for them.
fn push_parts(out: &mut Vec<u8>, alloc: Global, status: &Status) -> Result<(), AllocError>
    ensures { OnOk result (out.new.items ≡ out.old.items ++ flat_map (metric_text status.now) (of_parts status.now.is_in_parts)) }
{
    if status.is_in_parts {
        push_metrics(out, alloc, &Metric::of_parts(), status)
    } else {
        Ok(())
    }
}

/// A status in Prometheus' text format, version 0.0.4: its metrics, each with its samples.
#[tactic(auto, unfolding(crate::specs::Samples::status_text))]
pub fn write_status(alloc: Global, status: &Status) -> Result<Vec<u8>, AllocError>
    ensures { IfOk result (λ text. text.items ≡ status_text status.now) }
{
    let mut text = Vec::new(alloc);
    push_metrics(&mut text, alloc, &Metric::all(), status)?;
    push_more(&mut text, alloc, status)?;
    push_parts(&mut text, alloc, status)?;
    Ok(text)
}
