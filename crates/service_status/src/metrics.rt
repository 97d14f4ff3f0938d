//! The metrics that are told.
ghost use Rattle.std.specs.Prelude.{◌≡◌};
ghost use Rattle.service_status.specs.Metrics.{name_of, help_of, kind_of, metrics, forgetting_metrics, part_metrics};

/// What is counted or measured.
#[derive(Clone, Copy, Debug, PartialEq, Eq)]
pub enum Metric {
    Clock,
    Build,
    Shown,
    Rounds,
    RoundJobs,
    RoundDone,
    RoundPassed,
    Walks,
    WalkSeconds,
    DormantUntil,
    AsideUntil,
    Publishes,
    LastPublish,
    Snapshots,
    LastSnapshot,
    SnapshotBehind,
    Pulls,
    LastDelta,
    Entries,
    Mementos,
    RevisionsAhead,
    Resident,
    Replies,
    Wishes,
    WantedUsed,
    WantedLimit,
    BadLines,
    LastList,
    Forgettings,
    ForgottenEntries,
    Floor,
    PullEntries,
    UnlistedMementos,
    UnlistedLimit,
    PullParts,
}

impl Metric {
    /// The metrics that each status tells, in order.
    pub fn all() -> [Metric; 28]
        ensures { result ≡ metrics }
    {
        [
            Metric::Clock,
            Metric::Build,
            Metric::Shown,
            Metric::Rounds,
            Metric::RoundJobs,
            Metric::RoundDone,
            Metric::RoundPassed,
            Metric::Walks,
            Metric::WalkSeconds,
            Metric::DormantUntil,
            Metric::AsideUntil,
            Metric::Publishes,
            Metric::LastPublish,
            Metric::Snapshots,
            Metric::LastSnapshot,
            Metric::SnapshotBehind,
            Metric::Pulls,
            Metric::LastDelta,
            Metric::Entries,
            Metric::Mementos,
            Metric::RevisionsAhead,
            Metric::Resident,
            Metric::Replies,
            Metric::Wishes,
            Metric::WantedUsed,
            Metric::WantedLimit,
            Metric::BadLines,
            Metric::LastList,
        ]
    }

    /// The metrics of what is forgotten, in the order in which they are told behind all others.
    pub fn of_forgetting() -> [Metric; 6]
        ensures { result ≡ forgetting_metrics }
    {
        [
            Metric::Forgettings,
            Metric::ForgottenEntries,
            Metric::Floor,
            Metric::PullEntries,
            Metric::UnlistedMementos,
            Metric::UnlistedLimit,
        ]
    }

    /// The metrics of deltas in parts, in the order in which they are told behind those.
    pub fn of_parts() -> [Metric; 1]
        ensures { result ≡ part_metrics }
    {
        [Metric::PullParts]
    }

    /// The metric's name.
    #[tactic(auto, unfolding(crate::specs::Metrics::name_of))]
    pub fn name(self) -> &'static str
        ensures { result.now ≡ name_of self }
    {
        match self {
            Metric::Clock => "maplewrench_clock_seconds",
            Metric::Build => "maplewrench_build_info",
            Metric::Shown => "maplewrench_shown",
            Metric::Rounds => "maplewrench_rounds_total",
            Metric::RoundJobs => "maplewrench_round_jobs",
            Metric::RoundDone => "maplewrench_round_jobs_done",
            Metric::RoundPassed => "maplewrench_round_jobs_passed_over",
            Metric::Walks => "maplewrench_walks_total",
            Metric::WalkSeconds => "maplewrench_walk_seconds_total",
            Metric::DormantUntil => "maplewrench_archive_dormant_until_timestamp_seconds",
            Metric::AsideUntil => "maplewrench_archive_aside_until_timestamp_seconds",
            Metric::Publishes => "maplewrench_publishes_total",
            Metric::LastPublish => "maplewrench_last_publish_timestamp_seconds",
            Metric::Snapshots => "maplewrench_snapshots_total",
            Metric::LastSnapshot => "maplewrench_last_snapshot_timestamp_seconds",
            Metric::SnapshotBehind => "maplewrench_snapshot_behind",
            Metric::Pulls => "maplewrench_pulls_total",
            Metric::LastDelta => "maplewrench_peer_last_delta_timestamp_seconds",
            Metric::Entries => "maplewrench_entries",
            Metric::Mementos => "maplewrench_mementos",
            Metric::RevisionsAhead => "maplewrench_revisions_ahead",
            Metric::Resident => "process_resident_memory_bytes",
            Metric::Replies => "maplewrench_replies_total",
            Metric::Wishes => "maplewrench_wishes_total",
            Metric::WantedUsed => "maplewrench_wanted_used",
            Metric::WantedLimit => "maplewrench_wanted_limit",
            Metric::BadLines => "maplewrench_list_bad_lines",
            Metric::LastList => "maplewrench_last_list_timestamp_seconds",
            Metric::Forgettings => "maplewrench_forgettings_total",
            Metric::ForgottenEntries => "maplewrench_forgotten_entries_total",
            Metric::Floor => "maplewrench_floor_timestamp_seconds",
            Metric::PullEntries => "maplewrench_pull_entries_total",
            Metric::UnlistedMementos => "maplewrench_unlisted_mementos",
            Metric::UnlistedLimit => "maplewrench_unlisted_mementos_limit",
            Metric::PullParts => "maplewrench_pull_parts_total",
        }
    }

    /// What the metric counts or measures.
    #[tactic(auto, unfolding(crate::specs::Metrics::help_of))]
    pub fn help(self) -> &'static str
        ensures { result.now ≡ help_of self }
    {
        match self {
            Metric::Clock => "The clock when this was written, in seconds since 1970.",
            Metric::Build => "1 for the version of the program that runs.",
            Metric::Shown => "1 once something is published, and 0 before.",
            Metric::Rounds => "Rounds that were made.",
            Metric::RoundJobs => "Jobs of the round that is being made, or of the last one.",
            Metric::RoundDone =>
                "Jobs of that round that are done, those that were passed over included.",
            Metric::RoundPassed =>
                "Jobs of that round that were passed over, since what is known is young enough.",
            Metric::Walks => "Walks by archive, and by how they ended.",
            Metric::WalkSeconds => "Seconds that the walks of an archive took.",
            Metric::DormantUntil =>
                "When a dormant archive is asked again, in seconds since 1970; 0 unless it is dormant.",
            Metric::AsideUntil =>
                "When an archive is asked again that asked to be left alone, in seconds since 1970; 0 for any other.",
            Metric::Publishes =>
                "Publishes that succeeded, and those for which memory was refused.",
            Metric::LastPublish =>
                "When something was published last, in seconds since 1970; 0 before.",
            Metric::Snapshots => "Snapshots that were written, and those that couldn't be.",
            Metric::LastSnapshot =>
                "When a snapshot was written last, in seconds since 1970; 0 before.",
            Metric::SnapshotBehind =>
                "1 while something is published that the last snapshot lacks, and 0 otherwise.",
            Metric::Pulls => "Pulls by peer, and by how they ended.",
            Metric::LastDelta => "When a peer gave a delta last, in seconds since 1970; 0 before.",
            Metric::Entries =>
                "Pairs of an archive and an original of which something is known, when they were counted last.",
            Metric::Mementos => "Mementos that are known, when they were counted last.",
            Metric::RevisionsAhead =>
                "Entries with a revision more than a minute ahead of the clock, when they were counted last.",
            Metric::Resident => "Resident memory of the process in bytes.",
            Metric::Replies => "Replies by gate and by status.",
            Metric::Wishes => "Wishes by what became of them.",
            Metric::WantedUsed => "Originals beyond those of rounds that are known by wishes.",
            Metric::WantedLimit => "Originals beyond those of rounds that may be known by wishes.",
            Metric::BadLines =>
                "Lines of the file of originals that hold none, when it was read last.",
            Metric::LastList =>
                "When the file of originals was read last, in seconds since 1970; 0 before.",
            Metric::Forgettings =>
                "Forgettings that took place, and those for which memory was refused.",
            Metric::ForgottenEntries => "Pairs of an archive and an original that were forgotten.",
            Metric::Floor =>
                "From when on unlisted originals are kept that nobody asks for, in seconds since 1970; 0 before the first forgetting.",
            Metric::PullEntries =>
                "Entries of peers' deltas by peer, and by whether they were taken or left.",
            Metric::UnlistedMementos =>
                "Mementos of originals that no round looks after, when they were counted last.",
            Metric::UnlistedLimit => "Mementos that originals that no round looks after may have.",
            Metric::PullParts => "Parts of peers' deltas by peer, counted as they are taken.",
        }
    }

    /// `counter` or `gauge`.
    #[tactic(auto, unfolding(crate::specs::Metrics::kind_of))]
    pub fn kind(self) -> &'static str
        ensures { result.now ≡ kind_of self }
    {
        match self {
            Metric::Rounds
            | Metric::Walks
            | Metric::WalkSeconds
            | Metric::Publishes
            | Metric::Snapshots
            | Metric::Pulls
            | Metric::Replies
            | Metric::Forgettings
            | Metric::ForgottenEntries
            | Metric::PullEntries
            | Metric::PullParts
            | Metric::Wishes => "counter",
            Metric::Clock
            | Metric::Build
            | Metric::Shown
            | Metric::RoundJobs
            | Metric::RoundDone
            | Metric::RoundPassed
            | Metric::DormantUntil
            | Metric::AsideUntil
            | Metric::LastPublish
            | Metric::LastSnapshot
            | Metric::SnapshotBehind
            | Metric::LastDelta
            | Metric::Entries
            | Metric::Mementos
            | Metric::RevisionsAhead
            | Metric::Resident
            | Metric::WantedUsed
            | Metric::WantedLimit
            | Metric::BadLines
            | Metric::LastList
            | Metric::Floor
            | Metric::UnlistedMementos
            | Metric::UnlistedLimit => "gauge",
        }
    }
}
