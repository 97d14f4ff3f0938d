//! Why a text gives no settings.
ghost use Rattle.std.specs.Prelude.{◌≡◌, IfSome, is_some};
ghost use Rattle.service_settings.specs.Keys.{is_name, name_of};
ghost use Rattle.service_settings.specs.Limits.{limits};

use harvester::MAX_WORKERS;
use memento_time::NoMemory;
use published_index::MOST_GATES;
use std::alloc::AllocError;

/// The most walks that can run at once, in threads with small stacks.
pub(crate) const MAX_WALKS: u64 = 1_000;

/// The keys of settings, in the order in which they are looked for.
#[derive(Clone, Copy, Debug, PartialEq, Eq)]
pub enum Key {
    Base,
    Gates,
    Connections,
    Rounds,
    Pause,
    Workers,
    Originals,
    Peers,
    Archives,
    /// Optional.
    Patience,
    /// Optional.
    Hosts,
    Log,
    /// Optional.
    Walks,
    /// Optional.
    AtOnce,
    /// Optional.
    Tolerance,
    /// Optional.
    Dormant,
    /// Optional.
    Walk,
    /// Optional.
    Rate,
    /// Optional.
    Again,
    /// Optional.
    AgainNone,
    /// Optional.
    Ahead,
    /// Optional.
    Publish,
    /// Optional.
    Pull,
    /// Optional.
    Parts,
    /// Optional.
    Agent,
    /// Optional.
    Ready,
    /// Optional.
    Wanted,
    /// Optional.
    Wishes,
    /// Optional.
    Alike,
    /// Optional.
    OriginalsFile,
    /// Optional.
    Snapshot,
    /// Optional.
    SnapshotEvery,
    /// Optional.
    Formats,
    /// Optional.
    Status,
    /// Optional.
    Together,
    /// Optional.
    Wait,
    /// Optional.
    Forget,
    /// Optional.
    WithdrawnFile,
    /// Optional.
    Most,
}

impl Key {
    /// All keys.
    pub const ALL: [Key; 39] = [
        Key::Base,
        Key::Gates,
        Key::Connections,
        Key::Rounds,
        Key::Pause,
        Key::Workers,
        Key::Originals,
        Key::Peers,
        Key::Archives,
        Key::Patience,
        Key::Hosts,
        Key::Log,
        Key::Walks,
        Key::AtOnce,
        Key::Tolerance,
        Key::Dormant,
        Key::Walk,
        Key::Rate,
        Key::Again,
        Key::AgainNone,
        Key::Ahead,
        Key::Publish,
        Key::Pull,
        Key::Parts,
        Key::Agent,
        Key::Ready,
        Key::Wanted,
        Key::Wishes,
        Key::Alike,
        Key::OriginalsFile,
        Key::Snapshot,
        Key::SnapshotEvery,
        Key::Formats,
        Key::Status,
        Key::Together,
        Key::Wait,
        Key::Forget,
        Key::WithdrawnFile,
        Key::Most,
    ];

    /// The key with this name.
    pub fn named(text: &str) -> Option<Key>
        ensures found { IfSome result (λ key. name_of key ≡ text.now) }
        ensures known { is_some result ≡ is_name text.now }
    {
        for key in &Key::ALL {
            if key.name() == text {
                return Some(*key);
            }
        }
        None
    }

    /// The key as it is written.
    pub fn name(self) -> &'static str
        ensures { result.now ≡ name_of self }
    {
        match self {
            Key::Base => "base",
            Key::Gates => "gates",
            Key::Connections => "connections",
            Key::Rounds => "rounds",
            Key::Pause => "pause",
            Key::Workers => "workers",
            Key::Originals => "originals",
            Key::Peers => "peers",
            Key::Archives => "archives",
            Key::Patience => "patience",
            Key::Hosts => "hosts",
            Key::Log => "log",
            Key::Walks => "walks",
            Key::AtOnce => "at_once",
            Key::Tolerance => "tolerance",
            Key::Dormant => "dormant",
            Key::Walk => "walk",
            Key::Rate => "rate",
            Key::Again => "again",
            Key::AgainNone => "again_none",
            Key::Ahead => "ahead",
            Key::Publish => "publish",
            Key::Pull => "pull",
            Key::Parts => "parts",
            Key::Agent => "agent",
            Key::Ready => "ready",
            Key::Wanted => "wanted",
            Key::Wishes => "wishes",
            Key::Alike => "alike",
            Key::OriginalsFile => "originals_file",
            Key::Snapshot => "snapshot",
            Key::SnapshotEvery => "snapshot_every",
            Key::Formats => "formats",
            Key::Status => "status",
            Key::Together => "together",
            Key::Wait => "wait",
            Key::Forget => "forget",
            Key::WithdrawnFile => "withdrawn_file",
            Key::Most => "most",
        }
    }

    /// The least and the greatest number at the key; for a list, the least and the greatest number of its elements; for
    /// the agent and paths, of their bytes. The base and the status' address are one text. What may be `true` is wanted
    /// (1) or not.
    pub fn limits(self) -> (u64, u64)
        ensures { result ≡ limits self }
    {
        match self {
            Key::Base | Key::Status => (1, 1),
            Key::Gates => (1, MOST_GATES as u64),
            Key::Connections | Key::Rounds => (1, 1_000_000_000),
            Key::Pause => (0, 86_400),
            Key::Workers => (1, MAX_WORKERS as u64),
            Key::Originals => (0, 100_000),
            Key::Peers => (0, 15),
            Key::Archives => (0, 1_000),
            Key::Patience => (1, 86_400),
            Key::Hosts => (0, 1_000),
            Key::Log | Key::Ready | Key::Alike => (0, 1),
            Key::Walks | Key::AtOnce => (1, MAX_WALKS),
            Key::Tolerance => (1, 1_000_000_000),
            Key::Dormant
            | Key::Walk
            | Key::Publish
            | Key::Pull
            | Key::SnapshotEvery
            | Key::Forget => { (1, 86_400) }
            Key::Rate => (1, 1_000_000),
            Key::Again | Key::AgainNone | Key::Ahead => (1, 2_592_000),
            Key::Parts => (1, 128),
            Key::Agent => (1, 256),
            Key::Wanted => (0, 1_000_000),
            Key::Wishes => (1, 60_000),
            Key::OriginalsFile | Key::Snapshot | Key::WithdrawnFile => (1, 4_096),
            Key::Formats => (0, 2),
            Key::Together => (1, 256),
            Key::Wait => (1, 60),
            Key::Most => (1, 1_000_000_000),
        }
    }
}

/// Why a text gives no settings.
#[derive(Clone, Copy, Debug, PartialEq, Eq)]
pub enum SettingsFault {
    /// The text isn't TOML, or is too long.
    Text,
    /// The key is missing, or holds what it may not.
    Key(Key),
    /// The allocator refused a growth.
    NoMemory,
}

impl From<AllocError> for SettingsFault {
    fn from(_refused: AllocError) -> SettingsFault {
        SettingsFault::NoMemory
    }
}

impl From<NoMemory> for SettingsFault {
    fn from(_refused: NoMemory) -> SettingsFault {
        SettingsFault::NoMemory
    }
}
