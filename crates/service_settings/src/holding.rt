//! What settings may hold at their keys, in words.
ghost use Rattle.std.specs.Prelude.{◌≡◌, Some};
ghost use Rattle.service_settings.specs.Holding.{holding_words, range_words};

use crate::fault::Key;
use std::fmt;

/// What a key may hold, in words.
#[derive(Clone, Copy, Debug)]
pub struct Holding(pub Key);

impl fmt::Display for Holding {
    ghost output = { λ holding. Some (holding_words holding.0) };

    fn fmt<W: fmt::Write>(&self, f: &mut fmt::Formatter<W>) -> fmt::Result {
        let range = Range(self.0);
        match self.0 {
            Key::Base => f.write_str("a URL of http or https without a path"),
            Key::Gates => write!(f, "{range} texts IP:PORT"),
            Key::Originals => write!(f, "{range} addresses of http or https"),
            Key::Peers => write!(f, "{range} bases of http, by a name or an IPv4 address"),
            Key::Archives => write!(
                f,
                "{range} tables, each with a name of its own and a timemap of http"
            ),
            Key::Hosts => write!(f, "{range} hosts"),
            Key::Agent => write!(f, "{range} visible bytes of ASCII and blanks"),
            Key::Formats => write!(f, "{range} of json and cdxj"),
            Key::Status => f.write_str("a text IP:PORT"),
            Key::OriginalsFile | Key::Snapshot | Key::WithdrawnFile => {
                write!(f, "a path of {range} bytes")
            }
            Key::Wait => write!(
                f,
                "a number from {range}, where wanted is set and together is 2 or more"
            ),
            Key::AtOnce => write!(f, "a number from {range}, above 64 only where walks is set"),
            Key::Log | Key::Ready | Key::Alike => f.write_str("true or false"),
            Key::Connections
            | Key::Rounds
            | Key::Pause
            | Key::Workers
            | Key::Patience
            | Key::Walks
            | Key::Tolerance
            | Key::Dormant
            | Key::Walk
            | Key::Rate
            | Key::Again
            | Key::AgainNone
            | Key::Ahead
            | Key::Publish
            | Key::Pull
            | Key::Parts
            | Key::Wanted
            | Key::Wishes
            | Key::SnapshotEvery
            | Key::Together
            | Key::Forget
            | Key::Most => write!(f, "a number from {range}"),
        }
    }
}

/// The least and the greatest of a key.
#[derive(Clone, Copy)]
struct Range(Key);

impl fmt::Display for Range {
    ghost output = { λ range. Some (range_words range.0) };

    fn fmt<W: fmt::Write>(&self, f: &mut fmt::Formatter<W>) -> fmt::Result {
        let (least, most) = self.0.limits();
        write!(f, "{least} to {most}")
    }
}
