//! The log: lines about what went wrong, if the settings ask for them.
ghost use Rattle.std.specs.Prelude.{◌≡◌};

use service_log::{Line, write_line};
use std::alloc::Global;
use std::io::Write;

/// The place to which lines of the log go, if any. Each thread has a copy.
#[derive(Clone, Copy)]
pub struct Log<L> {
    writer: L,
    is_wanted: bool,
}

impl<L: Write + Copy> Log<L> {
    /// A log that drops each line unless it is wanted.
    pub fn new(writer: L, is_wanted: bool) -> Log<L>
        ensures { result ≡ record { writer = writer; is_wanted = is_wanted } }
    {
        Log { writer, is_wanted }
    }

    /// Writes a line if lines are wanted. A line that can't be written is dropped.
    pub fn tell(self, alloc: Global, line: Line<'_>) {
        if self.is_wanted {
            let mut writer = self.writer;
            let _ = write_line(alloc, line, &mut writer);
        }
    }
}
