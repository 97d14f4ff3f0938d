//! Leave to ask an archive.
ghost use Rattle.std.specs.Prelude.{◌≡◌};

/// Leave to ask an archive once. Only a schedule gives it, and whoever walks uses it up.
#[derive(Debug, Drop)]
pub struct Permit {
    archive: usize,
}

impl Permit {
    pub(crate) fn new(archive: usize) -> Permit
        ensures { result.archive ≡ archive }
    {
        Permit { archive }
    }

    /// The place of the archive.
    pub fn archive(&self) -> usize
        ensures { result ≡ self.now.archive }
    {
        self.archive
    }
}
