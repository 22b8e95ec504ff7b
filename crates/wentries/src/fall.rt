//! What falls with a floor.
ghost use Rattle.std.specs.Prelude.{◌≡◌, ◌<◌, ◌+◌, ◌^◌, ◌||◌, false};
ghost use Rattle.wentries.specs.Falls.{no_fall};

/// What a floor drops of some blocks.
#[derive(Clone, Copy)]
pub struct Fall {
    /// How many entries, or the greatest number that is told.
    pub entries: usize,
    /// Whether all entries of some block.
    pub whole: bool,
    /// Whether live names, or all entries of some block.
    pub lives: bool,
}

impl Fall {
    /// Nothing.
    pub(crate) fn new() -> Fall
        ensures { result ≡ no_fall }
    {
        Fall {
            entries: 0,
            whole: false,
            lives: false,
        }
    }

    /// What is dropped of these blocks and of others.
    pub(crate) fn joined(&self, other: &Fall) -> Fall
        ensures entries { self.now.entries + other.now.entries < 2 ^ 64
            → result.entries ≡ self.now.entries + other.now.entries }
        ensures whole { result.whole ≡ (self.now.whole || other.now.whole) }
        ensures lives { result.lives ≡ (self.now.lives || other.now.lives) }
    {
        Fall {
            entries: self.entries.saturating_add(other.entries),
            whole: self.whole || other.whole,
            lives: self.lives || other.lives,
        }
    }

    /// The same where something else is done besides, which changes numbers of live names or does not.
    pub(crate) fn beside(&self, changes: bool) -> Fall
        ensures entries { result.entries ≡ self.now.entries }
        ensures lives { result.lives ≡ (self.now.lives || changes) }
    {
        Fall {
            entries: self.entries,
            whole: self.whole,
            lives: self.lives || changes,
        }
    }
}
