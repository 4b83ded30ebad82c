// How many entries of a table, or instances of a law, stand.
ghost use Rattle.std.specs.Prelude.{◌≡◌, ◌+◌, min, sum};
ghost use Rattle.literature.specs.Scores.{score_after};

/// How many of those that were tried stand, and how many do not.
#[derive(Clone, Copy, Default)]
pub(crate) struct Score {
    pub(crate) stand: u32,
    pub(crate) lacking: u32,
}

impl Score {
    /// Counts in one more.
    pub(crate) fn count(&mut self, stands: bool)
        ensures { self.new ≡ score_after self.old stands }
    {
        if stands {
            self.stand = self.stand.saturating_add(1);
        } else {
            self.lacking = self.lacking.saturating_add(1);
        }
    }

    /// How many were tried.
    pub(crate) fn tried(self) -> u32
        ensures { result ≡ min (self.stand + self.lacking) u32.MAX }
    {
        self.stand.saturating_add(self.lacking)
    }
}

/// The sum of counts; one that would be above 2^32 - 1 stays there.
pub(crate) fn total(counts: &[u32]) -> u32
    ensures { result ≡ min (sum counts.now) u32.MAX }
{
    counts
        .iter()
        .fold(0u32, |sum, count| sum.saturating_add(*count))
}
