//! What is counted at a point.
ghost use Rattle.std.specs.Prelude.{◌≡◌, ◌+◌, ◌<◌, ◌^◌, true, false};
ghost use Rattle.necessity.specs.Turn.{to_needed};
ghost use Rattle.necessity.specs.Counting.{is_above_zero, recounted, differ};

/// Which way points turn: with roots and links that come, or with some that go.
#[derive(Clone, Copy)]
pub enum Turn {
    Needed,
    Unneeded,
}

/// How often a point is a root, and how many links lead `by` needed readers to it.
#[derive(Clone, Copy)]
pub struct Need {
    pub roots: usize,
    pub by: usize,
}

impl Need {
    /// Whether the point is needed: a root, or read by a needed reader.
    pub fn is_above_zero(&self) -> bool
        ensures { result ≡ is_above_zero self.now }
    {
        self.roots > 0 || self.by > 0
    }

    /// Counts one link more, or one fewer: one from a reader that has turned. Whether the point turns with it.
    pub fn recount(&mut self, turn: Turn) -> bool
        requires fits { to_needed turn ≡ true → self.old.by + 1 < 2 ^ 64 }
        requires counted { to_needed turn ≡ false → 0 < self.old.by }
        ensures need { self.new ≡ recounted (to_needed turn) self.old }
        ensures turns { result ≡ differ (is_above_zero self.old) (is_above_zero self.new) }
    {
        let was = self.is_above_zero();
        match turn {
            Turn::Needed => self.by += 1,
            Turn::Unneeded => self.by -= 1,
        }
        self.is_above_zero() != was
    }
}
