//! Which steps of an inode are kept, replayed.

ghost use Rattle.std.specs.Prelude.{◌≡◌, ◌≤◌, ◌+◌, true};
ghost use Rattle.ffs_volume.specs.declared.constants.TheConstants as constants;
ghost use Rattle.ffs_volume.specs.Encodings.Replay.{is_replay_open};

use ffs_volume::constants::MAXBAD;

/// Which offers of an inode are kept, where the inode is walked over again.
#[derive(Clone, Copy, Debug)]
pub struct Keeping {
    /// How many offers it keeps where its eleventh dup offer cut it, else 0.
    pub cut: u32,
    /// Its bad Runs so far.
    pub bad: u32,
    /// Its kept offers so far, counted only where there is a cut.
    pub kept: u32,
    ghost few: { bad ≤ constants.MAXBAD + 1 },
    ghost within: { kept ≤ cut },
}

impl Keeping {
    ghost use Rattle.ffs_walk.specs.Keepings.{IsFreshKeeping, ReplaysRun, replay_in};

    /// The replay of an inode with this cut, before its first step.
    pub fn start(cut: u32) -> Keeping
        ensures { IsFreshKeeping cut result }
    {
        Keeping {
            cut,
            bad: 0,
            kept: 0,
        }
    }

    /// Whether the inode isn't cut yet, so that its next step is seen.
    pub fn is_replay_open(&self) -> bool
        ensures { result ≡ is_replay_open self.now.cut (replay_in self.now) }
    {
        self.bad <= MAXBAD && (self.cut == 0 || self.kept < self.cut)
    }

    /// Sees a Run of `len` fragments, in range or not. Returns how many of its offers are kept: the
    /// first ones. The Run is kept as a step where all are.
    pub fn take(&mut self, len: u32, in_range: bool) -> u32
        requires { is_replay_open self.old.cut (replay_in self.old) ≡ true }
        ensures { ReplaysRun len in_range self.old self.new result }
    {
        if !in_range {
            self.bad += 1;
            if self.bad > MAXBAD {
                return 0;
            }
        }
        if self.cut == 0 {
            return len;
        }
        let taken = len.min(self.cut - self.kept);
        self.kept += taken;
        taken
    }
}
