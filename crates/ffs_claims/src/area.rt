//! Runs, and the data area: fragments around the last Run in range, where each Run is in range.

ghost use Rattle.std.specs.Prelude.{◌<◌, ◌↔◌, IsTrue};
ghost use Rattle.ffs_volume.specs.declared.Layout.{Layout};

use ffs_layout::Geometry;

/// Consecutive fragments that a step of an inode offers.
#[derive(Clone, Copy, Debug)]
pub struct Run {
    /// The first fragment.
    pub start: u32,
    /// How many fragments there are: at least one.
    pub len: u32,
    pub ghost some: { 0 < len },
}

/// Consecutive fragments, from `start` on and below `end`. Each Run that lies in them is in range.
#[derive(Clone, Copy, Debug)]
pub struct DataArea {
    /// The first fragment.
    pub start: u32,
    /// The fragment after the last one.
    pub end: u32,
}

impl DataArea {
    ghost use Rattle.ffs_claims.specs.Area.{IsAreaAround, IsDataArea, MovesToRun, HasRun};

    /// No fragments.
    pub fn empty() -> DataArea
        ensures { (layout : Layout) → IsDataArea layout result }
    {
        DataArea { start: 0, end: 0 }
    }

    /// The fragments of a Run's group outside its metadata: those before it, if the Run lies there,
    /// and else those after it.
    #[tactic(auto, using(ffs_volume::proofs::AreaLaws::group_below))]
    fn around(geometry: &Geometry, start: u32) -> DataArea
        requires { start < geometry.now.layout.size }
        ensures { IsAreaAround geometry.now.layout result start }
    {
        let group = start / geometry.layout.fpg;
        let base = geometry.cgbase(group);
        let data = geometry.cgdmin(group);
        if start < data {
            return DataArea {
                start: base,
                end: geometry.cgsblock(group),
            };
        }
        let limit = u64::from(base) + u64::from(geometry.layout.fpg);
        DataArea {
            start: data,
            end: limit.min(u64::from(geometry.layout.size)) as u32,
        }
    }

    /// Whether a Run lies in the area.
    #[inline(always)]
    pub fn contains(&self, start: u32, len: u32) -> bool
        ensures { IsTrue result ↔ HasRun self.now start len }
    {
        self.start <= start && u64::from(start) + u64::from(len) <= u64::from(self.end)
    }

    /// Moves the area to a Run, if that is in range: it lies in the area from then on. Returns
    /// whether it is.
    #[inline(always)]
    #[tactic(auto, using(crate::proofs::UnclaimedRuns::run_below))]
    pub fn move_to(&mut self, geometry: &Geometry, start: u32, len: u32) -> bool
        requires some { 0 < len }
        requires area { IsDataArea geometry.now.layout self.old }
        ensures { MovesToRun geometry.now.layout self.new start len result }
    {
        if self.contains(start, len) {
            return true;
        }
        if !geometry.in_range(start, len) {
            return false;
        }
        *self = DataArea::around(geometry, start);
        true
    }
}
