//! Where the parts of each group lie.

ghost use Rattle.std.specs.Prelude.{◌≡◌, ◌<◌, ◌-◌, ◌*◌, ◌^◌};
ghost use Rattle.ffs_volume.specs.Disk.{Outcome.has_valid_group, Areas.cgoffset_of, Numbers.all_below};
ghost use Rattle.ffs_layout.specs.MovedGroups.{IsMovedMost, IsPowerAbove};

use ffs_volume::Layout;

/// By how many fragments the parts of a group are moved from its base.
#[tactic(auto, unfolding(ffs_volume::specs::Disk::Areas::cgoffset_of))]
pub fn cgoffset_of(v: &Layout, group: u32) -> i64
    ensures { result ≡ cgoffset_of v.now group }
{
    i64::from(v.cgoffset) * i64::from(group & !v.cgmask)
}

/// Whether the parts of a group aren't moved down, and its metadata ends within the group and the
/// volume.
#[tactic(auto, unfolding(ffs_volume::specs::Disk::Outcome::has_valid_group, ffs_volume::specs::Disk::Areas::cgstart, ffs_volume::specs::Disk::Areas::cgbase))]
fn group_fits(v: &Layout, group: u32) -> bool
    requires { v.now.fpg * group < 2 ^ 32 }
    ensures { result ≡ has_valid_group v.now group }
{
    let offset = cgoffset_of(v, group);
    if offset < 0 {
        return false;
    }
    let base = u64::from(v.fpg) * u64::from(group);
    let data = base + offset as u64 + u64::from(v.dblkno);
    data <= (base + u64::from(v.fpg)).min(u64::from(v.size))
}

/// Whether each group meets `group_fits`, looked at one by one.
fn all_groups_fit(v: &Layout) -> bool
    requires { (v.now.ncg - 1) * v.now.fpg < 2 ^ 31 }
    ensures { result ≡ all_below v.now.ncg (has_valid_group v.now) }
{
    for group in 0..v.ncg {
        if !group_fits(v, group) {
            return false;
        }
    }
    true
}

/// The least power of 2 that isn't below a number of groups.
fn power_above(groups: u32) -> u64
    ensures { IsPowerAbove groups result }
{
    for exponent in 0..u32::BITS {
        let power = 1u64 << exponent;
        if power >= u64::from(groups) {
            return power;
        }
    }
    1u64 << u32::BITS
}

/// A group whose parts are moved as far as those of any, or a number that the volume doesn't have:
/// all that the mask takes of numbers below a power of 2.
fn most_moved(v: &Layout, power: u64) -> u32
    requires { IsPowerAbove v.now.ncg power }
    ensures { IsMovedMost v.now result }
{
    if v.cgoffset == 0 {
        return 0;
    }
    (u64::from(!v.cgmask) % power) as u32
}

/// Whether each group meets `group_fits`. A superblock says how many there are, and a hostile image
/// has one in each sector: so they aren't all looked at, but for at most 2^17. The group whose parts
/// are moved most speaks for all, with the last one. Where the volume doesn't have it, the group of
/// half the power of 2 is asked first: if that fits, a group has more fragments than half of their
/// number.
pub fn groups_fit(v: &Layout) -> bool
    requires { (v.now.ncg - 1) * v.now.fpg < 2 ^ 31 }
    ensures { result ≡ all_below v.now.ncg (has_valid_group v.now) }
{
    let power = power_above(v.ncg);
    let most = most_moved(v, power);
    if most < v.ncg {
        return group_fits(v, most) && group_fits(v, v.ncg - 1);
    }
    let half = (power / 2) as u32;
    if half < v.ncg && !group_fits(v, half) {
        return false;
    }
    all_groups_fit(v)
}
