//! A number of the volume beside a count of the check.
ghost use Rattle.std.specs.Prelude.{◌≡◌};
ghost use Rattle.ffs_volume.specs.Disk.Numbers.{equals_natural};

/// Whether a signed number of the volume is this count.
pub fn is_count_of(found: i32, right: u64) -> bool
    ensures { result ≡ equals_natural found right }
{
    if found < 0 {
        false
    } else {
        u64::from(found as u32) == right
    }
}
