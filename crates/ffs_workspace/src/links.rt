//! Where counts of references start.

ghost use Rattle.std.specs.Prelude.{◌≡◌};
ghost use Rattle.ffs_volume.specs.Encodings.Links.{links_start};

use ffs_volume::constants::{LINKS_MET, NO_LINKS};

/// Where the count of an inode's references starts, by its count of links (fs(5)): so that it is
/// `LINKS_MET` once there are as many references as links. Where the count of links is 0 or
/// negative, it starts at `NO_LINKS`, which is past `LINKS_MET`.
pub fn links_start(links: i16) -> u64
    ensures { result ≡ links_start links }
{
    if links > 0 {
        LINKS_MET - u64::from(links as u16)
    } else {
        NO_LINKS
    }
}
