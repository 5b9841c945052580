//! What `ffs_find` may be asked for: a command, and in a volume a target.

/// What is to be found in a volume.
#[derive(Clone, Copy, Debug, PartialEq, Eq)]
pub enum Target {
    /// Where an inode lies, and what it says.
    Inode { number: u32 },
    /// The fields of the superblock that a kernel computes with and that are wrong.
    Fields,
    /// The fragments of which the maps of the groups say otherwise than what is used.
    Lost,
    /// To what a fragment belongs: the inodes that keep an offer of it, or what else it is.
    Owner { fragment: u32 },
}

/// What is to be found in an image.
#[derive(Clone, Copy, Debug, PartialEq, Eq)]
pub enum Command {
    /// The sectors at which a superblock is accepted.
    Copies,
    /// Something in the volume whose superblock is at a sector, of 512 bytes, or at the usual
    /// place.
    InVolume { target: Target, sector: Option<u32> },
}
