//! The numbers of the format that have a name in the field, for code and definitions, and, at the
//! end, those by which a workspace stores kinds of inodes and counts of references.

/// The magic number of a superblock (fs(5)).
pub const FS_MAGIC: u32 = 0x011954;

/// The magic number of a group block (fs(5)).
pub const CG_MAGIC: u32 = 0x090255;

/// The bytes of a sector: the unit of `-b`, failed reads, and an inode's blocks field (fs(5)).
pub const DEV_BSIZE: u64 = 512;

/// The bytes of a superblock that are read (fs(5)).
pub const SUPERBLOCK_BYTES: usize = 1376;

/// The sector of the primary superblock: it is at byte 8,192 (fs(5)).
pub const SUPERBLOCK_SECTOR: u64 = 16;

/// The most bytes that a superblock may have (fs(5)).
pub const SBSIZE: u32 = 8192;

/// The format of inodes since 4.4BSD, `FS_44INODEFMT` (fs(5)).
pub const INODE_FORMAT: u32 = 2;

/// The bytes of a group block before its maps (fs(5)).
pub const CG_HEADER: u32 = 168;

/// The bytes of a group's record in the summary area, a `struct csum` (fs(5)).
pub const CSUM_SIZE: u64 = 16;

/// The bytes of the mount point in a superblock (fs(5)).
pub const MAXMNTLEN: usize = 512;

/// The inode number of a whiteout, an entry that names no inode (dir(5)).
pub const WINO: u32 = 1;

/// The inode of the root directory (fs(5)).
pub const ROOTINO: u32 = 2;

/// The bytes of an inode in a volume (inode(5)).
pub const DINODE_SIZE: usize = 128;

/// How many of the fifteen addresses of an inode are direct (inode(5)).
pub const NDADDR: u64 = 12;

/// How many bad Runs an inode may have: at the next one it is cut, and the rest of it isn't seen
/// (fsck(8)).
pub const MAXBAD: u32 = 10;

/// How many dup offers an inode may have: at the next one it is cut, and the rest of it isn't seen
/// (fsck(8)).
pub const MAXDUP: u32 = 10;

/// The bytes of a directory's chunk, in which no entry crosses the end (dir(5)).
pub const DIRBLKSIZ: usize = 512;

/// The size of the entries `.` and `..`: no directory is smaller (dir(5)).
pub const MINDIRSIZE: u64 = 24;

/// The bytes of an entry before its name (dir(5)).
pub const DIRENT_HEADER: usize = 8;

/// The most bytes of a path that is printed (fsck(8)).
pub const MAXPATHLEN: usize = 1024;

/// The type of a named pipe, in an entry and in a mode (dir(5)).
pub const DT_FIFO: u8 = 1;

/// The type of a character device.
pub const DT_CHR: u8 = 2;

/// The type of a directory.
pub const DT_DIR: u8 = 4;

/// The type of a block device.
pub const DT_BLK: u8 = 6;

/// The type of a regular file.
pub const DT_REG: u8 = 8;

/// The type of a symbolic link.
pub const DT_LNK: u8 = 10;

/// The type of a socket.
pub const DT_SOCK: u8 = 12;

/// The type of a whiteout.
pub const DT_WHT: u8 = 14;

/// What a workspace stores as the kind of a directory whose size is 0. No inode of class File or
/// Dir has this type.
pub const EMPTY_DIR_KIND: u8 = 5;

/// What a workspace stores as the kind of an inode of class Unknown. No inode of class File or Dir
/// has this type.
pub const UNKNOWN_KIND: u8 = 15;

/// Where the count of an inode's references ends if there is one for each of its links: it starts
/// at this number less the links.
pub const LINKS_MET: u64 = 32768;

/// Where the count of the references of an inode starts whose count of links is 0 or negative.
pub const NO_LINKS: u64 = 32769;
