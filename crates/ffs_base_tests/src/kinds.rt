//! What the kinds of inodes say, by the types of entries in dir(5).

use crate::compare::same;
use ffs_volume::constants::{EMPTY_DIR_KIND, UNKNOWN_KIND};
use ffs_volume::kinds::Kind;

/// A kind; whether it is allocated, a directory, one of size 0, of class Unknown, and a file or a
/// directory; and the type that an entry gives it.
type Said = (u8, [bool; 5], u8);

/// A free inode, files of each type, directories, and an inode of class Unknown.
static KINDS: [Said; 10] = [
    (0, [false, false, false, false, false], 0),
    (1, [true, false, false, false, true], 1),
    (2, [true, false, false, false, true], 2),
    (6, [true, false, false, false, true], 6),
    (8, [true, false, false, false, true], 8),
    (10, [true, false, false, false, true], 10),
    (12, [true, false, false, false, true], 12),
    (4, [true, true, false, false, true], 4),
    (EMPTY_DIR_KIND, [true, true, true, false, true], 4),
    (
        UNKNOWN_KIND,
        [true, false, false, true, false],
        UNKNOWN_KIND,
    ),
];

#[test]
fn kinds_of_inodes(rt: HostRuntime) {
    for &(code, wanted, entry_type) in &KINDS {
        let kind = Kind { code };
        let found = [
            kind.is_allocated(),
            kind.is_dir(),
            kind.is_empty_dir(),
            kind.is_unknown(),
            kind.is_file_or_dir(),
        ];
        same(&rt, &(code, found), &(code, wanted));
        same(&rt, &(code, kind.entry_type()), &(code, entry_type));
    }
}
