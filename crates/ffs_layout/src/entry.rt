//! One entry of a directory.

ghost use Rattle.std.specs.Prelude.{◌≤◌, length as length_of};

/// An entry of a directory (dir(5), `struct direct`). Its name lies in the chunk; an entry with the
/// number 0 has none.
#[derive(Clone, Copy, Debug)]
pub struct Entry<'a> {
    /// The inode number that it carries, or 0.
    pub number: u32,
    /// The length of its record, in bytes.
    pub length: u16,
    /// The type that the entry gives the inode, as the upper four bits of a mode have it: `DT_DIR`
    /// and so on of dir(5).
    pub kind: u8,
    /// The name, without the NUL after it.
    pub name: &'a [u8],
    ghost short: { length_of name.now ≤ 255 },
}
