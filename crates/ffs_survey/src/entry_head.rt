//! An entry of a directory, without its name.
ghost use Rattle.std.specs.Prelude.{◌≡◌};
ghost use Rattle.ffs_volume.specs.declared.Role.TheVariants.{Empty};
ghost use Rattle.ffs_volume.specs.Directories.Roles.{is_plain as is_plain_role, is_counted as is_counted_role};

use ffs_volume::Role;

/// An entry of a directory, without its name (dir(5)).
///
/// `unnumbered`: one with the number 0 is empty.
#[derive(Clone, Copy, Debug)]
pub struct EntryHead {
    /// What it is in its directory.
    pub role: Role,
    /// The inode number that it carries, or 0.
    pub number: u32,
    /// The length of its record, in bytes. No survey asks for it: it makes this all of an entry but
    /// the name.
    pub length: u16,
    /// Its type (`DT_DIR` and so on).
    pub kind: u8,
    ghost unnumbered: { number ≡ 0 → role ≡ Empty },
}

/// Whether an entry is plain: its inode number isn't 0, and its name is neither `.` nor `..`.
pub fn is_plain(role: Role) -> bool
    ensures { result ≡ is_plain_role role }
{
    match role {
        Role::Plain => true,
        Role::Dot => false,
        Role::Dotdot => false,
        Role::Extra => false,
        Role::Empty => false,
    }
}

/// Whether an entry counts as a reference to the inode whose number it carries.
pub fn is_counted(role: Role) -> bool
    ensures { result ≡ is_counted_role role }
{
    match role {
        Role::Plain => true,
        Role::Dot => true,
        Role::Dotdot => true,
        Role::Extra => false,
        Role::Empty => false,
    }
}
