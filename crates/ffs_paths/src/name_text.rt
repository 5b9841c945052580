//! The text of a name.

ghost use Rattle.std.specs.Prelude.{◌≡◌, ◌≤◌, [], length as length_of};
ghost use Rattle.ffs_volume.specs.declared.constants.TheConstants.{DIRBLKSIZ};

use ffs_memory::copy_short;
use ffs_volume::constants::DIRBLKSIZ;

/// The text of a name. It has no more bytes than the chunk that it is in.
///
/// A name is put in place of another one at each level of a path. An `ArrayVec` would blank the
/// bytes of the one before.
#[derive(Drop)]
pub struct NameText {
    /// The bytes of the name, at the start of the room for them.
    pub bytes: [u8; DIRBLKSIZ],
    /// How many bytes the name has.
    pub length: usize,
    ghost long: { length_of bytes ≡ DIRBLKSIZ },
    ghost inside: { length ≤ DIRBLKSIZ },
}

impl NameText {
    ghost use Rattle.ffs_paths.specs.NameTexts.{name_bytes};

    /// The name of no byte.
    pub fn new() -> NameText
        ensures { name_bytes result ≡ [] }
    {
        NameText {
            bytes: [0; DIRBLKSIZ],
            length: 0,
        }
    }

    /// Puts the name of no byte in place of this one.
    pub fn clear(&mut self)
        ensures { name_bytes self.new ≡ [] }
    {
        self.length = 0;
    }

    /// Puts a name in place of this one.
    pub fn set(&mut self, name: &[u8])
        requires { length_of name.now ≤ DIRBLKSIZ }
        ensures { name_bytes self.new ≡ name.now }
    {
        let end = name.len();
        copy_short(&mut self.bytes[0..end], name);
        self.length = end;
    }

    /// The bytes of the name.
    #[inline]
    pub fn as_slice(&self) -> &[u8]
        ensures value { result.now ≡ name_bytes self.now }
    {
        &self.bytes[..self.length]
    }
}
