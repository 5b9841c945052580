//! A path that is put together from its end.

ghost use Rattle.std.specs.Prelude.{◌≡◌, ◌+◌, ◌<◌, ◌≤◌, ℕ, not, ◌&&◌, nat_lt, List, [], ◌∷◌, ◌++◌, length, drop, Some};
ghost use Rattle.ffs_volume.specs.Directories.Paths.{dir_path_of_names, path_bytes};
ghost use Rattle.ffs_paths.specs.Slashes.{HaveNoSlash, FitsBefore, IsFirstSlash, PutsBefore};
ghost use Rattle.ffs_volume.specs.declared.constants.TheConstants.{DIRBLKSIZ, MAXPATHLEN};

use arrayvec::ArrayVec;
use ffs_volume::constants::MAXPATHLEN;

/// The text of a path.
pub type PathText = ArrayVec<u8, MAXPATHLEN>;

/// How many bytes the longest name has that has room after `?/`.
pub const LONGEST_NAME: usize = MAXPATHLEN - 2;

/// The names of a path, each after a `/`, as far as they are known. The last one is put in first.
///
/// Where they take more than 1,024 bytes it keeps the longest end of whole names of at most 1,023
/// bytes.
#[derive(Drop)]
pub struct PathBuffer {
    /// The names, at the end of the room for them.
    pub bytes: [u8; MAXPATHLEN],
    /// Where the names begin in `bytes`, if all have room.
    pub start: usize,
    /// Where the longest end of whole names of at most 1,023 bytes begins in `bytes`.
    pub short: usize,
    /// Whether they take more than 1,024 bytes.
    pub cut: bool,
    ghost ordered: { start ≤ short },
    ghost in_buffer: { short ≤ MAXPATHLEN },
    ghost has_room: { 0 < short },
    ghost long: { length bytes ≡ MAXPATHLEN },
}

/// Puts `/` and a name before what is from `end` on. Returns where they begin.
fn put_before(bytes: &mut [u8; MAXPATHLEN], end: usize, name: &[u8]) -> usize
    requires { FitsBefore end name.now }
    ensures { PutsBefore bytes.old end name.now bytes.new result }
{
    let start = end - name.len() - 1;
    bytes[start] = b'/';
    bytes[start + 1..end].copy_from_slice(name);
    start
}

/// Where the first `/` from a place on is, or the end.
#[tactic(auto, using(crate::proofs::LongestEnds::slash_none))]
fn slash_from(bytes: &[u8; MAXPATHLEN], place: usize) -> usize
    ensures { IsFirstSlash bytes.now place result }
{
    for at in place..MAXPATHLEN {
        if bytes[at] == b'/' {
            return at;
        }
    }
    MAXPATHLEN
}

/// What is from `start` on.
#[inline]
fn bytes_from(bytes: &[u8; MAXPATHLEN], start: usize) -> &[u8]
    requires { start ≤ MAXPATHLEN }
    ensures { result.now ≡ drop start bytes.now }
{
    &bytes[start..]
}

/// Writes these names, `/` and a name.
fn put_from(names: &[u8], name: &[u8], text: &mut PathText)
    requires { length text.old.items + length names.now + 1 + length name.now ≤ MAXPATHLEN }
    ensures { text.new.items ≡ text.old.items ++ names.now ++ 47 ∷ name.now }
{
    text.try_extend_from_slice(names).unwrap();
    text.push(b'/');
    text.try_extend_from_slice(name).unwrap();
}

impl PathBuffer {
    ghost use Rattle.ffs_paths.specs.Buffers.{HoldsNames, IsLonger};

    /// No names.
    pub fn new() -> PathBuffer
        ensures { HoldsNames result [] }
    {
        PathBuffer {
            bytes: [0; MAXPATHLEN],
            start: MAXPATHLEN,
            short: MAXPATHLEN,
            cut: false,
        }
    }

    /// Leaves no names in it.
    pub fn clear(&mut self)
        ensures { HoldsNames self.new [] }
    {
        self.start = MAXPATHLEN;
        self.short = MAXPATHLEN;
        self.cut = false;
    }

    /// Whether there is room for its names and this one, with a `/` before each.
    #[inline]
    fn has_room(&self, name: &[u8]) -> bool
        ensures { result ≡ (not self.now.cut && nat_lt (length name.now) self.now.start) }
    {
        !self.cut && name.len() < self.start
    }

    /// Puts a name before its names.
    pub fn push_front(&mut self, name: &[u8])
        ensures { (names : List (List ℕ)) → HoldsNames self.old names
            → HoldsNames self.new (name.now ∷ names) }
    {
        if !self.has_room(name) {
            self.cut = true;
            return;
        }
        let start = put_before(&mut self.bytes, self.start, name);
        self.start = start;
        if start > 0 {
            self.short = start;
        }
    }

    /// Writes the path in place of a text: `/` where it has no names, and `?` before its end where
    /// it is cut.
    pub fn put(&self, text: &mut PathText)
        ensures { (names : List (List ℕ)) → HoldsNames self.now names → text.new.items
            ≡ dir_path_of_names (Some names) }
    {
        text.clear();
        if self.cut {
            text.push(b'?');
            text.try_extend_from_slice(bytes_from(&self.bytes, self.short))
                .unwrap();
        } else if self.start == MAXPATHLEN {
            text.push(b'/');
        } else {
            text.try_extend_from_slice(bytes_from(&self.bytes, self.start))
                .unwrap();
        }
    }

    /// Writes the path with a name more at its end in place of a text: all names where they have
    /// room, else `?` and their longest end of at most 1,023 bytes, which is none where that name
    /// alone is longer.
    pub fn put_with(&self, name: &[u8], text: &mut PathText)
        ensures { (names : List (List ℕ)) → HoldsNames self.now names → HaveNoSlash names
            → text.new.items ≡ path_bytes (names ++ name.now ∷ []) }
    {
        text.clear();
        if self.has_room(name) {
            put_from(bytes_from(&self.bytes, self.start), name, text);
            return;
        }
        text.push(b'?');
        if name.len() > LONGEST_NAME {
            return;
        }
        let start = slash_from(&self.bytes, self.short.max(name.len() + 2));
        put_from(bytes_from(&self.bytes, start), name, text);
    }

    /// What is from `from` on, and a name after it.
    fn longer(&self, from: usize, name: &[u8], cut: bool) -> PathBuffer
        requires { FitsBefore from name.now }
        ensures { IsLonger self.now from name.now cut result }
    {
        let mut bytes = [0u8; MAXPATHLEN];
        let end = put_before(&mut bytes, MAXPATHLEN, name);
        let start = end - (MAXPATHLEN - from);
        bytes[start..end].copy_from_slice(&self.bytes[from..]);
        let short = if start > 0 {
            start
        } else {
            slash_from(&bytes, 1)
        };
        PathBuffer {
            bytes,
            start,
            short,
            cut,
        }
    }

    /// These names and one more after them, which has at most 512 bytes.
    pub fn with_last(&self, name: &[u8]) -> PathBuffer
        requires { length name.now ≤ DIRBLKSIZ }
        ensures { (names : List (List ℕ)) → HoldsNames self.now names
            → HaveNoSlash (names ++ name.now ∷ []) → HoldsNames result (names ++ name.now ∷ []) }
    {
        if self.has_room(name) {
            return self.longer(self.start, name, false);
        }
        let from = slash_from(&self.bytes, self.short.max(name.len() + 2));
        self.longer(from, name, true)
    }
}
