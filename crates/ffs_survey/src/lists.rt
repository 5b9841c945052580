//! The lists of a survey.
ghost use Rattle.std.specs.Prelude.{◌≡◌, length, vec_len};
ghost use Rattle.ffs_survey.specs.Lists.{AreLists, NoneUnless};

use ffs_memory::FilledList;

/// What a survey goes by: what is known of each inode before it.
#[derive(Clone, Copy)]
pub struct KnownInodes<'kinds, 'marked> {
    /// What each inode is (`Kind` of `ffs_volume`).
    pub kinds: &'kinds [u8],
    /// Whether each inode is marked.
    pub marked: &'marked FilledList<bool>,
}

/// The lists that a survey fills, lent together. Each has an entry for every inode.
#[derive(Drop)]
pub struct FoundLists<'a> {
    /// How many entries refer to each inode, added to the number that the list had at first: the
    /// *start* of the inode.
    pub references: &'a mut FilledList<u64>,
    /// Whether a plain entry names each inode.
    pub named: &'a mut FilledList<bool>,
    /// Whether each inode is reached from inode 2.
    pub reached: &'a mut FilledList<bool>,
    /// The parent of each directory, 0 for none.
    pub parents: &'a mut FilledList<u32>,
    /// Whether each inode is a directory of which nothing can be reported.
    pub calm: &'a mut FilledList<bool>,
    /// The directories that are reached, level after level. What it holds after a survey isn't
    /// said.
    pub queue: &'a mut FilledList<u32>,
}

/// The lists of a survey, lent together: it goes by `kinds`, `marked` and `any_marked`, and fills
/// the others. There are more than two inodes, and fewer than 2^31.
#[derive(Drop)]
pub struct Lists<'kinds, 'marked, 'lists> {
    /// What each inode is (`Kind` of `ffs_volume`).
    pub kinds: &'kinds [u8],
    /// Whether each inode is marked.
    pub marked: &'marked FilledList<bool>,
    /// Whether any inode is marked: of most volumes none is.
    pub any_marked: bool,
    /// As `references` of `FoundLists`.
    pub references: &'lists mut FilledList<u64>,
    /// As `named` of `FoundLists`.
    pub named: &'lists mut FilledList<bool>,
    /// As `reached` of `FoundLists`.
    pub reached: &'lists mut FilledList<bool>,
    /// As `parents` of `FoundLists`.
    pub parents: &'lists mut FilledList<u32>,
    /// As `calm` of `FoundLists`.
    pub calm: &'lists mut FilledList<bool>,
    /// As `queue` of `FoundLists`.
    pub queue: &'lists mut FilledList<u32>,
    ghost long: { AreLists (record {
      kinds = kinds.now;
      marked = marked.now.items;
      references = references.now.items;
      named = named.now.items;
      reached = reached.now.items;
      parents = parents.now.items;
      calm = calm.now.items;
      queue = queue.now.items;
    }) },
    ghost none_marked: { NoneUnless any_marked marked.now.items },
}

/// The directory whose entries are read, with the lists by which it is found whether they are calm.
#[derive(Clone, Copy)]
pub struct LentDir<'kinds, 'marked> {
    /// What each inode is (`Kind` of `ffs_volume`).
    pub kinds: &'kinds [u8],
    /// Whether each inode is marked.
    pub marked: &'marked FilledList<bool>,
    /// Whether any inode is marked: if none is, `marked` isn't asked.
    pub any_marked: bool,
    /// The directory.
    pub dir: u32,
    /// Its parent, 0 for none.
    pub parent: u32,
    ghost long: { vec_len marked.now ≡ length kinds.now },
    ghost none_marked: { NoneUnless any_marked marked.now.items },
}
