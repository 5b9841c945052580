//! What is known of the inodes that entries name.
ghost use Rattle.std.specs.Prelude.{◌≡◌, ◌<◌, ◌^◌, length, slice_index, vec_len, ◌==◌, ◌&&◌, not};

use ffs_memory::FilledList;
use ffs_survey::is_suspect;
use ffs_volume::constants::ROOTINO;
use ffs_volume::kinds::Kind;
use ffs_workspace::is_due;

/// What is known of each inode.
#[derive(Clone, Copy)]
pub struct Inodes<'a> {
    /// What it is (`Kind`).
    pub kinds: &'a [u8],
    /// Whether it is marked.
    pub marked: &'a FilledList<bool>,
    /// Its parent, or 0 for none.
    pub parents: &'a FilledList<u32>,
    ghost marked_long: { vec_len marked.now ≡ length kinds.now },
    ghost parents_long: { vec_len parents.now ≡ length kinds.now },
    ghost few: { length kinds.now < 2 ^ 31 },
}

impl<'a> Inodes<'a> {
    ghost use Rattle.ffs_volume.specs.Encodings.Kinds.{is_dir_kind, is_allocated_kind, is_unknown_kind, type_of_kind};
    ghost use Rattle.ffs_survey.specs.Survey.{suspect_at};
    ghost use Rattle.ffs_pathnames.specs.{Sees.HasWordOf, Stamps.stamps_of};
    ghost use Rattle.ffs_volume.specs.declared.constants.TheConstants as constants;

    /// How many inodes there are.
    pub fn count(&self) -> u32
        ensures { result ≡ length self.now.kinds.now }
    {
        self.kinds.len() as u32
    }

    /// What the inode is.
    pub fn kind(&self, inode: u32) -> Kind
        requires { inode < length self.now.kinds.now }
        ensures { result.code ≡ slice_index self.now.kinds.now inode }
    {
        Kind {
            code: self.kinds[inode as usize],
        }
    }

    /// Whether the inode is a directory.
    pub fn is_dir(&self, inode: u32) -> bool
        requires { inode < length self.now.kinds.now }
        ensures { result ≡ is_dir_kind (slice_index self.now.kinds.now inode) }
    {
        self.kind(inode).is_dir()
    }

    /// Whether the inode is marked, or a directory of size 0.
    pub fn is_suspect(&self, inode: u32) -> bool
        requires { inode < length self.now.kinds.now }
        ensures { result ≡ suspect_at self.now.kinds.now self.now.marked.now.items inode }
    {
        is_suspect(self.kinds, self.marked, inode as usize)
    }

    /// Whether the inode is allocated.
    pub fn is_allocated(&self, inode: u32) -> bool
        requires { inode < length self.now.kinds.now }
        ensures { result ≡ is_allocated_kind (slice_index self.now.kinds.now inode) }
    {
        self.kind(inode).is_allocated()
    }

    /// Whether the inode isn't of class Unknown, and has another type than this one.
    pub fn has_wrong_type(&self, inode: u32, kind: u8) -> bool
        requires { inode < length self.now.kinds.now }
        ensures { result ≡ (not (is_unknown_kind (slice_index self.now.kinds.now inode))
            && not (kind == type_of_kind (slice_index self.now.kinds.now inode))) }
    {
        let own = self.kind(inode);
        !own.is_unknown() && kind != own.entry_type()
    }

    /// Whether the inode is a directory other than the root, with this parent.
    pub fn belongs(&self, parent: u32, inode: u32) -> bool
        requires { inode < length self.now.kinds.now }
        ensures { result ≡ (is_dir_kind (slice_index self.now.kinds.now inode)
            && (not (inode == constants.ROOTINO)
            && slice_index self.now.parents.now.items inode == parent)) }
    {
        self.is_dir(inode) && inode != ROOTINO && self.parents[inode as usize] == parent
    }

    /// The inode's parent, where the entry there is due by the inode's word (`is_due`), else 0.
    #[tactic(auto, using(std::proofs::lemmas::List::get_or_read_under, crate::proofs::StampLaws::stamp_at, crate::proofs::StampLaws::none_stamped))]
    pub fn stamp_of(&self, words: &FilledList<u32>, inode: u32) -> u32
        requires { HasWordOf self.now inode words.now.items }
        ensures { result ≡ slice_index
            (stamps_of self.now.parents.now.items words.now.items) inode }
    {
        let index = inode as usize;
        if is_due(words[index]) {
            self.parents[index]
        } else {
            0
        }
    }
}
