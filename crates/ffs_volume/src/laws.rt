//! Laws and worked examples of the definitions. Nothing runs here: each function states its
//! contract.

ghost use Rattle.ffs_volume.specs.Laws.{Accepted.AcceptedFit, Meanings.{AllPathsFit, AreLongest, KeptAreFirst}};
ghost use Rattle.ffs_volume.specs.{Laws.Meanings.{LevelsAreLeast, SumsAreWhole}, Examples.ExamplesHold.ExamplesHold};

/// The layout of an accepted superblock meets each condition of `IsAcceptedLayout`, and its
/// fragments lie in the image.
pub fn accepted_are_sound()
    ensures { AcceptedFit }
{}

/// The fragments that an inode keeps are the first of those that its addresses offer, and all of
/// them unless it is cut.
pub fn kept_are_first()
    ensures { KeptAreFirst }
{}

/// The entries of a chunk are the longest list of well formed entries from its start.
pub fn entries_are_longest()
    ensures { AreLongest }
{}

/// The level of a directory is the least number of edges from inode 2, and is below the number of
/// inodes.
pub fn levels_are_least()
    ensures { LevelsAreLeast }
{}

/// A path that is printed has at most 1,024 bytes.
pub fn paths_fit()
    ensures { AllPathsFit }
{}

/// The free blocks and the loose fragments that are counted for a group are all its free fragments.
pub fn sums_are_whole()
    ensures { SumsAreWhole }
{}

/// What the definitions say of worked examples, most of them in both orders of bytes.
pub fn examples_hold()
    ensures { ExamplesHold }
{}
