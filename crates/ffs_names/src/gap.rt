//! Whether a hole of a directory is kept.
ghost use Rattle.std.specs.Prelude.{IsTrue};
ghost use Rattle.ffs_walk.specs.Rests.{IsOver};
ghost use Rattle.ffs_names.specs.{Windows.CanWalkDir, Leaves.{walk_moment, LooksForGap}};

use crate::chunks::Chunks;
use ffs_image::{Image, ImageFault};
use ffs_walk::{Blocks, Walk};

/// True only where no step is left of a walk.
#[inline(always)]
fn is_over(walk: &Walk) -> bool
    ensures { IsTrue result → IsOver walk.now }
{
    walk.next >= walk.used
        && !walk.single.is_left()
        && !walk.double.is_left()
        && !walk.triple.is_left()
}

/// Walks over the steps that a reading of chunks has left, and returns whether a hole is among all
/// its steps.
fn find_gap<I: Image>(
    image: &mut I,
    blocks: &mut Blocks,
    chunks: &mut Chunks,
) -> Result<bool, ImageFault>
    requires { CanWalkDir chunks.old.walk.geometry.layout (I.device image.old) blocks.old }
    ensures { LooksForGap (walk_moment I.Image image.old blocks.old chunks.old)
        (walk_moment I.Image image.new blocks.new chunks.new) result }
{
    'runs: while chunks.advance(image, blocks)? {
        // Its chunks are passed over.
        chunks.run_cursor.next = chunks.run_cursor.count;
    }
    Ok(chunks.gap)
}

/// Whether a hole is among the steps of a directory that are kept: those that the reading of its
/// chunks has seen, and those that are left.
///
/// # Errors
/// A read of the image that failed. Then no chunk comes any more.
#[inline(always)]
pub fn gap_of<I: Image>(
    image: &mut I,
    blocks: &mut Blocks,
    chunks: &mut Chunks,
) -> Result<bool, ImageFault>
    requires { CanWalkDir chunks.old.walk.geometry.layout (I.device image.old) blocks.old }
    ensures { LooksForGap (walk_moment I.Image image.old blocks.old chunks.old)
        (walk_moment I.Image image.new blocks.new chunks.new) result }
{
    if is_over(&chunks.walk) {
        return Ok(chunks.gap);
    }
    find_gap(image, blocks, chunks)
}
