//! An image with a limit on its reads.
ghost use Rattle.std.specs.Prelude.{◌≡◌, ◌+◌, ◌≤◌, ◌||◌, true, false};
ghost use Rattle.ffs_image.specs.Limited.{GivesBackLent, after_reads, lent_at, limited_device, reads_asked};

use crate::image::{DEV_BSIZE, Image, ImageFault};
use std::snapshot::Snapshot;

/// An image over another one that is lent to it, which it reads no more often than its limit. Each
/// further read is refused: it fails, and the image below isn't asked. So is each read after one
/// that failed.
///
/// What reads a whole image needs a bound that holds of any image, also of one that gives other
/// bytes each time. An image whose bytes stay never reaches the limit, where that is at least what
/// its bytes ask for. So a caller that finds the limit spent (`is_spent`) answers `Ok` with what it
/// has: bytes that stay never lead there, as its proof shows (`served` of `proofs/Limits.antt`).
pub struct LimitedImage<'a, I: Image> {
    /// The image that is read.
    below: &'a mut I,
    /// What it was when it was lent, for contracts alone: at run time a snapshot has no bytes.
    begins: Snapshot<I>,
    /// How many reads may be made: for contracts alone.
    limit: u64,
    /// How many of them are left.
    left: u64,
    /// Whether a read was refused, since none was left.
    spent: bool,
    /// Whether a read of the image below failed.
    failed: bool,
    /// Where the read below failed, if one did.
    below_failed_sector: u64,
    /// How many reads of this image failed or were refused.
    failures: u64,
    /// Where the last read of this image failed or was refused.
    failed_sector: u64,
    ghost few: { left ≤ limit },
    ghost none_left: { spent ≡ true → (left ≡ 0) × (failed ≡ false) },
    ghost within: { I.reads below.now + left ≤ I.reads begins.value + limit },
    ghost one_failed: { I.device below.now ≡ after_reads (I.device begins.value) failed
        below_failed_sector },
    ghost none_failed: { (failed || spent) ≡ false → failures ≡ 0 },
    ghost some_failed: { failures ≡ 0 → (failed || spent) ≡ false },
    ghost first_failed: { failures ≡ 1 → failed ≡ true → below_failed_sector ≡ failed_sector },
}

impl<'a, I: Image> LimitedImage<'a, I> {
    /// The image below, of which at most `limit` reads are made.
    pub fn new(below: &'a mut I, limit: u64) -> LimitedImage<'a, I>
        ensures device { ⟦<LimitedImage<'a, I> as Image>⟧.device result
            ≡ limited_device (I.device below.old) below.entry.ghost_name (I.reads below.old)
            limit }
        ensures asked { ⟦<LimitedImage<'a, I> as Image>⟧.reads result ≡ 0 }
    {
        let begins = Snapshot::of(&*below);
        LimitedImage {
            below,
            begins,
            limit,
            left: limit,
            spent: false,
            failed: false,
            below_failed_sector: 0,
            failures: 0,
            failed_sector: 0,
        }
    }

    /// How many reads are left of the limit.
    pub fn left(&self) -> u64
        ensures value { result ≡ self.now.left }
    {
        self.left
    }

    /// Whether the limit refused a read. If so, a call that read this image alone ended because of
    /// that, and no read of the image below failed; if not, a fault that it answers is one of the
    /// image below.
    pub fn is_spent(&self) -> bool
        ensures value { result ≡ self.now.spent }
        ensures below { GivesBackLent (lent_at (I.device self.now.below.now)
            self.now.below.ghost_name (I.reads self.now.below.now) self.now.left)
            (⟦<LimitedImage<'a, I> as Image>⟧.reads self.now) result
            (⟦<LimitedImage<'a, I> as Image>⟧.device self.now) }
    {
        self.spent
    }
}

impl<'a, I: Image> Image for LimitedImage<'a, I> {
    ghost use Rattle.std.specs.Prelude.{◌+◌, length};
    ghost use Rattle.ffs_image.specs.{Limited.PassesOrRefuses, Reads.{ReadsAtMostOnce, ReadsBytes}};

    ghost device = { λ l. record (limited_device (I.device l.begins.value) l.below.ghost_name
        (I.reads l.begins.value) l.limit) {
          failures = l.failures;
          failed_sector = l.failed_sector;
        } };

    ghost reads = { λ l. reads_asked l.limit l.left l.spent };

    ghost was_read = { λ l at size after. ReadsAtMostOnce I.was_read at size l.below.now
        after.below.now };

    ghost sized = { λ l. I.sized l.begins.value };

    fn size(&self) -> u64 {
        self.below.size()
    }

    fn failures(&self) -> u64 {
        self.failures
    }

    fn failed(&self) -> u64 {
        self.failed_sector
    }

    #[tactic(auto, unfolding(crate::specs::Reads::ReadsAtMostOnce))]
    fn read_at(&mut self, at: u64, buf: &mut [u8]) -> Result<(), ImageFault>
        requires { at + length buf.old
            ≤ (⟦<LimitedImage<'a, I> as Image>⟧.device self.old).size }
        ensures bytes { ReadsBytes (⟦<LimitedImage<'a, I> as Image>⟧.device self.old)
            (⟦<LimitedImage<'a, I> as Image>⟧.device self.new) at buf.new result }
        ensures counted { ⟦<LimitedImage<'a, I> as Image>⟧.reads self.new
            ≤ ⟦<LimitedImage<'a, I> as Image>⟧.reads self.old + 1 }
        ensures asked { ReadsAtMostOnce I.was_read at (length buf.old) self.old.below.now
            self.new.below.now }

        // Which reads are passed on, and which refused.
        ensures passes { PassesOrRefuses (self.old.failed || self.old.spent) self.old.left
            self.new.left self.old.below.now self.new.below.now result }
    {
        if !self.failed && !self.spent {
            if self.left == 0 {
                self.spent = true;
            } else {
                self.left -= 1;
                match self.below.read_at(at, buf) {
                    Ok(()) => return Ok(()),
                    Err(fault) => {
                        self.below_failed_sector = fault.sector;
                        self.failed = true;
                    }
                }
            }
        }
        let sector = at / DEV_BSIZE;
        self.failures = self.failures.saturating_add(1);
        self.failed_sector = sector;
        Err(ImageFault { sector })
    }
}

// A derived `drop` has no clause: the image below would be lost to the caller's proof.
impl<I: Image> Drop for LimitedImage<'_, I> {
    fn drop(self)
        ensures below { self.exit.0.now ≡ self.entry.below.now }
    {
        let Self {
            below: _,
            begins: _,
            limit: _,
            left: _,
            spent: _,
            failed: _,
            below_failed_sector: _,
            failures: _,
            failed_sector: _,
        } = self;
    }
}
