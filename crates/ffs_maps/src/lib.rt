//! A bit for each fragment of a volume, in words of 64.
//!
//! A `FragmentMap` is its list of bits: `get`, `set` and `clear` read and write one of them,
//! `set_run` sets those of a run, and `claim` those of a run in one word, where none of them is set
//! yet. A run is any number of consecutive fragments here. `count` counts the set bits of a part,
//! and `count_ones` gives those of the whole map, which are counted as they change. `clear_bits`
//! says which of 64 fragments have a clear one. `reserve` sets the bits of the reserved fragments,
//! which hold no file's data, and `reserved_count` says how many these are, so that a summary can
//! leave them out.
//!
//! ```text
//! let mut claimed = FragmentMap::new(alloc, geometry.layout.size)?;
//! let claimed_at_once = claimed.claim(start, len);
//! ```
//!
//! It rests on `ffs_memory` and `ffs_layout`.
#![tactic(auto)]

ghost use Rattle.std.specs.Prelude.{ℕ, nat_eq, ◌≡◌, ◌↔◌, ◌+◌, ◌*◌, ◌%◌, ◌<◌, ◌≤◌, ◌-◌, length, IfOk, IsTrue, true};
ghost use Rattle.std.specs.{Prelude.{false, slice_set, replicate}, List.{slice_index_or, All}, Int.{div_ceil, bit_at}};
ghost use Rattle.ffs_maps.specs.WordBits.{bits_of_words, set_among};

mod map_words;
mod reserved;

use crate::map_words::MapWords;
use crate::reserved::reserved_run;
use ffs_layout::Geometry;
use ffs_memory::{Memory, SystemMemory};
pub use reserved::reserved_count;
use std::alloc::{AllocError, Global};

/// A group of so many fragments is large: its words take half a page of memory.
const LARGE_GROUP: u32 = 16384;

/// A bit for each fragment, in words of 64, and how many of them are set.
#[derive(Drop)]
pub struct FragmentMap {
    words: MapWords,
    /// How many fragments the map has.
    pub size: u32,
    /// How many bits are set.
    ones: u32,
    ghost enough: { length words.list ≡ div_ceil size 64 },
    ghost counted: { ones ≡ set_among (bits_of_words words.list size) 0 size },
}

impl FragmentMap {
    ghost use Rattle.ffs_memory.specs.System.{AsksOfSystem};
    ghost use Rattle.ffs_maps.specs.Reserved.{with_reserved};
    ghost use Rattle.ffs_maps.specs.Bits.{bits_of, set_run, is_clear, ClaimsRun, HasBits, IsInWord, IsPart, IsSomeInWord, IsSomeRun, MakesMap};

    /// A map with no bit set, in the memory of an allocator.
    ///
    /// # Errors
    /// The memory was refused.
    #[tactic(auto, using(ffs_memory::proofs::Asking::of_system))]
    pub fn new(alloc: Global, size: u32) -> Result<FragmentMap, AllocError>
        ensures new { IfOk result (λ m. HasBits m size (replicate size false)) }

        // It is refused only where the system refused a request.
        ensures asks { AsksOfSystem (8 * div_ceil size 64) result }
    {
        FragmentMap::in_memory(&mut SystemMemory::new(alloc), size)
    }

    /// A map with no bit set.
    ///
    /// # Errors
    /// The memory was refused.
    pub fn in_memory<M: Memory>(memory: &mut M, size: u32) -> Result<FragmentMap, AllocError>
        ensures made { MakesMap (M.account memory.old) (M.account memory.new) size result }
        ensures once { M.requests memory.new ≤ M.requests memory.old + 1 }
    {
        let count = size.div_ceil(64) as usize;
        let room = memory.room_for_words(count)?;
        Ok(FragmentMap {
            words: MapWords::over(room, count),
            size,
            ones: 0,
        })
    }

    /// How many bytes its words take.
    pub fn held(&self) -> u64
        ensures { result ≡ 8 * div_ceil self.now.size 64 }
    {
        8 * self.words.len() as u64
    }

    /// Whether the bit of a fragment is set.
    #[tactic(auto, using(std::proofs::lemmas::Nat::Bits::shr_and_one, crate::proofs::Bits::get_bits))]
    pub fn get(&self, fragment: u32) -> bool
        requires { fragment < self.now.size }
        ensures { result ≡ slice_index_or (bits_of self.now) fragment false }
    {
        let word = self.words.get(fragment as usize / 64);
        word >> (fragment % 64) & 1 == 1
    }

    /// Which of the 64 fragments from `start` on are of the map and have a clear bit, the first one
    /// lowest.
    #[inline(always)]
    #[tactic(auto, using(crate::proofs::WordShifts::joined, crate::proofs::WordShifts::joined_above))]
    pub fn clear_bits(&self, start: u64) -> u64
        ensures { (k : ℕ) → k < 64 → nat_eq (bit_at result k) 1
            ≡ is_clear (bits_of self.now) self.now.size (start + k) }
    {
        let index = start as usize / 64;
        let low = start % 64;
        let first = self.clear_word(index) >> low;
        if low == 0 {
            return first;
        }
        first | self.clear_word(index + 1) << (64 - low)
    }

    /// Which fragments of the word at an index are of the map and have a clear bit, the first one
    /// lowest.
    #[inline(always)]
    #[tactic(auto, using(crate::proofs::WordShifts::clear_is, crate::proofs::WordShifts::clear_in_last))]
    fn clear_word(&self, index: usize) -> u64
        ensures { (k : ℕ) → k < 64 → nat_eq (bit_at result k) 1
            ≡ is_clear (bits_of self.now) self.now.size (64 * index + k) }
    {
        let whole = self.size as usize / 64;
        if index < whole {
            return !self.words.get(index);
        }
        if index >= self.words.len() {
            return 0;
        }
        let word = self.words.get(index);
        let clear = !word;
        let left = self.size as usize - 64 * index;
        clear & ((1 << left) - 1)
    }

    /// How many bits of a run in one word are set.
    fn count_in_word(&self, start: u32, len: u32) -> u32
        requires { IsInWord start len self.now.size }
        ensures { result ≡ set_among (bits_of self.now) start len }
    {
        if len == 0 {
            return 0;
        }
        let word = self.words.get(start as usize / 64);
        let bits = word >> (start % 64) & (u64::MAX >> (64 - len));
        bits.count_ones()
    }

    /// How many bits are set of the fragments from `start` on and below `end`.
    #[tactic(auto, using(crate::proofs::Counting::count_within))]
    pub fn count(&self, start: u32, end: u32) -> u32
        requires { IsPart start end self.now.size }
        ensures { result ≡ set_among (bits_of self.now) start (end - start) }
    {
        let first = start.div_ceil(64);
        let last = end / 64;
        if last < first {
            return self.count_in_word(start, end - start);
        }
        let before = self.count_in_word(start, 64 * first - start);
        let words = self.words.count(first, last);
        before + words + self.count_in_word(64 * last, end - 64 * last)
    }

    /// How many bits are set. They are counted as they change, so none is looked at.
    pub fn count_ones(&self) -> u32
        ensures { result ≡ set_among (bits_of self.now) 0 self.now.size }
    {
        self.ones
    }

    /// Sets the bit of a fragment.
    pub fn set(&mut self, fragment: u32)
        requires { fragment < self.old.size }
        ensures { HasBits self.new self.old.size (slice_set (bits_of self.old) fragment true) }
    {
        self.ones += u32::from(!self.get(fragment));
        let index = fragment as usize / 64;
        let word = self.words.get(index);
        self.words.set(index, word | 1 << (fragment % 64));
    }

    /// Clears the bit of a fragment.
    pub fn clear(&mut self, fragment: u32)
        requires { fragment < self.old.size }
        ensures { HasBits self.new self.old.size (slice_set (bits_of self.old) fragment false) }
    {
        self.ones -= u32::from(self.get(fragment));
        let index = fragment as usize / 64;
        let word = self.words.get(index);
        self.words.set(index, word & !(1 << (fragment % 64)));
    }

    /// Sets the bits of a run in one word.
    fn set_in_word(&mut self, start: u32, len: u32)
        requires { IsSomeInWord start len self.old.size }
        ensures { HasBits self.new self.old.size (set_run (bits_of self.old) start len) }
    {
        self.ones += len - self.count_in_word(start, len);
        let index = start as usize / 64;
        let bits = (u64::MAX >> (64 - len)) << (start % 64);
        let word = self.words.get(index);
        self.words.set(index, word | bits);
    }

    /// Sets the bits of a run.
    #[tactic(auto, using(crate::proofs::Bits::run_join))]
    pub fn set_run(&mut self, start: u32, len: u32)
        requires { start + len ≤ self.old.size }
        ensures { HasBits self.new self.old.size (set_run (bits_of self.old) start len) }
    {
        let end = start + len;
        let mut index = start;
        while index < end {
            let some = (64 - index % 64).min(end - index);
            self.set_in_word(index, some);
            index += some;
        }
    }

    /// Sets the bits of the reserved fragments, group after group.
    fn set_reserved(&mut self, geometry: &Geometry)
        requires { self.old.size ≡ geometry.now.layout.size }
        ensures { HasBits self.new self.old.size
            (with_reserved geometry.now.layout (bits_of self.old)) }
    {
        for group in 0..geometry.layout.ncg {
            let (first, end) = reserved_run(geometry, group);
            self.set_run(first, end - first);
        }
    }

    /// Sets the bits of the reserved fragments of the volume that the map is of. In a map that is
    /// new no word is written for it where groups are large: where they are small, most words have
    /// reserved fragments, and are looked at faster where they are written.
    pub fn reserve(&mut self, geometry: &Geometry)
        requires { self.old.size ≡ geometry.now.layout.size }
        ensures { HasBits self.new self.old.size
            (with_reserved geometry.now.layout (bits_of self.old)) }
    {
        if geometry.layout.fpg >= LARGE_GROUP && self.words.lay_reserved(geometry) {
            self.ones = reserved_count(geometry);
            return;
        }
        self.set_reserved(geometry);
    }

    /// Sets the bits of a run that lies in one word, where none of them is set. Returns whether it
    /// did.
    pub fn claim(&mut self, start: u32, len: u32) -> bool
        requires { IsSomeRun start len self.old.size }
        ensures { ClaimsRun self.old self.new start len result }
    {
        let low = start % 64;
        if len > 64 - low {
            return false;
        }
        let index = start as usize / 64;
        let mask = (u64::MAX >> (64 - len)) << low;
        if !self.words.claim(index, mask) {
            return false;
        }
        self.ones += len;
        true
    }
}
