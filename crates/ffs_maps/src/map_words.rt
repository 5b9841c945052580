//! The words of a map.

ghost use Rattle.std.specs.Prelude.{ℕ, count_by, ◌≡◌, ◌↔◌, ◌*◌, ◌-◌, ◌^◌, ◌<◌, ◌≤◌, length, replicate, slice_set, vec_capacity, vec_len, IsTrue, Some};
ghost use Rattle.std.specs.{List.{slice_index_or, range_with_len, All}, Int.div_ceil, Vec.vec_ptr};
ghost use Rattle.ffs_memory.specs.{Account.IsRoom, Touching.TouchesTo};
ghost use Rattle.ffs_maps.specs.Words.{ClaimsBits, HasWordsFor, IsWordFor, LaysReserved, TouchesStored, reserved_bit, reserved_bits, reserved_words};
ghost use Rattle.ffs_maps.specs.WordBits.{bits_of_words, set_among};

use crate::reserved::{reserved_among, reserved_word, stretch_from};
use ffs_layout::Geometry;
use ffs_memory::WordRoom;
use std::marker::Model;

/// How many words are touched at a time: those of a page of memory.
const PAGE_WORDS: usize = 512;

/// Whether all these words are equal to this one. The loop doesn't stop early, so that the
/// processor can compare several at once.
fn are_alike(words: &[u64], word: u64) -> bool
    ensures { IsTrue result ↔ All (λ w. w ≡ word) words.now }
{
    let mut differ = 0;
    for index in 0..words.len() {
        differ |= words[index] ^ word;
    }
    differ == 0
}

/// How many bits of some words are set. Mostly the words are alike: then the bits of one are
/// counted.
fn ones_of(words: &[u64]) -> u32
    requires { 64 * length words.now < 2 ^ 32 }
    ensures { result ≡ set_among (bits_of_words words.now (64 * length words.now)) 0
        (64 * length words.now) }
{
    if !words.is_empty() && are_alike(words, words[0]) {
        return words.len() as u32 * words[0].count_ones();
    }
    let mut count = 0;
    for index in 0..words.len() {
        count += words[index].count_ones();
    }
    count
}

/// How many bits are set in the words from `first` on and below `last`, which aren't touched.
fn untouched_ones(reserved: &Option<Geometry>, first: u32, last: u32) -> u32
    requires order { first ≤ last }
    requires fits { 64 * last < 2 ^ 32 }
    ensures { result ≡ count_by (reserved_bit reserved.now)
        (range_with_len (64 * first) (64 * last - 64 * first)) }
{
    match reserved {
        Some(geometry) => reserved_among(geometry, 64 * first, 64 * last),
        None => 0,
    }
}

/// Touches the words below `end`, each with the bits of the reserved fragments. Most have none of
/// them.
fn touch_reserved(touched: &mut WordRoom, geometry: &Geometry, end: usize)
    requires room { (vec_len touched.old ≤ end) × (end ≤ vec_capacity touched.old) }
    requires words { end ≤ div_ceil geometry.now.layout.size 64 }
    ensures { TouchesTo touched.old touched.new
        (reserved_words (Some geometry.now) (vec_len touched.old) (end - vec_len touched.old)) }
{
    let mut len = touched.len();
    while len < end {
        let stretch = stretch_from(geometry, 64 * len as u32);
        let next = end.min(stretch.end as usize / 64);
        if !stretch.reserved && len < next {
            touched.push_zeros(next);
            len = next;
        } else {
            touched.push(reserved_word(geometry, len as u32));
            len += 1;
        }
    }
}

/// The words of a map as they are stored. Those that aren't touched yet aren't written: in them the
/// bits of the reserved fragments are set, where it is known which these are.
#[derive(Drop)]
struct Stored {
    /// The words that are touched, from index 0 on.
    touched: WordRoom,
    /// How many words there are in all.
    count: usize,
    /// Where the reserved fragments lie.
    reserved: Option<Geometry>,
}

/// Touches the word at an index, and all others up to the end of its page. It isn't inlined, since
/// a word that is asked for is mostly touched already, and takes one reference, so that the loops
/// round a claim have registers.
#[inline(never)]
fn touch_page(stored: &mut Stored, index: usize)
    requires touched { vec_len stored.old.touched ≤ index }
    requires room { (index < stored.old.count)
        × (stored.old.count ≤ vec_capacity stored.old.touched) }
    requires words { HasWordsFor stored.old.reserved stored.old.count }
    ensures { TouchesStored stored.old stored.new index }
{
    let page = index - index % PAGE_WORDS;
    let end = page + PAGE_WORDS.min(stored.count - page);
    match &stored.reserved {
        Some(geometry) => touch_reserved(&mut stored.touched, geometry, end),
        None => stored.touched.push_zeros(end),
    }
}

/// Touches the word at an index, where it isn't touched.
#[inline(always)]
fn touch(stored: &mut Stored, index: usize)
    requires touched { vec_len stored.old.touched ≤ stored.old.count }
    requires room { (index < stored.old.count)
        × (stored.old.count ≤ vec_capacity stored.old.touched) }
    requires words { HasWordsFor stored.old.reserved stored.old.count }
    ensures { TouchesStored stored.old stored.new index }
{
    if index >= stored.touched.len() {
        touch_page(stored, index);
    }
}

/// The word at an index that isn't touched.
#[inline(never)]
fn untouched_word(reserved: &Option<Geometry>, index: usize) -> u64
    requires { IsWordFor reserved.now index }
    ensures { result ≡ reserved_bits reserved.now index }
{
    match reserved {
        Some(geometry) => reserved_word(geometry, index as u32),
        None => 0,
    }
}

/// Words of 64 bits, in memory that is taken before.
#[derive(Drop)]
pub(crate) struct MapWords {
    stored: Stored,
}

/// They are seen as all words, and the memory that they are in.
impl Model for MapWords {
    ghost use Rattle.std.specs.Prelude.{◌≤◌, ◌-◌, ◌++◌, vec_capacity, vec_len};
    ghost use Rattle.std.specs.Vec.{vec_ptr};
    ghost use Rattle.ffs_maps.specs.Words.{Words, HasWordsFor, reserved_words};

    ghost Value = { Words };

    ghost view = { λ w. record {
      list = w.stored.touched.items
          ++ reserved_words w.stored.reserved (vec_len w.stored.touched)
          (w.stored.count - vec_len w.stored.touched);
      address = vec_ptr w.stored.touched;
      room = vec_capacity w.stored.touched;
    } };

    ghost invariant = { λ w. (vec_len w.stored.touched ≤ w.stored.count)
        × (w.stored.count ≤ vec_capacity w.stored.touched)
        × HasWordsFor w.stored.reserved w.stored.count };
}

impl MapWords {
    /// `count` words, each 0, in a list that is empty yet and has room for just as many.
    #[tactic(auto, using(crate::proofs::Words::zero_words))]
    pub(crate) fn over(room: WordRoom, count: usize) -> MapWords
        requires { IsRoom count room }
        ensures { result ≡ record {
          list = replicate count 0;
          address = vec_ptr room;
          room = count;
        } }
    {
        let stored = Stored {
            touched: room,
            count,
            reserved: None,
        };
        MapWords { stored }
    }

    /// How many words there are.
    #[inline(always)]
    pub(crate) fn len(&self) -> usize
        ensures { result ≡ length self.now.list }
    {
        self.stored.count
    }

    /// The word at an index.
    #[inline(always)]
    pub(crate) fn get(&self, index: usize) -> u64
        requires { index < length self.now.list }
        ensures { result ≡ slice_index_or self.now.list index 0 }
    {
        if self.stored.touched.len() <= index {
            return untouched_word(&self.stored.reserved, index);
        }
        self.stored.touched[index]
    }

    /// Sets the word at an index. The words up to it are touched, in the memory that was taken.
    #[inline(always)]
    #[tactic(auto, using(crate::proofs::Words::set_seen, crate::proofs::Words::same_seen, crate::proofs::Words::length_seen))]
    pub(crate) fn set(&mut self, index: usize, word: u64)
        requires { index < length self.old.list }
        ensures { self.new ≡ record self.old { list = slice_set self.old.list index word } }
    {
        touch(&mut self.stored, index);
        self.stored.touched.set(index, word);
    }

    /// Sets the bits of a mask in the word at an index, where none of them is set there. Returns
    /// whether it did.
    #[inline(always)]
    pub(crate) fn claim(&mut self, index: usize, mask: u64) -> bool
        requires { index < length self.old.list }
        ensures { ClaimsBits self.old self.new index mask result }
    {
        touch(&mut self.stored, index);
        let word = self.stored.touched[index];
        if word & mask != 0 {
            return false;
        }
        self.stored.touched.set(index, word | mask);
        true
    }

    /// Lets it be known which fragments are reserved, where no word is touched and it isn't known
    /// yet: so their bits are set, and none is written. Returns whether it was so: if not, nothing
    /// has changed.
    pub(crate) fn lay_reserved(&mut self, geometry: &Geometry) -> bool
        requires { length self.old.list ≡ div_ceil geometry.now.layout.size 64 }
        ensures { LaysReserved self.old self.new geometry.now result }
    {
        if self.stored.touched.len() > 0 || self.stored.reserved.is_some() {
            return false;
        }
        self.stored.reserved = Some(*geometry);
        true
    }

    /// How many bits are set in the words from `first` on and below `last`.
    pub(crate) fn count(&self, first: u32, last: u32) -> u32
        requires order { first ≤ last }
        requires words { last ≤ length self.now.list }
        requires fits { 64 * last < 2 ^ 32 }
        ensures { (size : ℕ) → 64 * last ≤ size → result
            ≡ set_among (bits_of_words self.now.list size) (64 * first) (64 * last - 64 * first) }
    {
        let words = self.stored.touched.as_slice();
        let end = words.len().min(last as usize) as u32;
        if end <= first {
            return untouched_ones(&self.stored.reserved, first, last);
        }
        let touched = ones_of(&words[first as usize..end as usize]);
        touched + untouched_ones(&self.stored.reserved, end, last)
    }
}
