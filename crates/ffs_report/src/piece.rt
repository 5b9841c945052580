//! The pieces that a line is made of.

/// A piece of a line.
#[derive(Clone, Copy)]
pub enum Piece<'a> {
    /// Bytes as they are.
    Text(&'a [u8]),
    /// Bytes with a question mark for each control byte.
    Shown(&'a [u8]),
    /// A number, and the text after it.
    Number(u64, &'a [u8]),
    /// A signed number, and the text after it.
    Signed(i64, &'a [u8]),
    /// The minus of a number below zero.
    Sign(i64),
}
