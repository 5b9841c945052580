//! How many pieces of a power-of-two size hold a number of bytes, by shift and mask: this is asked
//! of every inode, and a division takes longer.

ghost use Rattle.std.specs.{Prelude.{◌≡◌, ◌%◌}, Int.{IsPowerOfTwo, div_ceil}};

/// How many of `size` bytes come after the last whole piece of `piece` bytes.
#[tactic(auto, using(crate::proofs::Powers::masked))]
pub fn after_pieces(size: u64, piece: u32) -> u64
    requires { IsPowerOfTwo piece }
    ensures { result ≡ size % piece }
{
    size & u64::from(piece - 1)
}

/// How many pieces of `piece` bytes hold `size` bytes, the last one perhaps in part.
#[tactic(auto, using(crate::proofs::Powers::shifted))]
pub fn pieces_of(size: u64, piece: u32) -> u64
    requires { IsPowerOfTwo piece }
    ensures { result ≡ div_ceil size piece }
{
    let whole = size >> piece.trailing_zeros();
    if after_pieces(size, piece) == 0 {
        whole
    } else {
        whole + 1
    }
}
