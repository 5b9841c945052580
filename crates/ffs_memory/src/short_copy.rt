//! Copies of short texts.

ghost use Rattle.std.specs.Prelude.{◌≡◌, ◌≤◌, ◌*◌, length};

/// The bytes of a word, which the machine moves at once.
const WORD: usize = 4;

/// Copies bytes by their first and their last word, which may overlap.
#[inline(always)]
fn copy_two_words(to: &mut [u8], from: &[u8])
    requires { (length to.old ≡ length from.now) × (4 ≤ length from.now)
        × (length from.now ≤ 2 * 4) }
    ensures { to.new ≡ from.now }
{
    let last = from.len() - WORD;
    to[..WORD].copy_from_slice(&from[..WORD]);
    to[last..].copy_from_slice(&from[last..]);
}

/// Copies bytes. Numbers and most names are short, and a call of a copy takes longer than they do.
/// The shortest are copied byte by byte: the machine would wait for digits that were just written
/// so, if it were to read two at once.
#[inline(always)]
pub fn copy_short(to: &mut [u8], from: &[u8])
    requires { length to.old ≡ length from.now }
    ensures { to.new ≡ from.now }
{
    let len = from.len();
    if len > 2 * WORD {
        to.copy_from_slice(from);
    } else if len >= WORD {
        copy_two_words(to, from);
    } else if len > 0 {
        to[0] = from[0];
        if len > 1 {
            to[1] = from[1];
        }
        if len > 2 {
            to[2] = from[2];
        }
    }
}
