//! The elements of a list that are written.
ghost use Rattle.std.specs.Prelude.{◌<◌, vec_capacity};
ghost use Rattle.ffs_memory.specs.Touching.{Touches};

use std::mem::replace;

/// Touches the elements up to an index: each that wasn't touched yet is written as `value`, in the
/// memory that was taken.
#[inline(always)]
pub(crate) fn touch<T: Copy>(touched: &mut Vec<T>, index: usize, value: T)
    requires { index < vec_capacity touched.old }
    ensures { Touches touched.old touched.new index value }
{
    if touched.len() <= index {
        touch_more(touched, index, value);
    }
}

/// Does what `touch` does, for any number of elements. It isn't inlined, since an element that is
/// asked for is mostly touched already. The list is a local value meanwhile, so that all elements
/// are written in one go.
#[inline(never)]
fn touch_more<T: Copy>(touched: &mut Vec<T>, index: usize, value: T)
    requires { index < vec_capacity touched.old }
    ensures { Touches touched.old touched.new index value }
{
    let empty = Vec::new(*touched.allocator());
    let mut list = replace(touched, empty);
    let mut len = list.len();
    while len <= index {
        list.push_reserved(value);
        len += 1;
    }
    *touched = list;
}
