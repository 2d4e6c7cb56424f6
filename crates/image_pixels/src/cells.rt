//! Cells for reading, taken from the front.

ghost use Rattle.std.specs.Prelude.{◌≡◌, ◌≤◌, ◌<◌, ◌^◌, length, take, drop, List};
ghost use Rattle.image_pixels.specs.Loans.{seen};

use std::marker::{Model, PhantomData};
use std::slice::from_raw_parts;

// A pointer to the first of some cells that are lent for reading.
#[derive(Drop)]
pub(crate) struct Cells<'a, T> {
    current: *const T,
    marker: PhantomData<&'a [T]>,
    // The cells from the pointer on.
    ghost cells: { List T },
    ghost small: { length cells < 2 ^ 64 },
}

impl<'a, T> Model for Cells<'a, T> {
    ghost also_owns = { λ s. seen 'a T.row s.cells s.current };
}

impl<'a, T> Cells<'a, T> {
    // All cells of a slice.
    pub(crate) fn new(cells: &'a [T]) -> Cells<'a, T>
        ensures { result.cells ≡ cells.now }
    {
        Cells {
            current: cells.as_ptr(),
            marker: PhantomData,
        }
    }

    // The first `count` cells, which leaves those after them.
    pub(crate) fn take(&mut self, count: usize) -> &'a [T]
        requires { count ≤ length self.old.cells }
        ensures taken { result.now ≡ take count self.old.cells }
        ensures rest { self.new.cells ≡ drop count self.old.cells }
    {
        let first = self.current;
        self.current = unsafe { first.add(count) };
        unsafe { from_raw_parts(first, count) }
    }
}
