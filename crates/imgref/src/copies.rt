//! Copies of images, padding included.

ghost use Rattle.std.specs.Prelude.{◌≡◌, length, IsOk, IfOk};
ghost use Rattle.image_ops.specs.Clones.{ClonesEqual};
ghost use Rattle.imgref.specs.Image.{buf_of, layout_by, vec_layout};

use crate::containers::AsSlice;
use crate::img::{Img, ImgVec};
use image_ops::cloned;
use std::alloc::{AllocError, Global};

impl<C: AsSlice> Img<C> {
    /// A copy of the whole image in a buffer of its own: the same size, the same stride and every
    /// cell, padding included. It need not fit.
    ///
    /// # Requires
    ///
    /// The clones of the cells equal them. This is a fact about the pixel type, which no call
    /// tests.
    ///
    /// # Errors
    ///
    /// Out of memory, or a cell's own `clone` failed; the clones made before are dropped. This
    /// never happens where there is no cell.
    pub fn to_owned(&self, alloc: Global) -> Result<ImgVec<C::Item>, AllocError>
    where
        C::Item: Clone,
        requires clones_equal { ClonesEqual C.Item.is_clone (C.cells (buf_of self.now)) }
        ensures layout { IfOk result (λ i. vec_layout i ≡ layout_by C.cells self.now) }
        ensures succeeds { length (C.cells (buf_of self.now)) ≡ 0 → IsOk result }
    {
        let buf = cloned(alloc, self.buf.as_slice())?;
        Ok(Img::from_parts(buf, self.shape()))
    }
}

impl<T: Clone> ImgVec<T> {
    /// A copy of the whole image, the same as `to_owned` returns.
    ///
    /// # Requires
    ///
    /// As for `to_owned`.
    ///
    /// # Errors
    ///
    /// As for `to_owned`.
    pub fn clone(&self, alloc: Global) -> Result<ImgVec<T>, AllocError>
        requires clones_equal { ClonesEqual T.is_clone (buf_of self.now).items }
        ensures layout { IfOk result (λ i. vec_layout i ≡ vec_layout self.now) }
        ensures succeeds { length (buf_of self.now).items ≡ 0 → IsOk result }
    {
        self.to_owned(alloc)
    }
}
