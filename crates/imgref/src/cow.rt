//! Images whose cells are borrowed or owned.

ghost use Rattle.std.specs.Prelude.{◌≡◌, ◌*◌, length, IsOk, IfOk, IfErr};
ghost use Rattle.std.specs.Cow.{IsBorrowedSlice, IsOwnedSlice};
ghost use Rattle.image_model.specs.Layout.{Fits};
ghost use Rattle.image_model.specs.Rows.{joined_rows};
ghost use Rattle.image_model.specs.Compaction.{packed};
ghost use Rattle.image_ops.specs.Clones.{ClonesEqual};
ghost use Rattle.imgref.specs.Image.{buf_of, width_of, height_of, vec_layout};
ghost use Rattle.imgref.specs.Copies.{cow_layout, IsBufferOf, IsOwnedAs, IsLentAs};

use crate::img::{Img, ImgRef, ImgVec};
use image_ops::{cloned, joined_clones};
use image_shape::Shape;
use std::alloc::Global;
use std::borrow::CowSlice;

impl<'a, T: Clone> Img<CowSlice<'a, T>> {
    /// The image with a buffer of its own. Owned cells stay in their buffer, at the same size and
    /// stride, and no memory is allocated. Borrowed cells are cloned row by row, without padding:
    /// the stride is then the width, or 1 at width 0.
    ///
    /// # Requires
    ///
    /// Only for borrowed cells: the image fits (`is_valid`), and the clones of its pixels equal
    /// them, which no call tests.
    ///
    /// # Errors
    ///
    /// The image as it was: out of memory, or a pixel's own `clone` failed. This never happens for
    /// owned cells, nor where there is no pixel.
    pub fn into_owned(self, alloc: Global) -> Result<ImgVec<T>, Self>
        requires fits { IsBorrowedSlice (buf_of self) → Fits (cow_layout self) }
        requires clones_equal { IsBorrowedSlice (buf_of self)
            → ClonesEqual T.is_clone (joined_rows (cow_layout self)) }
        ensures owned { IsOwnedSlice (buf_of self.entry)
            → IfOk result (λ i. vec_layout i ≡ cow_layout self.entry) }
        ensures own_buffer { IfOk result (λ i. IsBufferOf (buf_of self.entry) (buf_of i)) }
        ensures borrowed { IsBorrowedSlice (buf_of self.entry)
            → IfOk result (λ i. vec_layout i ≡ packed (cow_layout self.entry)) }
        ensures succeeds { IsOwnedSlice (buf_of self.entry) → IsOk result }
        ensures no_pixel { width_of self.entry * height_of self.entry ≡ 0 → IsOk result }
        ensures handed_back { IfErr result (λ i. i ≡ self.entry) }
    {
        let (buf, shape) = self.into_parts();
        match buf {
            CowSlice::Owned(buf) => Ok(Img::from_parts(buf, shape)),
            CowSlice::Borrowed(pixels) => match joined_clones(alloc, pixels, shape) {
                Ok(buf) => Ok(Img::from_parts(buf, shape.packed())),
                Err(_) => Err(Img::from_parts(CowSlice::Borrowed(pixels), shape)),
            },
        }
    }

    /// The image with a buffer of its own, at the same size and stride, with every cell, padding
    /// included. Owned cells stay in their buffer, and no memory is allocated. The image need not
    /// fit. This call replaces the Rust crate's `From` of such an image for an `ImgVec`.
    ///
    /// # Requires
    ///
    /// Only for borrowed cells: the clones of the cells equal them, which no call tests.
    ///
    /// # Errors
    ///
    /// The image as it was: out of memory, or a cell's own `clone` failed. This never happens for
    /// owned cells, nor where there is no cell.
    pub fn into_vec(self, alloc: Global) -> Result<ImgVec<T>, Self>
        requires clones_equal { IsBorrowedSlice (buf_of self)
            → ClonesEqual T.is_clone (cow_layout self).cells }
        ensures layout { IfOk result (λ i. vec_layout i ≡ cow_layout self.entry) }
        ensures own_buffer { IfOk result (λ i. IsBufferOf (buf_of self.entry) (buf_of i)) }
        ensures succeeds { IsOwnedSlice (buf_of self.entry) → IsOk result }
        ensures no_cell { length (cow_layout self.entry).cells ≡ 0 → IsOk result }
        ensures handed_back { IfErr result (λ i. i ≡ self.entry) }
    {
        let (buf, shape) = self.into_parts();
        match buf {
            CowSlice::Owned(buf) => Ok(Img::from_parts(buf, shape)),
            CowSlice::Borrowed(cells) => match cloned(alloc, cells) {
                Ok(buf) => Ok(Img::from_parts(buf, shape)),
                Err(_) => Err(Img::from_parts(CowSlice::Borrowed(cells), shape)),
            },
        }
    }
}

/// Owned cells: the image's own buffer, at its size and stride.
impl<T: Clone> From<ImgVec<T>> for Img<CowSlice<'static, T>> {
    ghost from_gives = { IsOwnedAs };

    fn from(image: ImgVec<T>) -> Img<CowSlice<'static, T>> {
        Img {
            buf: CowSlice::Owned(image.buf),
            width: image.width,
            height: image.height,
            stride: image.stride,
        }
    }
}

/// Borrowed cells: those of the image, at its size and stride.
impl<'a, T: Clone> From<ImgRef<'a, T>> for Img<CowSlice<'a, T>> {
    ghost from_gives = { IsLentAs };

    fn from(image: ImgRef<'a, T>) -> Img<CowSlice<'a, T>> {
        Img::from_parts(CowSlice::Borrowed(image.buf), image.shape())
    }
}
