//! Images: a container of cells in a shape.

ghost use Rattle.std.specs.Prelude.{◌≡◌, ◌^◌, ◌≤◌, ◌<◌, ◌↔◌, IsTrue, ⊤};
ghost use Rattle.std.specs.Borrow.{sem, Lends};
ghost use Rattle.image_model.specs.Layout.{Fits};
ghost use Rattle.image_model.specs.Windows.{IsInside, window};

use crate::containers::AsSlice;
use image_shape::{Shape, Window};
use std::alloc::AllocError;

/// A container of cells seen as an image, by a width and a height in pixels, and a stride. The
/// stride is the number of cells from the start of a row to the start of the next one. The cells
/// that belong to no pixel are padding.
///
/// Every image has a stride of at least 1 and of at least its width, and a width and a height of at
/// most `u32::MAX`. Nothing is known of the number of cells: `is_valid` tests whether there are
/// enough.
#[derive(Drop)]
pub struct Img<Container> {
    pub(crate) buf: Container,
    pub(crate) width: u32,
    pub(crate) height: u32,
    pub(crate) stride: usize,
    ghost stride_positive: { 1 ≤ stride },
    ghost holds_width: { width ≤ stride },
}

/// An image that owns its pixels.
pub type ImgVec<T> = Img<Vec<T>>;

/// An image of borrowed pixels, for reading; it is `Copy`.
pub type ImgRef<'a, T> = Img<&'a [T]>;

/// An image of borrowed pixels, for writing.
pub type ImgRefMut<'a, T> = Img<&'a mut [T]>;

impl<Container: Copy> Copy for Img<Container> {}

impl<Container: Copy> Clone for Img<Container> {
    ghost is_clone = { λ x y. y ≡ x };

    ghost is_infallible = { λ _. ⊤ };

    fn clone(&self) -> Result<Self, AllocError> {
        Ok(*self)
    }
}

impl<Container> Img<Container> {
    // These name the type itself.
    ghost use Rattle.image_shape.specs.Shape.{shape_width, shape_height, shape_stride};
    ghost use Rattle.imgref.specs.contracts.img.Img.{the_row};
    ghost use Rattle.imgref.specs.Image.{buf_of, shape_of, width_of, height_of, stride_of, with_buf};

    /// The image of `width` by `height` pixels in `buf`, whose rows begin `stride` cells apart.
    /// There is no condition on the number of cells: where there are too few, `is_valid` is false.
    ///
    /// # Requires
    ///
    /// The stride is at least 1 and at least the width, and width and height are at most
    /// `u32::MAX`: compare the numbers. (The original crate panics otherwise.)
    pub fn new_stride(buf: Container, width: usize, height: usize, stride: usize) -> Self
        requires stride_positive { 1 ≤ stride }
        requires holds_width { width ≤ stride }
        requires width_bound { width < 2 ^ 32 }
        requires height_bound { height < 2 ^ 32 }
        ensures buf { buf_of result ≡ buf }
        ensures width { width_of result ≡ width }
        ensures height { height_of result ≡ height }
        ensures stride { stride_of result ≡ stride }
    {
        Img {
            buf,
            width: width as u32,
            height: height as u32,
            stride,
        }
    }

    /// The image of `width` by `height` pixels in `buf` without padding between its rows: its
    /// stride is its width.
    ///
    /// # Requires
    ///
    /// The width is at least 1, and width and height are at most `u32::MAX`: compare the numbers.
    pub fn new(buf: Container, width: usize, height: usize) -> Self
        requires width_positive { 1 ≤ width }
        requires width_bound { width < 2 ^ 32 }
        requires height_bound { height < 2 ^ 32 }
        ensures buf { buf_of result ≡ buf }
        ensures width { width_of result ≡ width }
        ensures height { height_of result ≡ height }
        ensures stride { stride_of result ≡ width }
    {
        Self::new_stride(buf, width, height, width)
    }

    /// The image of these cells in this shape. There is no condition: where there are too few
    /// cells, `is_valid` is false. (The original crate has no such call.)
    pub fn from_parts(buf: Container, shape: Shape) -> Self
        ensures buf { buf_of result ≡ buf }
        ensures shape { shape_of result ≡ shape }
        ensures width { width_of result ≡ shape_width shape }
        ensures height { height_of result ≡ shape_height shape }
        ensures stride { stride_of result ≡ shape_stride shape }
    {
        Self::new_stride(buf, shape.width(), shape.height(), shape.stride())
    }

    /// The container and the shape, taken out of the image.
    ///
    /// In code that is itself proved, take a borrowed slice out in a function that returns it. Its
    /// caller then knows that this is the slice from which the image was made, so that writes reach
    /// the buffer. Where the borrow ends in the function that took the slice out, nothing is known
    /// of the buffer.
    pub fn into_parts(self) -> (Container, Shape)
        ensures buf { result.0 ≡ buf_of self }
        ensures shape { result.1 ≡ shape_of self }
    {
        let shape = self.shape();
        (self.buf, shape)
    }

    /// The width and the height in pixels, and the stride in cells.
    pub fn shape(&self) -> Shape
        ensures { result ≡ shape_of self.now }
    {
        Shape::new(self.width as usize, self.height as usize, self.stride)
    }

    /// The number of pixels in a row.
    pub fn width(&self) -> usize
        ensures value { result ≡ width_of self.now }
        ensures holds_width { width_of self.now ≤ stride_of self.now }
        ensures bound { width_of self.now < 2 ^ 32 }
    {
        self.width as usize
    }

    /// The number of rows.
    pub fn height(&self) -> usize
        ensures value { result ≡ height_of self.now }
        ensures bound { height_of self.now < 2 ^ 32 }
    {
        self.height as usize
    }

    /// The number of cells from the start of a row to the start of the next one.
    pub fn stride(&self) -> usize
        ensures value { result ≡ stride_of self.now }
        ensures positive { 1 ≤ stride_of self.now }
        ensures holds_width { width_of self.now ≤ stride_of self.now }
        ensures bound { stride_of self.now < 2 ^ 64 }
    {
        self.stride
    }

    /// The whole container, padding included.
    pub fn buf(&self) -> &Container
        ensures { result.now ≡ buf_of self.now }
    {
        &self.buf
    }

    /// The whole container, for writing. Once the borrow ends, the image has the container that was
    /// left there, at the same size and stride. It may no longer fit; `is_valid` tests it.
    pub fn buf_mut(&mut self) -> &mut Container
        ensures value { result.now ≡ buf_of self.old }
        ensures* writes_back { sem 𝓛 (Lends (the_row Container.row) Container.row self.entry result
            (with_buf self.old)) }
    {
        &mut self.buf
    }

    /// The container, taken out of the image.
    pub fn into_buf(self) -> Container
        ensures { result ≡ buf_of self }
    {
        let (buf, _) = self.into_parts();
        buf
    }

    /// Whether the window of `width` by `height` pixels with its corner at column `left` of row
    /// `top` is inside the image. A window with no pixel may begin at the right or the lower edge.
    /// (The original crate's calls test it themselves, and panic.)
    pub fn has_window(&self, left: usize, top: usize, width: usize, height: usize) -> bool
        ensures { IsTrue result
            ↔ IsInside (width_of self.now) (height_of self.now) (window left top width height) }
    {
        self.shape()
            .has_window(Window::new(left, top, width, height))
    }
}

impl<Container: AsSlice> Img<Container> {
    ghost use Rattle.imgref.specs.Image.{layout_by};

    /// Whether the image fits: its cells reach its last pixel, or it has no pixel at all. (The
    /// original crate's calls test it themselves, and panic.)
    pub fn is_valid(&self) -> bool
        ensures { IsTrue result ↔ Fits (layout_by Container.cells self.now) }
    {
        self.shape().fits(self.buf.as_slice().len())
    }
}
