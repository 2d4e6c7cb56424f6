//! Calls that change every pixel by a closure. It takes the pixel's place, or the pixel of another
//! image there. And an image made by a closure from the places of a size.

ghost use Rattle.std.specs.Prelude.{◌≡◌, ◌*◌, ◌^◌, ◌<◌, IsOk, IfOk};
ghost use Rattle.image_model.specs.Layout.{Fits, SameOutside};
ghost use Rattle.image_model.specs.ByPlace.{TakesEachPlace, HasPlaceAnswers, IsMappedByPlace, TakesBothPixels, HasZipAnswers, IsZipped, TakesPlacesOf, HasResults, IsFromPlaces};
ghost use Rattle.image_model.specs.Compaction.{least_stride};
ghost use Rattle.imgref.specs.Sources.{HasAnswersFrom, IsMappedFrom, TakesPixelsOf};
ghost use Rattle.imgref.specs.Image.{width_of, height_of, layout_by, stride_of, OnlyCellsChange, ref_layout, vec_layout};

use crate::containers::{AsMutSlice, AsSlice};
use crate::img::{Img, ImgRef, ImgVec};
use image_ops::{make_pixels, map_places, zip_pixels};
use std::alloc::{AllocError, Global};

impl<C: AsMutSlice> Img<C> {
    /// Every pixel becomes the result of `f` for its column, its row and itself, row by row and
    /// from left to right; the padding stays. (In the Rust crate this is the caller's loop over
    /// `rows_mut`.)
    ///
    /// # Requires
    ///
    /// The image fits (`is_valid`), and `f` can be called with each place and its pixel.
    pub fn map_places<'a, F: Fn(usize, usize, C::Item) -> C::Item>(&'a mut self, f: F)
    where
        C::Item: Copy + 'a,
        requires fits { Fits (layout_by C.cells self.old) }
        requires callable { TakesEachPlace (F.pre f) (layout_by C.cells self.old) }
        ensures answers { HasPlaceAnswers (F.post f) (layout_by C.cells self.old)
            (layout_by C.cells self.new) }
        ensures grid { IsMappedByPlace (F.post f) (layout_by C.cells self.old)
            (layout_by C.cells self.new) }
        ensures outside { SameOutside (layout_by C.cells self.old) (layout_by C.cells self.new) }
        ensures fits { Fits (layout_by C.cells self.new) }
        ensures container { OnlyCellsChange C.cells C.with_cells self.old self.new }
    {
        let (cells, shape) = self.all_parts_mut();
        map_places(cells, shape, &f);
    }

    /// Every pixel becomes the result of `f` for it and the pixel of `other` at its place. It goes
    /// row by row and from left to right, and the padding stays. The two strides may differ. (In the
    /// Rust crate this is the caller's loop over two iterators.)
    ///
    /// # Requires
    ///
    /// Both images fit (`is_valid`) and have the same size (`width`, `height`), and `f` can be
    /// called with the two pixels of each place.
    pub fn zip_pixels<'a, U: Copy, F: Fn(C::Item, U) -> C::Item>(
        &'a mut self,
        other: ImgRef<'_, U>,
        f: F,
    )
    where
        C::Item: Copy + 'a,
        requires fits { Fits (layout_by C.cells self.old) }
        requires other_fits { Fits (ref_layout other) }
        requires same_width { width_of other ≡ width_of self.old }
        requires same_height { height_of other ≡ height_of self.old }
        requires callable { TakesBothPixels (F.pre f) (layout_by C.cells self.old)
            (ref_layout other) }
        ensures answers { HasZipAnswers (F.post f) (layout_by C.cells self.old)
            (ref_layout other.entry) (layout_by C.cells self.new) }
        ensures grid { IsZipped (F.post f) (layout_by C.cells self.old) (ref_layout other.entry)
            (layout_by C.cells self.new) }
        ensures outside { SameOutside (layout_by C.cells self.old) (layout_by C.cells self.new) }
        ensures fits { Fits (layout_by C.cells self.new) }
        ensures container { OnlyCellsChange C.cells C.with_cells self.old self.new }
    {
        let (cells, shape) = self.all_parts_mut();
        zip_pixels(cells, shape, other.buf, other.shape(), &f);
    }

    /// Every pixel becomes the result of `f` for its column and its row, whatever it was. It goes row
    /// by row and from left to right, and the padding stays. (In the Rust crate this is the caller's
    /// loop over `rows_mut`.)
    ///
    /// # Requires
    ///
    /// The image fits (`is_valid`), and `f` can be called with each place of its size.
    pub fn fill_places<'a, F: Fn(usize, usize) -> C::Item>(&'a mut self, f: F)
    where
        C::Item: Copy + 'a,
        requires fits { Fits (layout_by C.cells self.old) }
        requires callable { TakesPlacesOf (F.pre f) (width_of self.old) (height_of self.old) }
        ensures answers { HasResults (F.post f) (width_of self.old) (height_of self.old)
            (layout_by C.cells self.new) }
        ensures grid { IsFromPlaces (F.post f) (width_of self.old) (height_of self.old)
            (layout_by C.cells self.new) }
        ensures outside { SameOutside (layout_by C.cells self.old) (layout_by C.cells self.new) }
        ensures fits { Fits (layout_by C.cells self.new) }
        ensures container { OnlyCellsChange C.cells C.with_cells self.old self.new }
    {
        self.map_places(
            |x: usize, y: usize, _old: C::Item| -> C::Item
                requires { F.pre f x y }
                ensures { F.post f x y result }
            { f(x, y) },
        );
    }

    /// Every pixel becomes the result of `f` for the pixel of `source` at its place, whatever it was.
    /// It goes row by row and from left to right, and the padding stays. The two strides may differ.
    /// (In the Rust crate this is the caller's loop over two iterators.)
    ///
    /// # Requires
    ///
    /// Both images fit (`is_valid`) and have the same size (`width`, `height`), and `f` can be called
    /// with each pixel of `source`.
    pub fn map_from<'a, U: Copy, F: Fn(U) -> C::Item>(&'a mut self, source: ImgRef<'_, U>, f: F)
    where
        C::Item: Copy + 'a,
        requires fits { Fits (layout_by C.cells self.old) }
        requires source_fits { Fits (ref_layout source) }
        requires same_width { width_of source ≡ width_of self.old }
        requires same_height { height_of source ≡ height_of self.old }
        requires callable { TakesPixelsOf (F.pre f) (ref_layout source) }
        ensures answers { HasAnswersFrom (F.post f) (ref_layout source.entry)
            (layout_by C.cells self.new) }
        ensures grid { IsMappedFrom (F.post f) (ref_layout source.entry)
            (layout_by C.cells self.new) }
        ensures outside { SameOutside (layout_by C.cells self.old) (layout_by C.cells self.new) }
        ensures fits { Fits (layout_by C.cells self.new) }
        ensures container { OnlyCellsChange C.cells C.with_cells self.old self.new }
    {
        self.zip_pixels(
            source,
            |_old: C::Item, pixel: U| -> C::Item
                requires { F.pre f pixel }
                ensures { F.post f pixel result }
            { f(pixel) },
        );
    }
}

impl<T> ImgVec<T> {
    /// The image of `width` by `height` pixels whose pixels are the results of `f` for each column
    /// and row. It goes row by row and from left to right. There is no padding: the stride is the
    /// width, or 1 for width 0. (In the Rust crate this is the caller's loop over `push`.)
    ///
    /// # Requires
    ///
    /// Width and height are at most `u32::MAX`, and `f` can be called with each place of the size:
    /// compare the numbers.
    ///
    /// # Errors
    ///
    /// Out of memory. This never happens where there is no place.
    #[tactic(auto, using(crate::proofs::Made::made_images))]
    pub fn from_places<F: Fn(usize, usize) -> T>(
        alloc: Global,
        width: usize,
        height: usize,
        f: F,
    ) -> Result<ImgVec<T>, AllocError>
        requires width_bound { width < 2 ^ 32 }
        requires height_bound { height < 2 ^ 32 }
        requires callable { TakesPlacesOf (F.pre f) width height }
        ensures answers { IfOk result (λ i. HasResults (F.post f) width height (vec_layout i)) }
        ensures grid { IfOk result (λ i. IsFromPlaces (F.post f) width height (vec_layout i)) }
        ensures width { IfOk result (λ i. width_of i ≡ width) }
        ensures height { IfOk result (λ i. height_of i ≡ height) }
        ensures stride { IfOk result (λ i. stride_of i ≡ least_stride width) }
        ensures fits { IfOk result (λ i. Fits (vec_layout i)) }
        ensures succeeds { width * height ≡ 0 → IsOk result }
    {
        let pixels = make_pixels(alloc, width, height, &f)?;
        Ok(Img::new_stride(pixels, width, height, width.max(1)))
    }
}
