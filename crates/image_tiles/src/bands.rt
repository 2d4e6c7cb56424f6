//! Bands of an image for writing: of full width, several at the same time.

ghost use Rattle.std.specs.Prelude.{◌≡◌, ◌+◌, ◌-◌, ◌*◌, ◌^◌, ◌≤◌, ◌<◌, ◌++◌, length, take, drop, map, Some, All, IfSome};
ghost use Rattle.std.specs.Borrow.{sem};
ghost use Rattle.std.specs.Iterator.{YieldsFirstBy, item_count, UpTo};
ghost use Rattle.std.specs.Iterator.SizeHint.{IsWithinCount};
ghost use Rattle.image_model.specs.Layout.{Fits};
ghost use Rattle.image_model.specs.Grid.{grid_of};
ghost use Rattle.image_model.specs.Tiles.{EachPlaceInOne};
ghost use Rattle.image_model.specs.Windows.{IsInside, window_view};
ghost use Rattle.image_shape.specs.Shape.{shape_width, shape_height, shape_stride};
ghost use Rattle.imgref.specs.Image.{buf_of, width_of, height_of, stride_of, mut_grid, mut_layout};

use image_rows::cut_out;
use image_shape::{End, Shape, Spacing, tiles_along};
use imgref::ImgRefMut;
use std::iter::{ExactSizeIterator, FusedIterator};

// How bands lie in a list of cells: how their rows do, and how many rows each has.
#[derive(Clone, Copy)]
struct BandSpacing {
    rows: Spacing,
    band_height: usize,
}

// Where the first band is split off, its shape, and where the others are in the cells after it.
#[derive(Clone, Copy)]
struct Cut {
    outer: usize,
    inner: usize,
    shape: Shape,
    rest: BandSpacing,
}

impl BandSpacing {
    ghost use Rattle.image_shape.specs.declared.ends.End.TheVariants.{First};
    ghost use Rattle.image_shape.specs.Spacing.{outer_cut, inner_cut};
    ghost use Rattle.image_tiles.specs.Bands.{band_rows, behind};

    // Where the first band is cut off.
    fn cut(self) -> Cut
        requires some { 0 < self.rows.count }
        requires stride_positive { 1 ≤ self.rows.stride }
        requires holds_width { self.rows.width ≤ self.rows.stride }
        requires width_bound { self.rows.width < 2 ^ 32 }
        requires rows_fit { self.rows.count < 2 ^ 32 }
        requires band_height { 0 < self.band_height }
        requires reach { self.rows.skip
            + (self.rows.stride * (self.rows.count - 1) + self.rows.width) < 2 ^ 64 }
        ensures outer { result.outer ≡ outer_cut First (band_rows self) self.rows }
        ensures inner { result.inner ≡ inner_cut First (band_rows self) self.rows }
        ensures width { shape_width result.shape ≡ self.rows.width }
        ensures height { shape_height result.shape ≡ band_rows self }
        ensures stride { shape_stride result.shape ≡ self.rows.stride }
        ensures rest { result.rest ≡ behind self }
    {
        let rows = self.band_height.min(self.rows.count);
        let cuts = self.rows.cuts(End::First, rows);
        Cut {
            outer: cuts.outer,
            inner: cuts.inner,
            shape: Shape::new(self.rows.width, rows, self.rows.stride),
            rest: BandSpacing {
                rows: cuts.rest,
                band_height: self.band_height,
            },
        }
    }
}

/// The bands of an image for writing, from top to bottom: of full width, with `band_height` rows
/// each; the last may have fewer. The buffer of a band of `k` rows has `stride * (k - 1) + width`
/// cells. Several bands may exist at the same time. The iterator may be dropped at any point. Then
/// the bands that it has returned keep what was written in them. All other cells, padding included,
/// are as they were.
#[derive(Drop)]
pub struct BandsMut<'a, T> {
    cells: &'a mut [T],
    spacing: BandSpacing,
    ghost some: { 0 < spacing.rows.count → 0 < spacing.rows.width },
    ghost stride_positive: { 1 ≤ spacing.rows.stride },
    ghost holds_width: { spacing.rows.width ≤ spacing.rows.stride },
    ghost width_bound: { spacing.rows.width < 2 ^ 32 },
    ghost rows_fit: { spacing.rows.count < 2 ^ 32 },
    ghost high: { 0 < spacing.band_height },
    ghost fits: { 0 < spacing.rows.count → spacing.rows.skip + (spacing.rows.stride
        * (spacing.rows.count - 1) + spacing.rows.width) ≤ length cells.now },
}

impl<'a, T> BandsMut<'a, T> {
    ghost use Rattle.image_tiles.specs.Bands.{bands, band_windows, bands_left, bands_name, cells_left, spacing_left, band_spacing, hands_on, Moves};

    /// The bands of an image, of `band_height` rows each. An image with no pixel has no band.
    ///
    /// # Requires
    ///
    /// The image fits (`is_valid`), and `band_height` is positive.
    #[tactic(auto, unfolding(crate::specs::Bands::bands_left))]
    pub fn new(img: ImgRefMut<'a, T>, band_height: usize) -> BandsMut<'a, T>
        requires fits { Fits (mut_layout img) }
        requires band_height { 0 < band_height }
        ensures name { bands_name result ≡ (buf_of img.entry).ghost_name }
        ensures cells { cells_left result ≡ (buf_of img.entry).now }
        ensures spacing { spacing_left result ≡ band_spacing (width_of img.entry)
            (height_of img.entry) (stride_of img.entry) band_height }
        ensures bands { bands_left result ≡ bands (mut_layout img.entry) band_height }
        ensures fit { All Fits (bands_left result) }
        ensures views { map grid_of (bands_left result) ≡ map (window_view (mut_grid img.entry))
            (band_windows (width_of img.entry) (height_of img.entry) band_height) }
        ensures inside { All (IsInside (width_of img.entry) (height_of img.entry))
            (band_windows (width_of img.entry) (height_of img.entry) band_height) }
        ensures each_once { EachPlaceInOne (width_of img.entry) (height_of img.entry)
            (band_windows (width_of img.entry) (height_of img.entry) band_height) }
    {
        let (cells, shape) = img.into_parts();
        BandsMut {
            cells,
            spacing: BandSpacing {
                rows: Spacing::whole(shape),
                band_height,
            },
        }
    }

    /// The first band, if there is one, and the bands that are left.
    ///
    /// `step` does the same in place. Both have the clause of the final cells.
    pub fn split_first(self) -> (Option<ImgRefMut<'a, T>>, BandsMut<'a, T>)
        ensures* hands_on { sem 𝓛 (hands_on T.row self.entry result.0 result.1) }
        ensures steps { YieldsFirstBy mut_layout bands_left self.entry result.0 result.1 }
        ensures moves { Moves self.entry result.0 result.1 }
    {
        if self.spacing.rows.count == 0 {
            return (None, self);
        }
        let cut = self.spacing.cut();
        let (cells, kept) = cut_out(self.cells, End::First, cut.outer, cut.inner);
        let band = ImgRefMut::from_parts(cells, cut.shape);
        let left = BandsMut {
            cells: kept,
            spacing: cut.rest,
        };
        (Some(band), left)
    }

    /// The first band, if there is one; the others are left. The trait's `next` is this step,
    /// without the clause of the final cells.
    pub fn step(&mut self) -> Option<ImgRefMut<'a, T>>
        ensures* hands_on { sem 𝓛 (hands_on T.row self.old result self.new) }
        ensures steps { YieldsFirstBy mut_layout bands_left self.old result self.new }
        ensures moves { Moves self.old result self.new }
    {
        let (band, left) = self.take().split_first();
        *self = left;
        band
    }

    // How many bands are left.
    #[tactic(auto, using(crate::proofs::BandsLeft::counted_left))]
    fn count_left(&self) -> usize
        ensures { result ≡ length (bands_left self.now) }
    {
        tiles_along(self.spacing.rows.count, self.spacing.band_height)
    }

    // The bands that are left, which leaves none.
    fn take(&mut self) -> BandsMut<'a, T>
        ensures { result ≡ self.old }
    {
        let rows = Spacing {
            count: 0,
            ..self.spacing.rows
        };
        let spacing = BandSpacing {
            rows,
            ..self.spacing
        };
        let cells: &mut [T] = &mut [];
        std::mem::replace(self, BandsMut { cells, spacing })
    }
}

impl<'a, T> Iterator for BandsMut<'a, T> {
    type Item = ImgRefMut<'a, T>;

    ghost use Rattle.image_tiles.specs.Bands.{bands_left};

    ghost next_gives = { YieldsFirstBy mut_layout bands_left };

    ghost remaining = { item_count bands_left };

    fn next(&mut self) -> Option<ImgRefMut<'a, T>> {
        self.step()
    }

    fn size_hint(&self) -> (usize, Option<usize>)
        ensures lower { IsWithinCount result.0 (item_count bands_left self.now) }
        ensures upper { IfSome result.1 (UpTo (item_count bands_left self.now)) }
        ensures exact { (result.0 ≡ length (bands_left self.now))
            × (result.1 ≡ Some (length (bands_left self.now))) }
    {
        let left = self.count_left();
        (left, Some(left))
    }
}

impl<T> ExactSizeIterator for BandsMut<'_, T> {
    fn len(&self) -> usize {
        self.count_left()
    }
}

impl<T> FusedIterator for BandsMut<'_, T> {}
