//! What is known of each pixel: what a closure ensures, and the range of its type.

ghost use Rattle.std.specs.Prelude.{◌≡◌, ◌<◌, ◌^◌, ℕ, Some};
ghost use Rattle.image_model.specs.Layout.{Fits, pixel};
ghost use Rattle.image_model.specs.Ranges.{AreBelow, HoldsOfEach};
ghost use Rattle.imgref.specs.Image.{height_of, layout_by, ref_grid, ref_layout, width_of};

use crate::containers::AsSlice;
use crate::img::{Img, ImgRef};

// Calls `f` with each pixel of row `y`.
fn each_of_row<C: AsSlice, F: Fn(C::Item)>(image: &Img<C>, y: usize, f: &F)
where
    C::Item: Copy,
    requires fits { Fits (layout_by C.cells image.now) }
    requires row { y < height_of image.now }
    requires callable { F.IsAlwaysCallable f.now }
    ensures { (x : ℕ) (p : C.Item) → x < width_of image.now
        → pixel (layout_by C.cells image.now) x y ≡ Some p → F.post f.now p tt }
{
    for x in 0..image.width() {
        f(image[(x, y)]);
    }
}

impl<C: AsSlice> Img<C>
where
    C::Item: Copy,
{
    /// Calls `f` with each pixel, row by row and from left to right. What `f` ensures is then known
    /// of each pixel. (In the Rust crate this is the caller's loop over `pixels`.)
    ///
    /// # Requires
    ///
    /// The image fits (`is_valid`), and `f` can be called with any pixel.
    pub fn each_pixel<F: Fn(C::Item)>(&self, f: F)
        requires fits { Fits (layout_by C.cells self.now) }
        requires callable { F.IsAlwaysCallable f }
        ensures each { HoldsOfEach (F.post f) (layout_by C.cells self.now) }
    {
        for y in 0..self.height() {
            each_of_row(self, y, &f);
        }
    }
}

/// Lets a proof know that each pixel is below 256. Its loop over the pixels does nothing, so the
/// compiler may leave it out: no clause says so. (The original crate has no such call.)
///
/// # Requires
///
/// The image fits: `is_valid`.
#[tactic(auto, using(image_model::proofs::Ranges::each_below))]
pub fn bound_u8(image: ImgRef<'_, u8>)
    requires { Fits (ref_layout image) }
    ensures { AreBelow (2 ^ 8) (ref_grid image.entry) }
{
    image.each_pixel(
        |_pixel|
            ensures { _pixel < 2 ^ 8 }
        {},
    );
}

/// The same for pixels of two bytes: each is below 65536.
///
/// # Requires
///
/// The image fits: `is_valid`.
#[tactic(auto, using(image_model::proofs::Ranges::each_below))]
pub fn bound_u16(image: ImgRef<'_, u16>)
    requires { Fits (ref_layout image) }
    ensures { AreBelow (2 ^ 16) (ref_grid image.entry) }
{
    image.each_pixel(
        |_pixel|
            ensures { _pixel < 2 ^ 16 }
        {},
    );
}

/// The same for pixels of four bytes: each is below 2^32.
///
/// # Requires
///
/// The image fits: `is_valid`.
#[tactic(auto, using(image_model::proofs::Ranges::each_below))]
pub fn bound_u32(image: ImgRef<'_, u32>)
    requires { Fits (ref_layout image) }
    ensures { AreBelow (2 ^ 32) (ref_grid image.entry) }
{
    image.each_pixel(
        |_pixel|
            ensures { _pixel < 2 ^ 32 }
        {},
    );
}

/// The same for pixels of eight bytes: each is below 2^64.
///
/// # Requires
///
/// The image fits: `is_valid`.
#[tactic(auto, using(image_model::proofs::Ranges::each_below))]
pub fn bound_u64(image: ImgRef<'_, u64>)
    requires { Fits (ref_layout image) }
    ensures { AreBelow (2 ^ 64) (ref_grid image.entry) }
{
    image.each_pixel(
        |_pixel|
            ensures { _pixel < 2 ^ 64 }
        {},
    );
}
