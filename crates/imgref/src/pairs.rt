//! Images compared place by place with a closure.

ghost use Rattle.std.specs.Prelude.{MatchBool};
ghost use Rattle.image_model.specs.Layout.{Fits};
ghost use Rattle.image_ops.specs.Pairs.{TakesPlaces, AllPlacesAnswer, SomePlaceDiffers};
ghost use Rattle.imgref.specs.Image.{ref_layout};

use crate::img::{Img, ImgRef};
use image_ops::agree_at_places;

impl<'s, T> Img<&'s [T]> {
    /// Whether this image and another have the same size and `f` is true of their pixels at every
    /// place. `f` is called row by row and from left to right, up to the first place where it isn't
    /// true. This call replaces the Rust crate's `==` between two pixel types.
    ///
    /// # Requires
    ///
    /// Both images fit (`is_valid`), and `f` may be called with their pixels.
    pub fn same_pixels_by<U, F: Fn(&T, &U) -> bool>(&self, other: ImgRef<'_, U>, f: F) -> bool
        requires fits { Fits (ref_layout self.now) }
        requires other_fits { Fits (ref_layout other) }
        requires callable { TakesPlaces (F.pre f) (ref_layout self.now) (ref_layout other) }
        ensures { MatchBool result
            (AllPlacesAnswer (F.post f) (ref_layout self.now) (ref_layout other.entry))
            (SomePlaceDiffers (F.post f) (ref_layout self.now) (ref_layout other.entry)) }
    {
        let shape = self.shape();
        agree_at_places(self.buf, shape, other.buf, other.shape(), &f)
    }
}
