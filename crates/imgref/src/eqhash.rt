//! Equality and hash of images: they depend on sizes and pixels, and never on stride or padding.

ghost use Rattle.std.specs.Prelude.{◌≡◌, ◌↔◌, ℕ, IsTrue, nat_eq};
ghost use Rattle.std.specs.List.{fold};
ghost use Rattle.image_model.specs.Alike.{Alike, is_alike};
ghost use Rattle.image_model.specs.Layout.{Layout};
ghost use Rattle.image_ops.specs.Hashing.{fed_by_rows};
ghost use Rattle.imgref.specs.Image.{layout_by, ref_layout};
ghost use Rattle.imgref.specs.Eqhash.{equal_by, equal_per, equal_equiv, equal_fed, fed_image};

use crate::containers::AsSlice;
use crate::img::{Img, ImgRef};
use image_ops::{are_equal, hash_pixels, hash_rows};
use std::hash::{Hash, Hasher};

impl<C: AsSlice> Img<C> {
    /// Whether this image and another, of any kind, are equal. They are if they have the same size,
    /// and either both fit and have equal pixels at every place, or neither fits. There is no
    /// condition. `==` is the same test for images of one kind; this call replaces the Rust crate's
    /// `==` between kinds.
    pub fn same_pixels(&self, other: ImgRef<'_, C::Item>) -> bool
    where
        C::Item: PartialEq,
        ensures value { result
            ≡ is_alike C.Item.eq (layout_by C.cells self.now) (ref_layout other.entry) }
        ensures places { IsTrue result
            ↔ Alike C.Item.eq (layout_by C.cells self.now) (ref_layout other.entry) }
    {
        let shape = self.shape();
        are_equal(self.buf.as_slice(), shape, other.buf, other.shape())
    }
}

/// Images are equal if they have the same size, and either both fit and have equal pixels at every
/// place, or neither fits. Stride, padding and length of the buffer are ignored.
impl<C: AsSlice> PartialEq for Img<C>
where
    C::Item: PartialEq,
{
    ghost eq = { equal_by C.cells C.Item.eq };

    ghost laws = { equal_per C.cells C.Item.laws };

    /// Whether the images have the same size and equal pixels at each place. An image that doesn't
    /// fit equals only one of its size that doesn't fit either.
    fn eq(&self, other: &Self) -> bool
        ensures value { result ≡ equal_by C.cells C.Item.eq self.now other.now }
        ensures places { IsTrue result
            ↔ Alike C.Item.eq (layout_by C.cells self.now) (layout_by C.cells other.now) }
    {
        are_equal(
            self.buf.as_slice(),
            self.shape(),
            other.buf.as_slice(),
            other.shape(),
        )
    }
}

impl<C: AsSlice> Eq for Img<C>
where
    C::Item: Eq,
{
    ghost laws = { equal_equiv C.cells C.Item.Eq.laws };
}

/// A hasher is fed the width and the height as `u32` and then, where the image fits, each row. So
/// equal images feed it the same.
impl<C: AsSlice> Hash for Img<C>
where
    C::Item: Hash,
{
    ghost hash_input = { fed_image C.cells C.Item.hash_input };

    ghost respects_eq = { λ x y.
        (equal_fed C.cells (record { fed = C.Item.respects_eq })).fed x y };

    fn hash<H: Hasher>(&self, state: &mut H) {
        hash_pixels(self.buf.as_slice(), self.shape(), state);
    }
}

impl<C: AsSlice<Item = u8>> Img<C> {
    /// Feeds a hasher the width and the height as `u32` and then, where the image fits, the bytes of
    /// each row by one write (`rows`). Images of equal pixels feed the same (`alike`). There is no
    /// condition. It is faster than `hash`, which feeds each pixel by itself, and gives other hashes:
    /// take one of the two for a table.
    pub fn hash_rows<H: Hasher>(&self, state: &mut H)
        ensures rows { state.new ≡ fold H.write state.old (fed_by_rows (layout_by C.cells self.now)) }
        ensures alike { (other : Layout ℕ) → Alike nat_eq other (layout_by C.cells self.now)
            → state.new ≡ fold H.write state.old (fed_by_rows other) }
    {
        hash_rows(self.buf.as_slice(), self.shape(), state);
    }
}
