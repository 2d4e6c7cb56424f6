//! A hash of an image's rows, by which equal images are found again.

ghost use Rattle.std.specs.Prelude.{IsTrue, nat_eq};
ghost use Rattle.image_model.specs.Alike.{Alike};
ghost use Rattle.imgref.specs.Words.{ref_layout};

use imgref::ImgRef;
use std::hash::{DefaultHasher, Hasher};

/// Whether two images have one hash: all those of equal pixels have.
pub fn have_one_hash(first: ImgRef<'_, u8>, second: ImgRef<'_, u8>) -> bool
    ensures { Alike nat_eq (ref_layout first.entry) (ref_layout second.entry) → IsTrue result }
{
    let mut one = DefaultHasher::new();
    first.hash_rows(&mut one);
    let mut other = DefaultHasher::new();
    second.hash_rows(&mut other);
    one.finish() == other.finish()
}
