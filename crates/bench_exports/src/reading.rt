//! Each call that reads, for pixels of any size.

ghost use Rattle.std.specs.Prelude.{◌<◌};
ghost use Rattle.image_model.specs.Layout.{Fits};
ghost use Rattle.image_model.specs.Rows.{joined_rows};
ghost use Rattle.imgref.specs.Clones.{ClonesEqual};
ghost use Rattle.imgref.specs.Image.{ref_layout};

use imgref::{Img, ImgRef};
use std::alloc::Global;
use std::hash::{DefaultHasher, Hash, Hasher};

// The sum of the pixels, row by row.
pub(crate) fn rows<T: Copy + Into<u64>>(image: &ImgRef<'_, T>) -> u64
    requires fits { Fits (ref_layout image.now) }
{
    let mut sum = 0u64;
    for row in image.rows() {
        for pixel in row {
            sum = sum.wrapping_add((*pixel).into());
        }
    }
    sum
}

// The sum of the pixels, by one loop over all.
pub(crate) fn pixels<T: Copy + Into<u64>>(image: &ImgRef<'_, T>) -> u64
    requires fits { Fits (ref_layout image.now) }
{
    let mut sum = 0u64;
    for pixel in image.pixels() {
        sum = sum.wrapping_add(pixel.into());
    }
    sum
}

// The sum of the pixels by their places, in a loop over the caller's own width and height.
pub(crate) fn get<T: Copy + Into<u64>>(image: &ImgRef<'_, T>, width: usize, height: usize) -> u64
    requires fits { Fits (ref_layout image.now) }
{
    let mut sum = 0u64;
    for y in 0..height {
        for x in 0..width {
            if let Some(pixel) = image.get(x, y) {
                sum = sum.wrapping_add(pixel.into());
            }
        }
    }
    sum
}

// The sum of the pixels by their places, which are tested once.
pub(crate) fn index<T: Copy + Into<u64>>(image: &ImgRef<'_, T>, width: usize, height: usize) -> u64
    requires fits { Fits (ref_layout image.now) }
{
    let mut sum = 0u64;
    if width > image.width() || height > image.height() {
        return sum;
    }
    for y in 0..height {
        for x in 0..width {
            sum = sum.wrapping_add(image[(x, y)].into());
        }
    }
    sum
}

// The sum of a window of a window, which leaves out a column and a row at each side.
pub(crate) fn nested<T: Copy + Into<u64>>(image: &ImgRef<'_, T>) -> u64
    requires fits { Fits (ref_layout image.now) }
{
    let width = image.width();
    let height = image.height();
    if width < 4 || height < 4 {
        return 0;
    }
    let outer = image.sub_image(1, 1, width - 1, height - 1);
    rows(&outer.sub_image(0, 0, width - 2, height - 2))
}

// The hash of the image.
pub(crate) fn hash<T: Hash>(image: &ImgRef<'_, T>) -> u64 {
    let mut hasher = DefaultHasher::new();
    image.hash(&mut hasher);
    hasher.finish()
}

// The joined rows in a buffer of their own, which is freed again. The result is its length.
pub(crate) fn to_contiguous_buf<T: Copy>(alloc: Global, image: &ImgRef<'_, T>) -> usize
    requires fits { Fits (ref_layout image.now) }
    requires clones_equal { ClonesEqual T.is_clone (joined_rows (ref_layout image.now)) }
{
    match image.to_contiguous_buf(alloc) {
        Ok((buf, _, _)) => buf.len(),
        Err(_) => 0,
    }
}
