//! Rows of bytes and of words that are cloned, and compared with their clones. And long and short rows
//! that are only compared.

ghost use Rattle.std.specs.Prelude.{◌≡◌};

use crate::digest::Digest;
use crate::numbers::Numbers;
use crate::request::{Fault, Size};
use image_ops::{are_equal, joined_clones};
use image_shape::Shape;
use std::alloc::Global;

// How many cells an image has at least, so that images of each width take as long.
const CELLS: usize = 65536;

// How many cells at the end of a row are none of its pixels.
const PADDING: usize = 5;

// The widths of images, in cells: some of few cells, some of whole blocks, and others.
fn widths(size: Size) -> [usize; 8] {
    match size {
        Size::Full => [7, 12, 24, 48, 256, 500, 1024, 4000],
        Size::Small => [1, 3, 7, 16, 24, 64, 128, 300],
    }
}

// The cells of an image, and its shape and that of its rows without padding.
fn shapes(width: usize) -> Option<(Shape, Shape)> {
    let rows = CELLS / width.max(1);
    let padded = Shape::checked(width, rows, width.saturating_add(PADDING))?;
    let packed = Shape::checked(width, rows, width)?;
    Some((padded, packed))
}

// Clones the rows of an image of one pixel, compares them with the clones, and returns whether they are
// equal.
fn clone_rows<T: Copy + PartialEq>(alloc: Global, pixel: T, width: usize) -> Result<bool, Fault>
    requires clones_equal { (x y : T) → T.is_clone x y → y ≡ x }
{
    let Some((padded, packed)) = shapes(width) else {
        return Err(Fault::Input);
    };
    let cells = vec![in alloc; pixel; padded.stride().saturating_mul(padded.height())]?;
    if !padded.fits(cells.len()) {
        return Err(Fault::Input);
    }
    let clones = joined_clones(alloc, &cells, padded)?;
    Ok(are_equal(&cells, padded, &clones, packed))
}

/// Clones images of each width, and compares them with their clones.
pub(crate) fn run(
    alloc: Global,
    size: Size,
    numbers: &mut Numbers,
    digest: &mut Digest,
) -> Result<(), Fault> {
    let times = match size {
        Size::Full => 16,
        Size::Small => 1,
    };
    for _ in 0..times {
        for width in widths(size) {
            let number = numbers.next();
            let (byte, word) = ((number & 255) as u8, (number & 0xffff_ffff) as u32);
            digest.add(u64::from(clone_rows(alloc, byte, width)?));
            digest.add(u64::from(clone_rows(alloc, word, width)?));
        }
    }
    Ok(())
}

// Compares two images of rows of so many pixels, so many times. All their pixels are this one.
fn compare_rows<T: Copy + PartialEq>(
    alloc: Global,
    digest: &mut Digest,
    pixel: T,
    width: usize,
    times: usize,
) -> Result<(), Fault> {
    let Some((padded, packed)) = shapes(width) else {
        return Err(Fault::Input);
    };
    let cells = vec![in alloc; pixel; padded.stride().saturating_mul(padded.height())]?;
    let others = vec![in alloc; pixel; packed.pixel_count()]?;
    for _ in 0..times {
        digest.add(u64::from(are_equal(&cells, padded, &others, packed)));
    }
    Ok(())
}

/// Compares two images of long rows of bytes, which are equal.
pub(crate) fn compare_long(
    alloc: Global,
    size: Size,
    numbers: &mut Numbers,
    digest: &mut Digest,
) -> Result<(), Fault> {
    let (width, times) = match size {
        Size::Full => (4096, 256),
        Size::Small => (300, 1),
    };
    let byte = (numbers.next() & 255) as u8;
    compare_rows(alloc, digest, byte, width, times)
}

/// Compares two images of short rows, which are equal: of bytes, of words and of pixels of three bytes.
pub(crate) fn compare_short(
    alloc: Global,
    size: Size,
    numbers: &mut Numbers,
    digest: &mut Digest,
) -> Result<(), Fault> {
    let times = match size {
        Size::Full => 16,
        Size::Small => 1,
    };
    for width in [5, 12, 24] {
        let number = numbers.next();
        let (byte, word) = ((number & 255) as u8, (number & 0xffff_ffff) as u32);
        compare_rows(alloc, digest, byte, width, times)?;
        compare_rows(alloc, digest, word, width, times)?;
        compare_rows(alloc, digest, [byte; 3], width, times)?;
    }
    Ok(())
}
