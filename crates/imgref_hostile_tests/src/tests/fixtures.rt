//! What the image of nine cells has at its places and in its windows, its rows, and cells
//! without size.

use imgref::{AsMutSlice, Img, ImgRef, ImgRefMut, ImgVec, Window};
use imgref_fixtures::numbers_of;
use std::alloc::{AllocError, Global};
use std::process::Abort;

// Nine cells without size.
pub const UNITS: [(); 9] = [(); 9];

// Three by two of them, with one cell of padding after each row.
pub fn units(alloc: Global) -> Result<ImgVec<()>, AllocError> {
    Ok(Img::new_stride(UNITS.to_vec(alloc)?, 3, 2, 4))
}

// The pixel of a place of that image.
pub fn pixel_at(x: usize, y: usize) -> Option<u8> {
    match (x, y) {
        (0, 0) => Some(1),
        (1, 0) => Some(2),
        (2, 0) => Some(3),
        (0, 1) => Some(5),
        (1, 1) => Some(6),
        (2, 1) => Some(7),
        _ => None,
    }
}

// A window of an image, for writing.
pub fn window_mut<'a, C: AsMutSlice<Item = u8>>(
    rt: &impl Abort,
    image: &'a mut Img<C>,
    window: Window,
) -> ImgRefMut<'a, u8> {
    let (left, top, width, height) = numbers_of(window);
    assert!(rt; image.is_valid() && image.has_window(left, top, width, height));
    image.sub_image_mut(left, top, width, height)
}

// Whether the rows of an image are joined to these.
pub fn is_joined(alloc: Global, image: ImgRef<'_, u8>, due: &[u8]) -> Result<bool, AllocError> {
    if !image.is_valid() {
        return Ok(false);
    }
    let (joined, _, _) = image.to_contiguous_buf(alloc)?;
    Ok(joined.as_ref() == due)
}

// Which cells a window has.
#[derive(Clone, Copy)]
pub struct Cells {
    pub first: usize,
    // Those to its last pixel, and those of its whole strides where they are there.
    pub exact: usize,
    pub padded: usize,
}

// The windows with a pixel by their numbers, with the first cell and both numbers of cells.
pub const STRETCHES: [((usize, usize, usize, usize), usize, usize, usize); 18] = [
    ((0, 0, 1, 1), 0, 1, 4),
    ((1, 0, 1, 1), 1, 1, 4),
    ((2, 0, 1, 1), 2, 1, 4),
    ((0, 0, 2, 1), 0, 2, 4),
    ((1, 0, 2, 1), 1, 2, 4),
    ((0, 0, 3, 1), 0, 3, 4),
    ((0, 1, 1, 1), 4, 1, 4),
    ((1, 1, 1, 1), 5, 1, 4),
    ((2, 1, 1, 1), 6, 1, 1),
    ((0, 1, 2, 1), 4, 2, 4),
    ((1, 1, 2, 1), 5, 2, 4),
    ((0, 1, 3, 1), 4, 3, 4),
    ((0, 0, 1, 2), 0, 5, 8),
    ((1, 0, 1, 2), 1, 5, 8),
    ((2, 0, 1, 2), 2, 5, 5),
    ((0, 0, 2, 2), 0, 6, 8),
    ((1, 0, 2, 2), 1, 6, 8),
    ((0, 0, 3, 2), 0, 7, 8),
];

// The cells of a window inside that image: none, where it has no pixel.
pub fn cells_of(window: Window) -> Cells {
    for (numbers, first, exact, padded) in STRETCHES {
        if numbers == numbers_of(window) {
            return Cells {
                first,
                exact,
                padded,
            };
        }
    }
    Cells {
        first: 0,
        exact: 0,
        padded: 0,
    }
}
