//! Copies of the pixels of a window: as an image of their own, or as a list.

ghost use Rattle.std.specs.Prelude.{◌≡◌, ◌↔◌, ◌*◌, max, length, IsSome, IfOk, IfSome};
ghost use Rattle.imgref.specs.Words.{Fits, IsInside, grid_pixels, as_window, window_view, width_of, height_of, stride_of, ref_grid, ref_layout, vec_grid, vec_layout};

use imgref::{ImgRef, ImgVec, Window};
use std::alloc::{AllocError, Global};

/// The pixels of a window in an image of their own, with no padding.
pub fn crop_packed(
    alloc: Global,
    image: ImgRef<'_, u8>,
    window: Window,
) -> Result<ImgVec<u8>, AllocError>
    requires fits { Fits (ref_layout image) }
    requires inside { IsInside (width_of image) (height_of image) (as_window window) }
    ensures grid { IfOk result
        (λ copy. vec_grid copy ≡ window_view (ref_grid image.entry) (as_window window)) }
    ensures stride { IfOk result (λ copy. stride_of copy ≡ max window.width 1) }
    ensures packed { IfOk result
        (λ copy. length (vec_layout copy).cells ≡ window.width * window.height) }
{
    let cells = vec![in alloc; 0u8; window.width * window.height]?;
    let mut copy = ImgVec::new_stride(cells, window.width, window.height, window.width.max(1));
    copy.copy_from(image.window(window));
    Ok(copy)
}

/// The pixels of a window, row by row; `None` where the window isn't inside the image.
pub fn crop_copy(
    alloc: Global,
    image: ImgRef<'_, u8>,
    window: Window,
) -> Result<Option<Vec<u8>>, AllocError>
    requires { Fits (ref_layout image) }
    ensures inside { IfOk result (λ copy. IsSome copy
        ↔ IsInside (width_of image.entry) (height_of image.entry) (as_window window)) }
    ensures pixels { IfOk result (λ copy. IfSome copy (λ cells.
        cells.items ≡ grid_pixels (window_view (ref_grid image.entry) (as_window window)))) }
{
    if !image.shape().has_window(window) {
        return Ok(None);
    }
    let part = image.window(window);
    let mut cells = Vec::new(alloc);
    for row in part.rows() {
        cells.extend_from_slice(row)?;
    }
    Ok(Some(cells))
}
