//! Windows of windows: a path of them leads to one window of the image.

ghost use Rattle.std.specs.Prelude.{◌≡◌, ◌≤◌, IfOk};
ghost use Rattle.std.specs.Result.{result_err};
ghost use Rattle.std.specs.Borrow.{sem, follows, follows_if, Array};
ghost use Rattle.image_model.specs.Layout.{Fits, Reaches};
ghost use Rattle.image_model.specs.Windows.{IsInside, IsWithin, first_outside, with_stretch, path_window, path_stretch, whole};
ghost use Rattle.imgref.specs.Shape.{shape_width, shape_height, shape_stride};
ghost use Rattle.imgref.specs.Window.{as_window, as_path, as_stretch};
ghost use Rattle.imgref.specs.Image.{buf_of, width_of, height_of, stride_of, mut_layout, ref_layout};
ghost use Rattle.imgref_replay.specs.Path.{IsPathWindow, LeadsTo, window_name};

use imgref::{ImgRef, ImgRefMut, Shape, Stretch, Window};

/// The window that a path leads to in this size. Where a window of the path isn't inside the size
/// before it, the number of the first such window, from 0.
pub(crate) fn path_window(width: usize, height: usize, path: &[Window]) -> Result<Window, usize>
    ensures outside { result_err result ≡ first_outside width height (as_path path.now) }
    ensures window { IfOk result (λ w. as_window w ≡ path_window width height (as_path path.now)) }
    ensures inside { IfOk result (λ w. IsInside width height (as_window w)) }
{
    let mut found = Window::new(0, 0, width, height);
    for (index, window) in path.iter().enumerate() {
        if !window.is_inside(found.width, found.height) {
            return Err(index);
        }
        found = found.nested(*window);
    }
    Ok(found)
}

/// The stretch and the shape that a path leads to, window by window, in so many cells of this
/// shape. Otherwise the number of its first window outside.
fn region_at(cells: usize, shape: Shape, path: &[Window]) -> Result<(Stretch, Shape), usize>
    requires fits { Reaches cells (shape_width shape) (shape_height shape) (shape_stride shape) }
    ensures outside { result_err result
        ≡ first_outside (shape_width shape) (shape_height shape) (as_path path.now) }
    ensures region { IfOk result (λ r. LeadsTo cells shape (as_path path.now) r.0 r.1) }
    ensures inside { IfOk result (λ r. IsWithin cells (as_stretch r.0)) }
    ensures holds_width { shape_width shape ≤ shape_stride shape }
{
    // Tells that the width is within the stride.
    let _stride = shape.stride();
    let mut stretch = Stretch {
        start: 0,
        len: cells,
    };
    let mut inner = shape;
    for (index, window) in path.iter().enumerate() {
        if !window.is_inside(inner.width(), inner.height()) {
            return Err(index);
        }
        stretch = stretch.nested(inner.stretch(true, stretch.len, *window));
        inner = inner.window(*window);
    }
    Ok((stretch, inner))
}

/// The nested window that a path leads to, with the image's own cells (`path_layout`). Its corner
/// is the sum of the path's corners, and the empty path is the whole image.
///
/// # Requires
///
/// The image fits: `is_valid`.
///
/// # Errors
///
/// The number, from 0, of the first window of the path that isn't inside the size before it.
pub fn window_at<'s, T>(img: ImgRef<'s, T>, path: &[Window]) -> Result<ImgRef<'s, T>, usize>
    requires fits { Fits (ref_layout img) }
    ensures outside { result_err result
        ≡ first_outside (width_of img.entry) (height_of img.entry) (as_path path.now) }
    ensures window { IfOk result
        (λ w. IsPathWindow (ref_layout img.entry) (as_path path.now) (ref_layout w)) }
{
    let (cells, shape) = img.into_parts();
    let (stretch, inner) = region_at(cells.len(), shape, path)?;
    Ok(ImgRef::from_parts(&cells[stretch.range()], inner))
}

/// The window of `window_at` for writing, from an image that is passed by value. Once the borrow
/// ends, the image has what was left in the window's cells, and every other cell is as it was.
///
/// # Requires
///
/// The image fits: `is_valid`.
///
/// # Errors
///
/// As for `window_at`. The borrow then ends here, and no cell has changed.
pub fn into_window_at<'s, T>(
    img: ImgRefMut<'s, T>,
    path: &[Window],
) -> Result<ImgRefMut<'s, T>, usize>
    requires fits { Fits (mut_layout img) }
    ensures* hands_on { sem 𝓛 (follows_if (Array T.row 0) (Array T.row 0)
        (buf_of img.entry).ghost_name (window_name result) (with_stretch (buf_of img.entry).now
        (path_stretch (stride_of img.entry) (whole (buf_of img.entry).now) (as_path path.now)))
        (buf_of img.entry).now) }
    ensures outside { result_err result
        ≡ first_outside (width_of img.entry) (height_of img.entry) (as_path path.now) }
    ensures window { IfOk result
        (λ w. IsPathWindow (mut_layout img.entry) (as_path path.now) (mut_layout w)) }
{
    let (cells, shape) = img.into_parts();
    match region_at(cells.len(), shape, path) {
        Ok((stretch, inner)) => Ok(ImgRefMut::from_stretch(cells, stretch, inner)),
        Err(index) => Err(index),
    }
}
