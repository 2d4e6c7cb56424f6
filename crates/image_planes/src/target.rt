//! Planes of another size, copied out of a frame.

ghost use Rattle.std.specs.Prelude.{◌≡◌, ◌<◌, ◌^◌, ◌+◌, ◌*◌, ◌%◌, length, IsTrue};
ghost use Rattle.std.specs.Option.{option_map};
ghost use Rattle.image_model.specs.Layout.{Fits};
ghost use Rattle.image_model.specs.Grid.{grid_of, patch};
ghost use Rattle.image_ops.specs.Repeated.{repeated};
ghost use Rattle.image_writes.specs.Written.{Becomes};
ghost use Rattle.image_model.specs.Rows.{grid_pixels};
ghost use Rattle.image_model.specs.Windows.{IsInside, is_inside, window_view};
ghost use Rattle.image_shape.specs.Shape.{shaped, shaped_grid, shape_width, shape_height, shape_stride};
ghost use Rattle.image_shape.specs.Window.{as_window};
ghost use Rattle.image_planes.specs.Surrounds.{bordered};
ghost use Rattle.image_planes.specs.Changes.{byte_grid, is_plane};
ghost use Rattle.image_turns.specs.Oriented.{oriented};
ghost use Rattle.image_planes.specs.Resized.{orientation_of, is_resize_of, new_width, new_height, resizing_for, resized_plane, source_len, target_len};

use crate::change::{Value, in_bytes};
use crate::plane::{is_plane, is_row};
use image_commands::Quarter;
use image_ops::{copy_pixels, copy_window, repeat_window};
use image_shape::{Shape, Window};
use image_turns::{Orientation, orient_pixels};
use image_writes::padded_part;

/// A change of the size of a plane, in pixels.
#[derive(Clone, Copy, PartialEq, Eq)]
pub enum Resize {
    /// Only the window is kept.
    Crop(Window),
    /// The whole plane is put at a corner of a plane of this size and this value.
    Pad {
        left: usize,
        top: usize,
        width: usize,
        height: usize,
        value: Value,
    },
    /// The whole plane is turned, and has this size then.
    Turn {
        quarter: Quarter,
        width: usize,
        height: usize,
    },
}

/// A plane of a frame, which is an image of pixels of some bytes without padding, and the change of
/// its size.
#[derive(Clone, Copy, PartialEq, Eq)]
pub struct Target {
    // The number of bytes of a pixel.
    size: usize,
    width: usize,
    height: usize,
    resize: Resize,
    ghost plane: { IsTrue (is_plane size width height) },
    ghost inside: { IsTrue (is_resize_of size width height resize) },
}

// The cells become the pixels of a window of the source.
#[tactic(auto, using(crate::proofs::Parts::plane_pixels))]
fn crop_plane(source: &[u8], shape: Shape, window: Window, target: &mut [u8])
    requires fits { Fits (shaped source.now shape) }
    requires wide { 0 < window.width }
    requires width_bound { window.width < 2 ^ 32 }
    requires height_bound { window.height < 2 ^ 32 }
    requires inside { IsInside (shape_width shape) (shape_height shape) (as_window window) }
    requires room { length target.old ≡ window.width * window.height }
    ensures { target.new
        ≡ grid_pixels (window_view (shaped_grid source.now shape) (as_window window)) }
{
    let (part, part_shape) = padded_part(source, shape, window);
    let packed = Shape::new(window.width, window.height, window.width);
    copy_pixels(target, packed, part, part_shape);
}

// Every row of the windows above, below, left and right of this one becomes the pattern, again and
// again.
#[tactic(auto, unfolding(image_model::specs::Grid::grid_of))]
fn fill_border(cells: &mut [u8], shape: Shape, place: Window, pattern: &[u8])
    requires fits { Fits (shaped cells.old shape) }
    requires inside { IsInside (shape_width shape) (shape_height shape) (as_window place) }
    requires some { 0 < length pattern.now }
    ensures { Becomes shape cells.old cells.new (bordered (grid_of (shaped cells.old shape))
        place.left place.top place.width place.height pattern.now) }
{
    let (width, height) = (shape.width(), shape.height());
    let (right, bottom) = place.place(place.width, place.height);
    let above = Window::new(0, 0, width, place.top);
    let below = Window::new(0, bottom, width, height - bottom);
    let before = Window::new(0, place.top, place.left, place.height);
    let after = Window::new(right, place.top, width - right, place.height);
    repeat_window(cells, shape, above, pattern);
    repeat_window(cells, shape, below, pattern);
    repeat_window(cells, shape, before, pattern);
    repeat_window(cells, shape, after, pattern);
}

// The cells become those of a grid of this size whose rows repeat the pattern, with the plane at a
// corner. The pattern goes on after the plane as if it were there.
#[tactic(auto, using(crate::proofs::Parts::plane_pixels, crate::proofs::Borders::around_image))]
fn pad_plane(
    source: &[u8],
    place: Window,
    width: usize,
    height: usize,
    pattern: &[u8],
    target: &mut [u8],
)
    requires source_whole { length source.now ≡ place.width * place.height }
    requires source_wide { 0 < place.width }
    requires wide { 0 < width }
    requires width_bound { width < 2 ^ 32 }
    requires height_bound { height < 2 ^ 32 }
    requires inside { IsInside width height (as_window place) }
    requires some { 0 < length pattern.now }
    requires whole { (place.left + place.width) % length pattern.now ≡ 0 }
    requires room { length target.old ≡ width * height }
    ensures { target.new ≡ grid_pixels (patch (repeated width height pattern.now)
        place.left place.top (byte_grid place.width place.height source.now)) }
{
    let shape = Shape::new(width, height, width);
    let source_shape = Shape::new(place.width, place.height, place.width);
    fill_border(target, shape, place, pattern);
    copy_window(target, shape, place, source, source_shape);
}

fn orientation_of(quarter: Quarter) -> Orientation
    ensures { result ≡ orientation_of quarter }
{
    match quarter {
        Quarter::Right => Orientation::Right,
        Quarter::Left => Orientation::Left,
    }
}

// The cells become the pixels of `size` bytes of the source, which has so many columns and rows of
// them, turned.
#[tactic(auto, using(crate::proofs::Parts::plane_pixels))]
fn turn_plane(
    source: &[u8],
    size: usize,
    columns: usize,
    rows: usize,
    quarter: Quarter,
    target: &mut [u8],
)
    requires some { 0 < size }
    requires few { size < 9 }
    requires wide { 0 < columns }
    requires high { 0 < rows }
    requires width { size * columns < 2 ^ 32 }
    requires height { rows < 2 ^ 32 }
    requires new_width { size * rows < 2 ^ 32 }
    requires new_height { columns < 2 ^ 32 }
    requires whole { length source.now ≡ size * columns * rows }
    requires room { length target.old ≡ size * rows * columns }
    ensures { target.new ≡ grid_pixels (oriented size (orientation_of quarter)
        (byte_grid (size * columns) rows source.now)) }
{
    let source_shape = Shape::new(size * columns, rows, size * columns);
    let shape = Shape::new(size * rows, columns, size * rows);
    let orientation = orientation_of(quarter);
    orient_pixels(
        target,
        shape,
        source,
        source_shape,
        size,
        columns,
        orientation,
    );
}

impl Resize {
    /// The number of columns afterwards.
    pub fn width(&self) -> usize
        ensures { result ≡ new_width self.now }
    {
        match self {
            Resize::Crop(window) => window.width,
            Resize::Pad { width, .. } | Resize::Turn { width, .. } => *width,
        }
    }

    /// The number of rows afterwards.
    pub fn height(&self) -> usize
        ensures { result ≡ new_height self.now }
    {
        match self {
            Resize::Crop(window) => window.height,
            Resize::Pad { height, .. } | Resize::Turn { height, .. } => *height,
        }
    }

    // Whether it is one of a plane of this size.
    fn is_of(&self, size: usize, width: usize, height: usize) -> bool
        ensures { result ≡ is_resize_of size width height self.now }
    {
        match self {
            Resize::Crop(window) => window.width > 0 && window.is_inside(width, height),
            Resize::Pad { left, top, .. } => {
                let (wide, high) = (self.width(), self.height());
                let place = Window::new(*left, *top, width, height);
                is_row(size, wide) && high <= u32::MAX as usize && place.is_inside(wide, high)
            }
            Resize::Turn { .. } => {
                let (wide, high) = (self.width(), self.height());
                wide == height && high == width && wide > 0 && is_row(size, wide)
            }
        }
    }
}

impl Target {
    // These name the type itself.
    ghost use Rattle.image_planes.specs.Targets.{resizing_of};

    /// A plane of this size, in pixels of `size` bytes, with its change. `None` where there is no
    /// such plane, the window of the change is empty or reaches outside, or the plane reaches
    /// outside its border.
    pub fn new(size: usize, width: usize, height: usize, resize: Resize) -> Option<Target>
        ensures { option_map resizing_of result ≡ resizing_for size width height resize }
    {
        if !is_plane(size, width, height) || !resize.is_of(size, width, height) {
            return None;
        }
        Some(Target {
            size,
            width,
            height,
            resize,
        })
    }

    // The size of the plane's bytes, without padding.
    #[tactic(auto, using(crate::proofs::Parts::plane_numbers))]
    fn source_shape(&self) -> Shape
        ensures width { shape_width result
            ≡ (resizing_of self.now).size * (resizing_of self.now).width }
        ensures height { shape_height result ≡ (resizing_of self.now).height }
        ensures stride { shape_stride result
            ≡ (resizing_of self.now).size * (resizing_of self.now).width }
    {
        let width = self.size * self.width;
        Shape::new(width, self.height, width)
    }

    // The same in its other size.
    #[tactic(auto, using(crate::proofs::Parts::target_numbers))]
    fn shape(&self) -> Shape
        ensures width { shape_width result
            ≡ (resizing_of self.now).size * new_width (resizing_of self.now).resize }
        ensures height { shape_height result ≡ new_height (resizing_of self.now).resize }
        ensures stride { shape_stride result
            ≡ (resizing_of self.now).size * new_width (resizing_of self.now).resize }
    {
        let width = self.size * self.resize.width();
        Shape::new(width, self.resize.height(), width)
    }

    /// The number of bytes of the plane.
    pub(crate) fn source_len(&self) -> usize
        ensures { result ≡ source_len (resizing_of self.now) }
    {
        self.source_shape().pixel_count()
    }

    /// The number of bytes of the plane in its other size.
    pub(crate) fn len(&self) -> usize
        ensures { result ≡ target_len (resizing_of self.now) }
    {
        self.shape().pixel_count()
    }

    /// Copies the plane that the source makes, in its other size, over the target.
    #[tactic(auto, using(crate::proofs::Parts::plane_numbers, crate::proofs::Parts::target_numbers, crate::proofs::Parts::turned_numbers, crate::proofs::Parts::bytes_inside, crate::proofs::Parts::ends_whole))]
    pub(crate) fn apply(&self, source: &[u8], target: &mut [u8])
        requires whole { length source.now ≡ source_len (resizing_of self.now) }
        requires room { length target.old ≡ target_len (resizing_of self.now) }
        ensures { target.new ≡ resized_plane (resizing_of self.now) source.now }
    {
        match self.resize {
            Resize::Crop(window) => {
                let shape = self.source_shape();
                crop_plane(source, shape, in_bytes(shape, self.size, window), target);
            }
            Resize::Pad {
                left,
                top,
                width,
                height,
                value,
            } => {
                let place = Window::new(left, top, self.width, self.height);
                let place = in_bytes(self.shape(), self.size, place);
                let width = self.size * width;
                pad_plane(source, place, width, height, &value[..self.size], target);
            }
            Resize::Turn { quarter, .. } => {
                turn_plane(source, self.size, self.width, self.height, quarter, target);
            }
        }
    }
}
