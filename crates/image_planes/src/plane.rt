//! A plane of a frame, and its changes.

ghost use Rattle.std.specs.Prelude.{◌≡◌, ◌<◌, ◌≤◌, ◌*◌, ◌/◌, ◌^◌, length, nat_lt, IfOk, IsTrue};
ghost use Rattle.std.specs.Option.{option_map};
ghost use Rattle.image_shape.specs.Shape.{shape_width, shape_height, shape_stride};
ghost use Rattle.image_planes.specs.Changes.{is_change_of, is_plane, are_inside, job_for, changed_plane};
ghost use Rattle.image_planes.specs.Scratch.{copy_len, sums_len, have_blur};
ghost use Rattle.image_planes.specs.Spans.{are_spans, are_groups};

use crate::change::{Step, Value, is_blur};
use crate::spans::{BLOCK, GROUP, Span, do_blocks, spans_of};
use crate::steps::all_inside;
use image_commands::Change;
use image_shape::{Shape, Window};
use std::alloc::{AllocError, Global};

/// Whether a row of so many pixels has fewer than 2^32 bytes.
pub(crate) fn is_row(size: usize, width: usize) -> bool
    ensures { result ≡ nat_lt (size * width) (2 ^ 32) }
{
    match size.checked_mul(width) {
        Some(bytes) => bytes <= u32::MAX as usize,
        None => false,
    }
}

/// Whether pixels of so many bytes make a plane of this size.
pub(crate) fn is_plane(size: usize, width: usize, height: usize) -> bool
    ensures { result ≡ is_plane size width height }
{
    size > 0 && size < 9 && width > 0 && is_row(size, width) && height <= u32::MAX as usize
}

/// A plane of a frame, which is an image of pixels of some bytes without padding, and its changes.
#[derive(Drop)]
pub struct Plane {
    // The number of bytes of a pixel.
    size: usize,
    width: usize,
    height: usize,
    steps: Vec<Step<Value>>,
    spans: Vec<Span>,
    groups: Vec<Span>,
    ghost plane: { IsTrue (is_plane size width height) },
    ghost inside: { IsTrue (are_inside width height steps.items) },
    ghost blocks: { IsTrue (are_spans spans.items steps.items) },
    ghost grouped: { IsTrue (are_groups groups.items steps.items) },
}

impl Plane {
    // These name the type itself.
    ghost use Rattle.image_planes.specs.Planes.{job_of, plane_len};

    /// A plane of this size, in pixels of `size` bytes, with its changes, one step after the other.
    /// `None` where there is no such plane, or a step reaches outside it.
    pub fn new(
        alloc: Global,
        size: usize,
        width: usize,
        height: usize,
        steps: Vec<Step<Value>>,
    ) -> Result<Option<Plane>, AllocError>
        ensures { IfOk result
            (λ plane. option_map job_of plane ≡ job_for size width height steps.items) }
    {
        if !is_plane(size, width, height) || !all_inside(width, height, &steps) {
            return Ok(None);
        }
        let spans = spans_of(alloc, &steps, BLOCK)?;
        let groups = spans_of(alloc, &steps, GROUP)?;
        Ok(Some(Plane {
            size,
            width,
            height,
            steps,
            spans,
            groups,
        }))
    }

    // The size of its bytes, without padding.
    #[tactic(auto, using(crate::proofs::Parts::plane_numbers, crate::proofs::Parts::whole_pixels, crate::proofs::Parts::in_whole_pixels))]
    fn shape(&self) -> Shape
        ensures width { shape_width result ≡ (job_of self.now).size * (job_of self.now).width }
        ensures height { shape_height result ≡ (job_of self.now).height }
        ensures stride { shape_stride result ≡ (job_of self.now).size * (job_of self.now).width }
        ensures pixels { shape_width result / (job_of self.now).size ≡ (job_of self.now).width }
        ensures whole { shape_width result
            ≡ shape_width result / (job_of self.now).size * (job_of self.now).size }
        ensures some { 0 < (job_of self.now).size }
        ensures few { (job_of self.now).size < 9 }
    {
        let width = self.size * self.width;
        Shape::new(width, self.height, width)
    }

    /// The number of its bytes.
    pub fn len(&self) -> usize
        ensures { result ≡ plane_len self.now }
    {
        self.shape().pixel_count()
    }

    // Whether one of its steps is a blur.
    fn has_blur(&self) -> bool
        ensures { result ≡ have_blur (job_of self.now).steps }
    {
        self.steps.iter().any(|step| is_blur(step.change))
    }

    /// The number of bytes of the copy that its blurs need.
    pub(crate) fn copy_len(&self) -> usize
        ensures { result ≡ copy_len (job_of self.now) }
    {
        if self.has_blur() { self.len() } else { 0 }
    }

    /// The number of sums that its blurs need.
    pub(crate) fn sums_len(&self) -> usize
        ensures { result ≡ sums_len (job_of self.now) }
    {
        if self.has_blur() {
            self.shape().width()
        } else {
            0
        }
    }

    /// Applies the steps for the frame of this number to the plane that these bytes make. What the
    /// copy and the sums had is lost.
    #[tactic(auto, using(crate::proofs::Parts::plane_pixels))]
    pub(crate) fn apply(&self, number: u64, cells: &mut [u8], copy: &mut [u8], sums: &mut [u32])
        requires whole { length cells.old ≡ plane_len self.now }
        requires copy { copy_len (job_of self.now) ≤ length copy.old }
        requires sums { sums_len (job_of self.now) ≤ length sums.old }
        ensures { cells.new ≡ changed_plane number (job_of self.now) cells.old }
    {
        do_blocks(
            cells,
            self.shape(),
            self.size,
            &self.steps,
            &self.spans,
            &self.groups,
            number,
            copy,
            sums,
        );
    }
}

/// Whether a change is valid for so many pixels.
pub fn is_inside(width: usize, height: usize, change: Change<Value>) -> bool
    ensures { result ≡ is_change_of width height change }
{
    match change {
        Change::Fill { window, value: _ } => window.is_inside(width, height),
        Change::Mosaic {
            window,
            tile_width,
            tile_height,
        }
        | Change::Mean {
            window,
            tile_width,
            tile_height,
            bytes: _,
        } => tile_width > 0 && tile_height > 0 && window.is_inside(width, height),
        Change::Blur {
            window,
            across,
            down,
            bytes: _,
        } => across < 32768 && down < 32768 && window.is_inside(width, height),
        Change::Move { window, left, top } => {
            let target = Window::new(left, top, window.width, window.height);
            window.is_inside(width, height) && target.is_inside(width, height)
        }
        Change::Flip(_) => true,
    }
}
