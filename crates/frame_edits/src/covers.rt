//! What a cover is in a frame: a fill of whole samples, with a margin.

ghost use Rattle.std.specs.Prelude.{◌≡◌, ◌<◌, ◌+◌, ◌-◌, min, Some, None};
ghost use Rattle.frame_edits.specs.Covers.{IsUnit, chroma_unit, video_unit, margin_of, cover_start, cover_count, window_from, box_window, changes_nothing, covers_nothing, frames_for, has_no_pixel, one_pixel, settled, settled_by, drawn, KeepsMargin, turns_over, up_to, window_of, with_window};

use crate::paint::Paint;
use crate::words::{Edit, Scope};
use frame_texts::{BEFORE, Chroma, Format, Picture, Rate};
use image_commands::{Axes, Change, Window};

/// How many columns and rows of pixels share a sample, of both fields where there are two.
#[derive(Clone, Copy, PartialEq, Eq)]
pub struct Unit {
    pub across: usize,
    pub down: usize,
    /// Whether there are two fields.
    pub interlaced: bool,
}

fn unit_of_chroma(chroma: Chroma) -> Unit
    ensures unit { result ≡ chroma_unit chroma }
    ensures sound { IsUnit result }
    ensures small { result.down < 3 }
{
    let (across, down) = chroma.sampling();
    Unit {
        across,
        down,
        interlaced: false,
    }
}

/// The unit of a video, in whose whole numbers a cover goes.
pub fn unit_of_video(format: Format) -> Unit
    ensures unit { result ≡ video_unit format }
    ensures sound { IsUnit result }
{
    let unit = unit_of_chroma(format.chroma);
    if format.interlaced {
        Unit {
            across: unit.across,
            down: 2 * unit.down,
            interlaced: true,
        }
    } else {
        unit
    }
}

// Where a cover ends that has so many pixels and a margin, at most at this number of pixels.
fn end_of(before: usize, more: usize, pixels: usize, start: usize, count: usize) -> usize
    ensures { result ≡ min pixels (start + count + more - before) }
{
    let end = (start as u128 + count as u128 + more as u128).saturating_sub(before as u128);
    if end < pixels as u128 {
        end as usize
    } else {
        pixels
    }
}

// The same up to the end of a sample, which has so many pixels.
fn sample_end(
    step: usize,
    before: usize,
    more: usize,
    pixels: usize,
    start: usize,
    count: usize,
) -> usize
    requires { 0 < step }
    ensures { result ≡ min pixels (up_to step (start + count + more - before)) }
{
    let end = end_of(before, more, pixels, start, count);
    if pixels <= end {
        return pixels;
    }
    let over = end % step;
    if over == 0 {
        return end;
    }
    let gap = step - over;
    if pixels - end <= gap {
        pixels
    } else {
        end + gap
    }
}

// The margin of a cover: the one that is named, or else two pixels, and at least a sample.
fn margin_of(margin: Option<usize>, step: usize) -> usize
    ensures { result ≡ margin_of margin step }
{
    margin.unwrap_or(step.max(2))
}

// Where a cover begins in one direction, and how many pixels it has, of so many. Its numbers count
// from so many pixels before the frame.
fn cover_of(
    step: usize,
    margin: Option<usize>,
    before: usize,
    pixels: usize,
    start: usize,
    count: usize,
) -> (usize, usize)
    requires { 0 < step }
    ensures start { result.0 ≡ cover_start step (margin_of margin step) before pixels start }
    ensures count { result.1
        ≡ cover_count step (margin_of margin step) before pixels start count }
{
    let more = margin_of(margin, step);
    let from = start.saturating_sub(more).saturating_sub(before);
    if pixels <= from {
        return (0, 0);
    }
    let first = from - from % step;
    if count == 0 && more == 0 {
        return (first, 0);
    }
    let end = sample_end(step, before, more, pixels, start, count);
    (first, end - first)
}

fn window_from(
    before: usize,
    unit: Unit,
    margin: Option<usize>,
    width: usize,
    height: usize,
    window: Window,
) -> Window
    requires { IsUnit unit }
    ensures { result ≡ window_from before unit margin width height window }
{
    let (left, wide) = cover_of(
        unit.across,
        margin,
        before,
        width,
        window.left,
        window.width,
    );
    let (top, high) = cover_of(unit.down, margin, before, height, window.top, window.height);
    Window::new(left, top, wide, high)
}

fn settle(unit: Unit, width: usize, height: usize, change: Change<Paint>) -> Change<Paint>
    requires { IsUnit unit }
    ensures { result ≡ settled unit width height change }
{
    match change {
        Change::Fill {
            window,
            value: Paint::Around { value, margin },
        } => Change::Fill {
            window: window_from(0, unit, margin, width, height, window),
            value: match value {
                Some(value) => Paint::Grey(value),
                None => Paint::Black,
            },
        },
        _ => change,
    }
}

/// Whether a change puts rows of one field where those of the other were.
pub fn turns_over(change: Change<Paint>) -> bool
    ensures { result ≡ turns_over change }
{
    matches!(change, Change::Flip(Axes::Rows | Axes::Both))
}

fn has_no_pixel(window: Window) -> bool
    ensures { result ≡ has_no_pixel window }
{
    window.width == 0 || window.height == 0
}

// Whether a change is a cover that covers no pixel of a frame of this size.
fn covers_nothing(unit: Unit, width: usize, height: usize, change: Change<Paint>) -> bool
    requires { IsUnit unit }
    ensures { result ≡ covers_nothing unit width height change }
{
    match change {
        Change::Fill {
            window,
            value: Paint::Around { margin, .. },
        } => has_no_pixel(window_from(0, unit, margin, width, height, window)),
        _ => false,
    }
}

// The window of a change. A flip has none.
fn window_of(change: Change<Paint>) -> Window
    ensures { result ≡ window_of change }
{
    match change {
        Change::Fill { window, .. }
        | Change::Mosaic { window, .. }
        | Change::Mean { window, .. }
        | Change::Blur { window, .. }
        | Change::Move { window, .. } => window,
        Change::Flip(_) => Window::new(0, 0, 0, 0),
    }
}

// The same change of another window.
pub(crate) fn with_window(change: Change<Paint>, window: Window) -> Change<Paint>
    ensures { result ≡ with_window change window }
{
    match change {
        Change::Fill { value, .. } => Change::Fill { window, value },
        Change::Mosaic {
            tile_width,
            tile_height,
            ..
        } => Change::Mosaic {
            window,
            tile_width,
            tile_height,
        },
        Change::Mean {
            tile_width,
            tile_height,
            bytes,
            ..
        } => Change::Mean {
            window,
            tile_width,
            tile_height,
            bytes,
        },
        Change::Blur {
            across,
            down,
            bytes,
            ..
        } => Change::Blur {
            window,
            across,
            down,
            bytes,
        },
        Change::Move { left, top, .. } => Change::Move { window, left, top },
        Change::Flip(axes) => Change::Flip(axes),
    }
}

// The window of a box in a frame of this size, with its margin.
fn box_window(
    unit: Unit,
    margin: Option<usize>,
    width: usize,
    height: usize,
    change: Change<Paint>,
) -> Window
    requires { IsUnit unit }
    ensures { result ≡ box_window unit margin width height (window_of change) }
{
    window_from(BEFORE, unit, margin, width, height, window_of(change))
}

/// The change of an edit in a frame of this size.
pub fn settle_edit(unit: Unit, width: usize, height: usize, edit: Edit) -> Change<Paint>
    requires { IsUnit unit }
    ensures { result ≡ settled_by edit.scope unit width height edit.change }
{
    match edit.scope {
        Scope::Exact => settle(unit, width, height, edit.change),
        Scope::Boxed { margin } => {
            let window = box_window(unit, margin, width, height, edit.change);
            with_window(edit.change, window)
        }
    }
}

// Whether an edit is a cover or a box that has no pixel of a frame of this size.
fn changes_nothing(unit: Unit, width: usize, height: usize, edit: Edit) -> bool
    requires { IsUnit unit }
    ensures { result ≡ changes_nothing unit width height edit }
{
    match edit.scope {
        Scope::Exact => covers_nothing(unit, width, height, edit.change),
        Scope::Boxed { margin } => {
            has_no_pixel(box_window(unit, margin, width, height, edit.change))
        }
    }
}

/// Whether an edit is a cover, or a box of a list, that has no pixel of a frame of a video. Then it
/// is outside, or its size and its margin are 0.
pub fn video_covers_nothing(format: Format, edit: Edit) -> bool
    ensures { result ≡ changes_nothing (video_unit format) format.width format.height edit }
{
    changes_nothing(unit_of_video(format), format.width, format.height, edit)
}

/// The unit of a picture, whose pixels have their colours themselves.
pub fn unit_of_picture() -> Unit
    ensures unit { result ≡ one_pixel }
    ensures sound { IsUnit result }
{
    Unit {
        across: 1,
        down: 1,
        interlaced: false,
    }
}

/// The same of a picture.
pub fn picture_covers_nothing(picture: Picture, edit: Edit) -> bool
    ensures { result ≡ changes_nothing one_pixel picture.width picture.height edit }
{
    changes_nothing(unit_of_picture(), picture.width, picture.height, edit)
}

// The rectangle that an edit changes in a frame of this size.
fn drawn(unit: Unit, width: usize, height: usize, edit: Edit) -> Window
    requires { IsUnit unit }
    ensures drawn { result ≡ drawn unit width height edit }
    ensures margin { KeepsMargin unit width height edit result }
{
    match edit.scope {
        Scope::Exact => window_of(settle(unit, width, height, edit.change)),
        Scope::Boxed { margin } => box_window(unit, margin, width, height, edit.change),
    }
}

/// The rectangle that an edit changes in a frame of a video. That of a cover or a box has each pixel
/// of its margin, which is the same on all sides. Of a flip it is no pixel.
pub fn video_window(format: Format, edit: Edit) -> Window
    ensures drawn { result ≡ drawn (video_unit format) format.width format.height edit }
    ensures margin { KeepsMargin (video_unit format) format.width format.height edit result }
{
    drawn(unit_of_video(format), format.width, format.height, edit)
}

/// The same of a picture.
pub fn picture_window(picture: Picture, edit: Edit) -> Window
    ensures drawn { result ≡ drawn one_pixel picture.width picture.height edit }
    ensures margin { KeepsMargin one_pixel picture.width picture.height edit result }
{
    drawn(unit_of_picture(), picture.width, picture.height, edit)
}

/// The frames of an edit, where it doesn't exchange the fields of an interlaced video.
pub fn frames_of(unit: Unit, rate: Option<Rate>, edit: Edit) -> Option<(u64, u64)>
    ensures { result ≡ frames_for unit rate edit }
{
    if unit.interlaced && turns_over(edit.change) {
        return None;
    }
    edit.range.frames(rate)
}
