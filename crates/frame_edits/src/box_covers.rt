//! The covers that the boxes of a tracker's list become.

ghost use Rattle.std.specs.Prelude.{◌≡◌, ◌≤◌, ◌<◌, All, IsPermutation, Some, None, IfOk, IfErr, IsOk, OnOk, length, map};
ghost use Rattle.std.specs.List.Sorted.{IsNonDecreasingBy, IsStableByKey};
ghost use Rattle.std.specs.Ordering.{nat_cmp};
ghost use Rattle.frame_texts.specs.Boxes.{HasBoxes, IsBox, TouchesExactly, each_box, window_of_box};
ghost use Rattle.frame_edits.specs.BoxCovers.{cover_of, first_of, AreCovers};

use crate::covers::with_window;
use crate::paint::Paint;
use crate::words::{Edit, Scope};
use frame_texts::{Range, Tracked, WordsFault, read_tracked, window_of_box};
use image_commands::{Change, Window};
use std::alloc::{AllocError, AllocFailed, Global};

/// What becomes of each box, and how many pixels more on each side. Without a number they are 2, and
/// at least a sample. The window of the change isn't used.
#[derive(Clone, Copy, PartialEq, Eq)]
pub struct BoxStyle {
    pub change: Change<Paint>,
    pub margin: Option<usize>,
}

impl BoxStyle {
    // This names the type itself.
    ghost use Rattle.frame_edits.specs.BoxCovers.{cover_style};

    /// A cover of this margin: black, and of no colour.
    pub fn cover(margin: Option<usize>) -> BoxStyle
        ensures { result ≡ cover_style margin }
    {
        BoxStyle {
            change: Change::Fill {
                window: Window::new(0, 0, 0, 0),
                value: Paint::Black,
            },
            margin,
        }
    }
}

/// What a box becomes, in its frame alone: the change of exactly the whole pixels that the box
/// touches, and of a margin. Columns and rows count from 2^32 before those of the frame.
pub fn cover_of(style: BoxStyle, tracked: Tracked) -> Edit
    requires { IsBox 34 tracked }
    ensures cover { result ≡ cover_of style tracked }
    ensures touched { TouchesExactly tracked (window_of_box tracked) }
{
    let number = tracked.frame as u64;
    Edit {
        range: Range::Frames {
            first: number.saturating_sub(1),
            end: number,
        },
        change: with_window(style.change, window_of_box(tracked)),
        scope: Scope::Boxed {
            margin: style.margin,
        },
    }
}

// The covers of boxes, in their order.
fn cover_all(
    alloc: Global,
    style: BoxStyle,
    boxes: &[Tracked],
) -> Result<Vec<Edit>, AllocFailed<Edit>>
    requires { All (IsBox 34) boxes.now }
    ensures covers { IfOk result (λ covers. covers.items ≡ map (cover_of style) boxes.now) }
    ensures none { length boxes.now ≡ 0 → IsOk result }
{
    let mut covers = Vec::new(alloc);
    for tracked in boxes {
        covers.push(cover_of(style, *tracked))?;
    }
    Ok(covers)
}

/// The first frame that a cover is for.
pub fn first_frame(cover: &Edit) -> u64
    ensures { result ≡ first_of cover.now }
{
    match cover.range {
        Range::Frames { first, .. } => first,
        Range::Times { from, .. } => from,
    }
}

/// Puts covers in the order of their frames, and leaves those of one frame as they are.
///
/// # Errors
///
/// No memory was found.
pub(crate) fn put_in_order(covers: &mut Vec<Edit>) -> Result<(), AllocError>
    ensures same { IsPermutation covers.old.items covers.new.items }
    ensures stable { IsStableByKey first_of nat_cmp covers.old.items covers.new.items }
    ensures in_order { OnOk result (IsNonDecreasingBy first_of covers.new.items) }
    ensures as_many { length covers.new.items ≡ length covers.old.items }
    ensures few { length covers.old.items ≤ 20 → IsOk result }
{
    covers.sort_by_key(|cover| first_frame(cover))?;
    Ok(())
}

/// The covers of the boxes that the lines of a text are, one on each line:
/// `frame,id,left,top,width,height`. Frames count from 1, and columns and rows from 0. More fields are
/// ignored. Before a field there may be spaces and tabs. Empty lines, comments and the ends of lines
/// are as in `Edits::take_lines`.
///
/// They are in the order of their frames, so that a frame passes over the blocks of others.
///
/// # Errors
///
/// `NoEdit` where a line is no box, whatever memory there is. `Memory` only where each line with a
/// word is a box, and there is one.
pub fn read_boxes(alloc: Global, text: &[u8], style: BoxStyle) -> Result<Vec<Edit>, WordsFault>
    ensures covers { IfOk result (λ covers. AreCovers style text.now covers.items) }
    ensures none { IfErr result (λ e. e ≡ WordsFault.NoEdit → each_box text.now ≡ None) }
    ensures memory { IfErr result (λ e. e ≡ WordsFault.Memory → HasBoxes text.now) }
{
    let boxes = match read_tracked(alloc, text) {
        Ok(boxes) => boxes,
        Err(fault) => return Err(fault),
    };
    let mut covers = match cover_all(alloc, style, &boxes) {
        Ok(covers) => covers,
        Err(_) => return Err(WordsFault::Memory),
    };
    match put_in_order(&mut covers) {
        Ok(()) => Ok(covers),
        Err(_) => Err(WordsFault::Memory),
    }
}
