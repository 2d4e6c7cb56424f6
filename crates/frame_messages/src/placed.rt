//! Where the output has a rectangle of a frame.

ghost use Rattle.std.specs.Prelude.{◌≡◌, ◌-◌, ℕ};
ghost use Rattle.frame_messages.specs.Placed.{common, cropped_in, flipped_in, framed_in, turned_in};

use frame_edits::Framing;
use image_commands::{Axes, Quarter, Window};

// Where a stretch of pixels begins, counted from the other end of a row or a column of so many.
fn from_end(start: usize, count: usize, len: usize) -> usize
    ensures { result ≡ len - start - count }
{
    len.saturating_sub(start).saturating_sub(count)
}

/// Where a rectangle is once a frame of this size is flipped.
pub(crate) fn flipped(window: Window, axes: Axes, size: (usize, usize)) -> Window
    ensures { result ≡ flipped_in axes size window }
{
    let left = match axes {
        Axes::Rows => window.left,
        Axes::Columns | Axes::Both => from_end(window.left, window.width, size.0),
    };
    let top = match axes {
        Axes::Columns => window.top,
        Axes::Rows | Axes::Both => from_end(window.top, window.height, size.1),
    };
    Window {
        left,
        top,
        width: window.width,
        height: window.height,
    }
}

// How many of so many pixels from a place on are among others, by where these begin and how many
// they are.
fn common(start: usize, count: usize, other: usize, len: usize) -> usize
    ensures { result ≡ common start count other len }
{
    let before = count.saturating_sub(other.saturating_sub(start));
    before.min(len.saturating_sub(start.saturating_sub(other)))
}

// The part of a rectangle that a crop keeps.
fn cropped(window: Window, kept: Window) -> Window
    ensures { result ≡ cropped_in kept window }
{
    Window {
        left: window.left.saturating_sub(kept.left),
        top: window.top.saturating_sub(kept.top),
        width: common(window.left, window.width, kept.left, kept.width),
        height: common(window.top, window.height, kept.top, kept.height),
    }
}

// Where a rectangle is once a frame of this size is turned by a quarter.
fn turned(window: Window, quarter: Quarter, size: (usize, usize)) -> Window
    ensures { result ≡ turned_in quarter size window }
{
    let (left, top) = match quarter {
        Quarter::Right => (from_end(window.top, window.height, size.1), window.left),
        Quarter::Left => (window.top, from_end(window.left, window.width, size.0)),
    };
    Window {
        left,
        top,
        width: window.height,
        height: window.width,
    }
}

/// Where a rectangle is once a frame of this size is cropped, gets a border or is turned.
pub(crate) fn framed(window: Window, framing: Option<Framing>, size: (usize, usize)) -> Window
    ensures { result ≡ framed_in framing size window }
{
    match framing {
        None => window,
        Some(Framing::Crop(kept)) => cropped(window, kept),
        Some(Framing::Pad { left, top, .. }) => Window {
            left: window.left.saturating_add(left),
            top: window.top.saturating_add(top),
            width: window.width,
            height: window.height,
        },
        Some(Framing::Turn(quarter)) => turned(window, quarter, size),
    }
}
