//! The boxes of tracks, which are kept for some frames before and after a track, and over its gaps.

ghost use Rattle.std.specs.Prelude.{◌≡◌, ◌<◌, ◌+◌, ◌∷◌, ◌++◌, length, All, Some, None, IfOk, IfErr, IsOk, OnOk};
ghost use Rattle.std.specs.List.{slice_get};
ghost use Rattle.std.specs.Option.{option_to_list};
ghost use Rattle.frame_texts.specs.Boxes.{HasBoxes, IsBox, each_box};
ghost use Rattle.frame_texts.specs.Tracks.{missing, goes_on_at, comes_at, around};
ghost use Rattle.frame_edits.specs.Holds.{kept, kept_on, filled, between, held_at, held, AreHeld};

use crate::box_covers::{BoxStyle, cover_of, put_in_order};
use crate::words::Edit;
use frame_texts::{
    Range, Tracked, WordsFault, around, comes_at, goes_on_at, missing, put_by_tracks, read_tracked,
};
use std::alloc::{AllocFailed, Global};

// The cover of a box that is kept for so many frames before its own and after it.
#[tactic(auto, using(frame_texts::proofs::BoxSizes::is_box))]
fn kept(style: BoxStyle, before: usize, after: usize, tracked: Tracked) -> Edit
    requires { IsBox 32 tracked }
    ensures { result ≡ kept style before after tracked }
{
    let frame = tracked.frame as u64;
    Edit {
        range: Range::Frames {
            first: frame.saturating_sub(1).saturating_sub(before as u64),
            end: frame.saturating_add(after as u64),
        },
        ..cover_of(style, tracked)
    }
}

// The cover of the box around two, in the frames between them.
fn between(style: BoxStyle, first: &Tracked, next: &Tracked) -> Edit
    requires first { IsBox 32 first.now }
    requires next { IsBox 32 next.now }
    ensures { result ≡ between style first.now next.now }
{
    Edit {
        range: Range::Frames {
            first: first.frame as u64,
            end: (next.frame as u64).saturating_sub(1),
        },
        ..cover_of(style, around(first, next))
    }
}

// For how many frames a box is kept on a side.
fn kept_on(hold: usize, goes: bool) -> usize
    ensures { result ≡ kept_on hold goes }
{
    if goes { 0 } else { hold }
}

// The cover of the gap after a box, where its track goes on.
fn filled(style: BoxStyle, goes: bool, boxes: &[Tracked], at: usize) -> Option<Edit>
    requires at { at < length boxes.now }
    requires tracked { All (IsBox 32) boxes.now }
    ensures { option_to_list result
        ≡ filled style goes (slice_get boxes.now at) (slice_get boxes.now (at + 1)) }
{
    if goes && boxes.len() - at > 1 && missing(&boxes[at], &boxes[at + 1]) > 0 {
        Some(between(style, &boxes[at], &boxes[at + 1]))
    } else {
        None
    }
}

/// The covers that the box at a place of a list by its tracks becomes: its own, and that of the gap
/// after it. Its own is kept for so many frames on each side where the track doesn't go on.
pub fn held_at(style: BoxStyle, hold: usize, boxes: &[Tracked], at: usize) -> (Edit, Option<Edit>)
    requires at { at < length boxes.now }
    requires tracked { All (IsBox 32) boxes.now }
    ensures { result.0 ∷ option_to_list result.1 ≡ held_at style hold boxes.now at }
{
    let goes = goes_on_at(hold, boxes, at);
    let before = kept_on(hold, comes_at(hold, boxes, at));
    let cover = kept(style, before, kept_on(hold, goes), boxes[at]);
    (cover, filled(style, goes, boxes, at))
}

// Adds what a box becomes.
fn push_held(
    covers: &mut Vec<Edit>,
    cover: Edit,
    gap: Option<Edit>,
) -> Result<(), AllocFailed<Edit>>
    ensures { OnOk result
        (covers.new.items ≡ covers.old.items ++ cover ∷ option_to_list gap) }
{
    covers.push(cover)?;
    if let Some(gap) = gap {
        covers.push(gap)?;
    }
    Ok(())
}

// What all boxes become.
fn hold_all(
    alloc: Global,
    style: BoxStyle,
    hold: usize,
    boxes: &[Tracked],
) -> Result<Vec<Edit>, AllocFailed<Edit>>
    requires { All (IsBox 32) boxes.now }
    ensures covers { IfOk result (λ covers. covers.items ≡ held style hold boxes.now) }
    ensures none { length boxes.now ≡ 0 → IsOk result }
{
    let mut covers = Vec::new(alloc);
    for at in 0..boxes.len() {
        let (cover, gap) = held_at(style, hold, boxes, at);
        push_held(&mut covers, cover, gap)?;
    }
    Ok(covers)
}

/// The covers of the boxes that the lines of a text are, as `read_boxes` reads them, with each box
/// held. For so many frames a box is kept before its track begins and after it ends. A gap of at most
/// so many frames in a track is filled by the box around both of its sides. After a longer gap the
/// track begins anew.
///
/// The boxes of a track have one identity. One with a sign or a fraction is no identity, and its box
/// is a track of its own. So is each of two boxes of one identity in one frame, on the side of the
/// other.
///
/// # Errors
///
/// `NoEdit` where a line is no box, whatever memory there is. `Memory` only where each line with a
/// word is a box, and there is one.
#[tactic(auto, using(crate::proofs::HeldEach::held_some))]
pub fn read_held(
    alloc: Global,
    text: &[u8],
    style: BoxStyle,
    hold: usize,
) -> Result<Vec<Edit>, WordsFault>
    ensures covers { IfOk result (λ covers. AreHeld style text.now hold covers.items) }
    ensures none { IfErr result (λ e. e ≡ WordsFault.NoEdit → each_box text.now ≡ None) }
    ensures memory { IfErr result (λ e. e ≡ WordsFault.Memory → HasBoxes text.now) }
{
    let mut boxes = match read_tracked(alloc, text) {
        Ok(boxes) => boxes,
        Err(fault) => return Err(fault),
    };
    if put_by_tracks(&mut boxes).is_err() {
        return Err(WordsFault::Memory);
    }
    let mut covers = match hold_all(alloc, style, hold, &boxes) {
        Ok(covers) => covers,
        Err(_) => return Err(WordsFault::Memory),
    };
    match put_in_order(&mut covers) {
        Ok(()) => Ok(covers),
        Err(_) => Err(WordsFault::Memory),
    }
}
