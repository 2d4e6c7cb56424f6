//! Whether edits are those of a frame, each by itself, and which isn't. Nothing here takes memory.

ghost use Rattle.std.specs.Prelude.{◌≡◌, All, IfSome, None, true};
ghost use Rattle.std.specs.List.{list_all};
ghost use Rattle.frame_edits.specs.Covers.{IsUnit, one_pixel};
ghost use Rattle.frame_formats.specs.Layers.{StandsForPixels};
ghost use Rattle.frame_formats.specs.Steps.{step_in};
ghost use Rattle.frame_formats.specs.Suits.{IsFirstBad, TellsBad, size_suits, size_suits_picture, size_suits_video, suits_picture, suits_plane, suits_planes, suits_video};

use crate::framing::resize_of;
use crate::layers::{
    Layer, change_on, picture_layers, picture_pixel, size_on, target_on, video_layers,
};
use crate::settling::step_of;
use frame_edits::{Edit, Framing, Unit, Unsuited, unit_of_picture, unit_of_video};
use frame_texts::{Format, Picture, Pixel, Rate};
use image_planes::is_inside;

// A frame: its unit and its rate, what its pixels and its planes are, and its size.
#[derive(Clone, Copy)]
struct Frame<'a> {
    unit: Unit,
    rate: Option<Rate>,
    pixel: Pixel,
    layers: &'a [Layer],
    width: usize,
    height: usize,
}

// Whether an edit is one of a plane of the frame.
fn suits_plane(frame: Frame<'_>, layer: Layer, edit: Edit) -> bool
    requires unit { IsUnit frame.unit }
    requires layer { StandsForPixels layer }
    ensures { result ≡ suits_plane frame.entry.pixel layer frame.entry.width frame.entry.height
        (step_in frame.entry.unit frame.entry.rate frame.entry.width frame.entry.height edit) }
{
    let (width, height) = (frame.width, frame.height);
    let Some(step) = step_of(frame.unit, frame.rate, width, height, edit) else {
        return false;
    };
    let (wide, high) = size_on(layer, width, height);
    match change_on(frame.pixel, layer, width, height, step.change) {
        Some(change) => is_inside(wide, high, change),
        None => false,
    }
}

// Whether an edit is one of each plane of the frame.
#[tactic(auto, using(crate::proofs::EachOne::all_more, crate::proofs::EachOne::all_stops, crate::proofs::EachOne::all_over))]
fn suits_planes(frame: Frame<'_>, edit: Edit) -> bool
    requires unit { IsUnit frame.unit }
    requires layers { All StandsForPixels frame.layers.now }
    ensures { result ≡ suits_planes frame.entry.unit frame.entry.rate frame.entry.pixel
        frame.entry.layers.now frame.entry.width frame.entry.height edit }
{
    for layer in frame.layers {
        if !suits_plane(frame, *layer, edit) {
            return false;
        }
    }
    true
}

// The first edit that isn't one of each plane of the frame.
fn find_bad(frame: Frame<'_>, edits: &[Edit]) -> Option<usize>
    requires unit { IsUnit frame.unit }
    requires layers { All StandsForPixels frame.layers.now }
    ensures first { IfSome result (IsFirstBad (suits_planes frame.entry.unit frame.entry.rate
        frame.entry.pixel frame.entry.layers.now frame.entry.width frame.entry.height) edits.now) }
    ensures none { result ≡ None → list_all (suits_planes frame.entry.unit frame.entry.rate
        frame.entry.pixel frame.entry.layers.now frame.entry.width frame.entry.height) edits.now
        ≡ true }
{
    for at in 0..edits.len() {
        if !suits_planes(frame, edits[at]) {
            return Some(at);
        }
    }
    None
}

// Whether what becomes of the size leaves a row, and is valid for each plane of the frame.
#[tactic(auto, using(crate::proofs::EachOne::all_more, crate::proofs::EachOne::all_stops, crate::proofs::EachOne::all_over))]
fn size_suits(upright: bool, frame: Frame<'_>, framing: Option<Framing>) -> bool
    requires layers { All StandsForPixels frame.layers.now }
    ensures { result ≡ size_suits upright frame.entry.pixel frame.entry.layers.now
        frame.entry.width frame.entry.height framing }
{
    let (width, height) = (frame.width, frame.height);
    let Some(framing) = framing else {
        return true;
    };
    let Some(resize) = resize_of(upright, frame.pixel, width, height, framing) else {
        return false;
    };
    if resize.height() == 0 {
        return false;
    }
    for layer in frame.layers {
        if target_on(frame.pixel, *layer, width, height, resize).is_none() {
            return false;
        }
    }
    true
}

// What isn't one of a frame.
fn find_unsuited(
    upright: bool,
    frame: Frame<'_>,
    edits: &[Edit],
    framing: Option<Framing>,
) -> Option<Unsuited>
    requires unit { IsUnit frame.unit }
    requires layers { All StandsForPixels frame.layers.now }
    ensures { TellsBad (suits_planes frame.entry.unit frame.entry.rate frame.entry.pixel
        frame.entry.layers.now frame.entry.width frame.entry.height)
        (size_suits upright frame.entry.pixel frame.entry.layers.now frame.entry.width
        frame.entry.height framing) edits.now result }
{
    if let Some(at) = find_bad(frame, edits) {
        return Some(Unsuited::Edit(at));
    }
    if size_suits(upright, frame, framing) {
        None
    } else {
        Some(Unsuited::Size)
    }
}

/// What isn't one of a video with this rate: the first such edit, or what becomes of the size. It
/// takes no memory.
pub fn unsuited_in_video(
    format: Format,
    rate: Option<Rate>,
    edits: &[Edit],
    framing: Option<Framing>,
) -> Option<Unsuited>
    ensures { TellsBad (suits_video format rate) (size_suits_video format framing) edits.now result }
{
    let frame = Frame {
        unit: unit_of_video(format),
        rate,
        pixel: format.pixel,
        layers: video_layers(format.chroma),
        width: format.width,
        height: format.height,
    };
    find_unsuited(format.is_upright(), frame, edits, framing)
}

/// The same of a picture.
pub fn unsuited_in_picture(
    picture: Picture,
    edits: &[Edit],
    framing: Option<Framing>,
) -> Option<Unsuited>
    ensures { TellsBad (suits_picture picture) (size_suits_picture picture framing) edits.now
        result }
{
    let frame = Frame {
        unit: unit_of_picture(),
        rate: None,
        pixel: picture_pixel(picture),
        layers: picture_layers(),
        width: picture.width,
        height: picture.height,
    };
    find_unsuited(true, frame, edits, framing)
}
