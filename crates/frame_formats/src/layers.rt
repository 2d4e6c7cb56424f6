//! The planes of a frame or a picture: what the pixels of each are, its changes, and the change of
//! its size.

ghost use Rattle.std.specs.Prelude.{◌≡◌, ◌≢◌, ◌<◌, All, map, Some, None, IfOk, IfErr};
ghost use Rattle.std.specs.Option.{option_map};
ghost use Rattle.image_planes.specs.Planes.{job_of};
ghost use Rattle.image_planes.specs.Targets.{resizing_of};
ghost use Rattle.frame_formats.specs.Layers.{StandsForPixels, picture_pixel, picture_layers, video_layers, layer_width, layer_height, across_of, down_of, opaque_resize, value_on, window_on, change_on, job_on, jobs_on, StartsOn, resizing_on, resizings_on};
ghost use Rattle.frame_formats.specs.Plan.{Tells};
ghost use Rattle.frame_formats.specs.Steps.{StartsWell, first_made, step_by};

use crate::plans::PlanFault;
use crate::samples::{count_samples, resize_of_samples, whole_samples, window_of_samples};
use crate::steps::{bytes_of, no_colour, opaque, value_in};
use frame_edits::Paint;
use frame_texts::{Chroma, Kind, Picture, Pixel, Tuples};
use image_planes::{Change, Plane, Resize, Step, Target, Value, Window};
use std::alloc::Global;

/// A plane of a frame or a picture.
#[derive(Clone, Copy)]
pub(crate) enum Layer {
    /// A pixel for each pixel of the frame.
    Pixels,
    /// One chroma sample for so many columns and rows of pixels.
    Samples(usize, usize),
    /// Alpha: how opaque each pixel of the frame is.
    Alpha,
}

const BRIGHTNESS: Layer = Layer::Pixels;

/// A pixel of a picture.
pub(crate) fn picture_pixel(picture: Picture) -> Pixel
    ensures { result ≡ picture_pixel picture }
{
    let tuples = match picture.kind {
        Kind::Plain { colour } => Tuples {
            colour,
            alpha: false,
        },
        Kind::Pam(tuples) => tuples,
    };
    Pixel {
        tuples,
        greatest: picture.greatest,
        high_first: true,
    }
}

/// The plane of a picture.
pub(crate) fn picture_layers() -> &'static [Layer]
    ensures layers { result.now ≡ picture_layers }
    ensures sound { All StandsForPixels result.now }
{
    &[BRIGHTNESS]
}

/// The planes of a video's frame: one of brightness, and two of chroma samples where there are any.
/// One of alpha may follow.
pub(crate) fn video_layers(chroma: Chroma) -> &'static [Layer]
    ensures layers { result.now ≡ video_layers chroma }
    ensures sound { All StandsForPixels result.now }
{
    match chroma {
        Chroma::Mono => &[BRIGHTNESS],
        Chroma::Small => &[BRIGHTNESS, Layer::Samples(2, 2), Layer::Samples(2, 2)],
        Chroma::Wide => &[BRIGHTNESS, Layer::Samples(2, 1), Layer::Samples(2, 1)],
        Chroma::Quarter => &[BRIGHTNESS, Layer::Samples(4, 1), Layer::Samples(4, 1)],
        Chroma::Whole => &[BRIGHTNESS, Layer::Samples(1, 1), Layer::Samples(1, 1)],
        Chroma::WholeAlpha => &[
            BRIGHTNESS,
            Layer::Samples(1, 1),
            Layer::Samples(1, 1),
            Layer::Alpha,
        ],
    }
}

// What becomes of the size of a plane of how opaque pixels are.
fn opaque_resize(pixel: Pixel, resize: Resize) -> Resize
    ensures { result ≡ opaque_resize pixel resize }
{
    match resize {
        Resize::Crop(_) | Resize::Turn { .. } => resize,
        Resize::Pad {
            left,
            top,
            width,
            height,
            value: _,
        } => Resize::Pad {
            left,
            top,
            width,
            height,
            value: opaque(pixel),
        },
    }
}

// The value of a filled pixel of the plane, where those of the frame get this one.
fn value_on(pixel: Pixel, layer: Layer, value: Value) -> Value
    ensures { result ≡ value_on pixel layer value }
{
    match layer {
        Layer::Pixels => value,
        Layer::Alpha => opaque(pixel),
        Layer::Samples(_, _) => no_colour(pixel),
    }
}

// How many columns and rows of pixels share a pixel of the plane.
fn shared_by(layer: Layer) -> (usize, usize)
    requires { StandsForPixels layer }
    ensures across { result.0 ≡ across_of layer }
    ensures down { result.1 ≡ down_of layer }
    ensures columns { 0 < result.0 }
    ensures rows { 0 < result.1 }
{
    match layer {
        Layer::Pixels | Layer::Alpha => (1, 1),
        Layer::Samples(x, y) => (x, y),
    }
}

// The window of the plane under one of a frame of this size.
fn window_on(layer: Layer, width: usize, height: usize, window: Window) -> Option<Window>
    requires { StandsForPixels layer }
    ensures { result ≡ window_on layer width height window }
{
    match layer {
        Layer::Pixels | Layer::Alpha => Some(window),
        Layer::Samples(x, y) => window_of_samples(x, y, width, height, window),
    }
}

/// What a change of the pixels of a frame of this size is to the plane. `None` for a value that these
/// pixels lack, and where edges aren't those of samples. Means are those of samples, and so are blurs.
#[tactic(auto, unfolding(crate::specs::Layers::change_on))]
pub(crate) fn change_on(
    pixel: Pixel,
    layer: Layer,
    width: usize,
    height: usize,
    change: Change<Paint>,
) -> Option<Change<Value>>
    requires { StandsForPixels layer }
    ensures { result ≡ change_on pixel layer width height change }
{
    let (x, y) = shared_by(layer);
    let bytes = bytes_of(pixel);
    match change {
        Change::Fill { window, value } => {
            let value = value_in(pixel, value)?;
            Some(Change::Fill {
                window: window_on(layer, width, height, window)?,
                value: value_on(pixel, layer, value),
            })
        }
        Change::Mosaic {
            window,
            tile_width,
            tile_height,
        } => Some(Change::Mosaic {
            window: window_on(layer, width, height, window)?,
            tile_width: whole_samples(x, tile_width)?,
            tile_height: whole_samples(y, tile_height)?,
        }),
        Change::Mean {
            window,
            tile_width,
            tile_height,
            bytes: _,
        } => Some(Change::Mean {
            window: window_on(layer, width, height, window)?,
            tile_width: whole_samples(x, tile_width)?,
            tile_height: whole_samples(y, tile_height)?,
            bytes,
        }),
        Change::Blur {
            window,
            across,
            down,
            bytes: _,
        } => Some(Change::Blur {
            window: window_on(layer, width, height, window)?,
            across: count_samples(across, x),
            down: count_samples(down, y),
            bytes,
        }),
        Change::Move { window, left, top } => {
            let under = window_on(layer, width, height, window)?;
            let goal = Window::new(left, top, window.width, window.height);
            let goal = window_on(layer, width, height, goal)?;
            Some(Change::Move {
                window: under,
                left: goal.left,
                top: goal.top,
            })
        }
        Change::Flip(axes) => Some(Change::Flip(axes)),
    }
}

/// The size of the plane in a frame of this size.
pub(crate) fn size_on(layer: Layer, width: usize, height: usize) -> (usize, usize)
    requires { StandsForPixels layer }
    ensures { result ≡ (layer_width layer width, layer_height layer height) }
{
    match layer {
        Layer::Pixels | Layer::Alpha => (width, height),
        Layer::Samples(x, y) => (count_samples(width, x), count_samples(height, y)),
    }
}

// The plane in a frame of this size, with what is done to it.
#[tactic(auto, using(crate::proofs::StepsEach::one_more, crate::proofs::StepsEach::one_stops, crate::proofs::StepsEach::step_made, crate::proofs::StepsEach::no_step, crate::proofs::StepsEach::first_more))]
fn plane_on(
    alloc: Global,
    pixel: Pixel,
    layer: Layer,
    width: usize,
    height: usize,
    steps: &[Step<Paint>],
) -> Result<Plane, PlanFault>
    requires { StandsForPixels layer }
    ensures plane { IfOk result
        (λ plane. job_on pixel layer width height steps.now ≡ Some (job_of plane)) }
    ensures fault { IfErr result (Tells (job_on pixel layer width height steps.now ≡ None)) }
    ensures memory { IfErr result (λ e. e ≡ PlanFault.Memory
        → StartsWell (step_by (change_on pixel layer width height)) steps.now) }
{
    let mut made = Vec::new(alloc);
    for step in steps {
        let change = change_on(pixel, layer, width, height, step.change);
        made.push(Step {
            first: step.first,
            end: step.end,
            change: change.ok_or(PlanFault::Outside)?,
        })?;
    }
    let (wide, high) = size_on(layer, width, height);
    let size = pixel.size();
    // A row of so many bytes is too long for any buffer, whatever the edits are.
    let greatest = u32::MAX as usize;
    if wide <= greatest && wide > greatest / size {
        return Err(PlanFault::Memory);
    }
    Plane::new(alloc, size, wide, high, made)?.ok_or(PlanFault::Outside)
}

/// The plane, with what becomes of its size where this becomes of the frame's.
pub(crate) fn target_on(
    pixel: Pixel,
    layer: Layer,
    width: usize,
    height: usize,
    resize: Resize,
) -> Option<Target>
    requires { StandsForPixels layer }
    ensures { option_map resizing_of result ≡ resizing_on pixel layer width height resize }
{
    let under = match layer {
        Layer::Pixels => resize,
        Layer::Alpha => opaque_resize(pixel, resize),
        Layer::Samples(x, y) => resize_of_samples(pixel, x, y, width, height, resize)?,
    };
    let (wide, high) = size_on(layer, width, height);
    Target::new(pixel.size(), wide, high, under)
}

/// The planes of a frame of this size, each with its changes, from steps in pixels.
pub(crate) fn planes_of(
    alloc: Global,
    pixel: Pixel,
    layers: &[Layer],
    width: usize,
    height: usize,
    steps: &[Step<Paint>],
) -> Result<Vec<Plane>, PlanFault>
    requires { All StandsForPixels layers.now }
    ensures planes { IfOk result
        (λ planes. jobs_on pixel layers.now width height steps.now ≡ Some (map job_of planes.items)) }
    ensures fault { IfErr result (Tells (jobs_on pixel layers.now width height steps.now ≡ None)) }
    ensures memory { IfErr result
        (λ e. e ≡ PlanFault.Memory → StartsOn pixel layers.now width height steps.now) }
{
    let mut planes = Vec::new(alloc);
    for layer in layers {
        planes.push(plane_on(alloc, pixel, *layer, width, height, steps)?)?;
    }
    Ok(planes)
}

/// The planes of a frame of this size, each with the change of its size.
pub(crate) fn targets_of(
    alloc: Global,
    pixel: Pixel,
    layers: &[Layer],
    width: usize,
    height: usize,
    resize: Resize,
) -> Result<Vec<Target>, PlanFault>
    requires { All StandsForPixels layers.now }
    ensures targets { IfOk result (λ targets.
        resizings_on pixel layers.now width height resize ≡ Some (map resizing_of targets.items)) }
    ensures fault { IfErr result (Tells (resizings_on pixel layers.now width height resize ≡ None)) }
    ensures memory { IfErr result (λ e. e ≡ PlanFault.Memory
        → first_made (λ layer. resizing_on pixel layer width height resize) layers.now ≢ None) }
{
    let mut targets = Vec::new(alloc);
    for layer in layers {
        let Some(target) = target_on(pixel, *layer, width, height, resize) else {
            return Err(PlanFault::Outside);
        };
        targets.push(target)?;
    }
    Ok(targets)
}
