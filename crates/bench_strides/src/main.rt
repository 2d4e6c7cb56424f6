//! One turn of a square image of zeros, whose misses in the cache `.ci/checks/built/strides.py`
//! counts.
//!
//! Its words are what to do, the bytes of a pixel, the side in pixels, and the bytes from a row to
//! the next one. It prints the number of pixels.
#![tactic(auto)]

ghost use Rattle.std.specs.Prelude.{◌≡◌, IfOk};
ghost use Rattle.image_model.specs.Layout.{Fits};
ghost use Rattle.imgref.specs.Image.{width_of, height_of, vec_layout};

use imgref::{ImgVec, Turn};
use std::alloc::{AllocError, Global};
use std::env;
use std::process::ExitCode;

// Why nothing was turned.
#[derive(Drop)]
enum Fault {
    Words,
    Memory,
}

impl From<AllocError> for Fault {
    fn from(_e: AllocError) -> Fault {
        Fault::Memory
    }
}

// What the words say.
#[derive(Drop)]
struct Words {
    action: String,
    pixel: usize,
    side: usize,
    stride: usize,
}

fn read_words(rt: &HostRuntime) -> Result<Words, Fault> {
    let Ok(mut words) = env::args(rt) else {
        return Err(Fault::Words);
    };
    let (Some(_), Some(action), Some(pixel), Some(side), Some(stride)) = (
        words.next(),
        words.next(),
        words.next(),
        words.next(),
        words.next(),
    ) else {
        return Err(Fault::Words);
    };
    Ok(Words {
        action,
        pixel: pixel.parse().ok().ok_or(Fault::Words)?,
        side: side.parse().ok().ok_or(Fault::Words)?,
        stride: stride.parse().ok().ok_or(Fault::Words)?,
    })
}

// A square whose pixels are all the same.
fn square<T: Copy>(alloc: Global, pixel: T, side: usize, stride: usize) -> Result<ImgVec<T>, Fault>
    ensures fits { IfOk result (λ image. Fits (vec_layout image)) }
    ensures width { IfOk result (λ image. width_of image ≡ side) }
    ensures height { IfOk result (λ image. height_of image ≡ side) }
{
    if stride == 0 || side > stride || stride > 65536 {
        return Err(Fault::Words);
    }
    let cells = vec![in alloc; pixel; stride * side]?;
    let image = ImgVec::new_stride(cells, side, side, stride);
    if !image.is_valid() {
        return Err(Fault::Words);
    }
    Ok(image)
}

// Does what is asked to pixels like this one. `make` alone makes both images.
fn act<T: Copy>(alloc: Global, pixel: T, words: &Words) -> Result<(), Fault> {
    let stride = words.stride / words.pixel.max(1);
    let mut image = square(alloc, pixel, words.side, stride)?;
    let mut target = square(alloc, pixel, words.side, stride)?;
    match words.action.as_str() {
        "make" => (),
        "right" => image.turn_into(&mut target, Turn::Right),
        "left" => image.turn_into(&mut target, Turn::Left),
        "across" => image.transpose_into(&mut target),
        "across-in-place" => image.transpose(),
        "right-in-place" => image.turn(Turn::Right),
        _ => return Err(Fault::Words),
    }
    Ok(())
}

fn run(rt: &HostRuntime) -> Result<usize, Fault> {
    let words = read_words(rt)?;
    match words.pixel {
        1 => act(rt.alloc(), 0u8, &words)?,
        2 => act(rt.alloc(), 0u16, &words)?,
        3 => act(rt.alloc(), [0u8; 3], &words)?,
        4 => act(rt.alloc(), 0u32, &words)?,
        8 => act(rt.alloc(), 0u64, &words)?,
        16 => act(rt.alloc(), [0u64; 2], &words)?,
        _ => return Err(Fault::Words),
    }
    Ok(words.side.wrapping_mul(words.side))
}

fn main(rt: HostRuntime) -> ExitCode {
    let printed = match run(&rt) {
        Ok(pixels) => println!(rt; "{pixels}"),
        Err(Fault::Words) => println!(rt;
            "words: what to do, bytes of a pixel, side, bytes of a row"
        ),
        Err(Fault::Memory) => println!(rt; "out of memory"),
    };
    match printed {
        Ok(()) => ExitCode::SUCCESS,
        Err(_) => ExitCode::FAILURE,
    }
}
