//! Times one call on images of few columns. `bench/widths` compares the times of two builds.
//!
//! Its words are a call, the bytes of a pixel, the number of rows, and the first and the last number
//! of columns. Then come how many calls are timed at once, and how often. It prints a line for each
//! width and padding: the call, the bytes, the columns and the padding in pixels. The last word is
//! the least time of a call in picoseconds.
#![tactic(auto)]

ghost use Rattle.std.specs.Prelude.{◌≡◌};

use image_ops::{are_equal, copy_pixels, fill_pixels, joined_clones};
use image_shape::{Shape, Window};
use row_mover::{join_rows, move_pixels};
use std::alloc::{AllocError, AllocFailed, Global};
use std::process::ExitCode;
use std::time::Instant;
use std::{env, io};

// Why nothing was timed.
#[derive(Drop)]
enum Fault {
    Help,
    Words,
    Memory,
    Device,
}

impl From<AllocError> for Fault {
    fn from(_e: AllocError) -> Fault {
        Fault::Memory
    }
}

impl From<AllocFailed<()>> for Fault {
    fn from(_e: AllocFailed<()>) -> Fault {
        Fault::Memory
    }
}

impl From<io::Error> for Fault {
    fn from(_e: io::Error) -> Fault {
        Fault::Device
    }
}

// A call that is timed.
#[derive(Clone, Copy)]
enum Call {
    Fill,
    Copy,
    Right,
    Down,
    Equal,
    Pack,
    Clones,
}

// What the words say.
#[derive(Drop)]
struct Words {
    name: String,
    call: Call,
    pixel: usize,
    rows: usize,
    first: usize,
    last: usize,
    calls: u32,
    rounds: u32,
}

fn read_call(word: &str) -> Result<Call, Fault> {
    match word {
        "fill" => Ok(Call::Fill),
        "copy" => Ok(Call::Copy),
        "right" => Ok(Call::Right),
        "down" => Ok(Call::Down),
        "equal" => Ok(Call::Equal),
        "pack" => Ok(Call::Pack),
        "clones" => Ok(Call::Clones),
        "--help" => Err(Fault::Help),
        _ => Err(Fault::Words),
    }
}

// The words after the name of the program.
fn read_words(rt: &HostRuntime) -> Result<Words, Fault> {
    let Ok(mut words) = env::args(rt) else {
        return Err(Fault::Words);
    };
    let (Some(_), Some(name)) = (words.next(), words.next()) else {
        return Err(Fault::Words);
    };
    let call = read_call(&name)?;
    let (Some(pixel), Some(rows)) = (words.next(), words.next()) else {
        return Err(Fault::Words);
    };
    let (Some(first), Some(last), Some(calls), Some(rounds)) = (
        words.next(),
        words.next(),
        words.next(),
        words.next(),
    ) else {
        return Err(Fault::Words);
    };
    Ok(Words {
        name,
        call,
        pixel: pixel.parse().ok().ok_or(Fault::Words)?,
        rows: rows.parse().ok().ok_or(Fault::Words)?,
        first: first.parse().ok().ok_or(Fault::Words)?,
        last: last.parse().ok().ok_or(Fault::Words)?,
        calls: calls.parse().ok().ok_or(Fault::Words)?,
        rounds: rounds.parse().ok().ok_or(Fault::Words)?,
    })
}

// Two images of equal pixels, and their shapes.
#[derive(Drop)]
struct Pair<T: Copy> {
    cells: Vec<T>,
    source: Vec<T>,
    shape: Shape,
    source_shape: Shape,
}

impl<T: Copy + PartialEq> Pair<T> {
    // The rows of the source have one pixel more of padding, where there is any.
    fn new(
        alloc: Global,
        pixel: T,
        width: usize,
        rows: usize,
        padding: usize,
    ) -> Result<Pair<T>, Fault> {
        let stride = width.saturating_add(padding);
        let source_stride = stride.saturating_add(padding.min(1));
        let (Some(shape), Some(source_shape)) = (
            Shape::checked(width, rows, stride),
            Shape::checked(width, rows, source_stride),
        ) else {
            return Err(Fault::Words);
        };
        let cells = vec![in alloc; pixel; stride.saturating_mul(rows)]?;
        let source = vec![in alloc; pixel; source_stride.saturating_mul(rows)]?;
        Ok(Pair {
            cells,
            source,
            shape,
            source_shape,
        })
    }

    // Makes the call once. It isn't inlined: then no call is moved out of the loop that times it.
    #[inline(never)]
    fn act(&mut self, alloc: Global, call: Call, pixel: T) -> Result<bool, Fault>
        requires clones_equal { (x y : T) → T.is_clone x y → y ≡ x }
    {
        let (shape, source_shape) = (self.shape, self.source_shape);
        let (width, rows) = (shape.width(), shape.height());
        if !shape.fits(self.cells.len()) || !source_shape.fits(self.source.len()) {
            return Err(Fault::Words);
        }
        if width == 0
            || rows == 0
            || source_shape.width() != width
            || source_shape.height() != rows
        {
            return Err(Fault::Words);
        }
        match call {
            Call::Fill => fill_pixels(self.cells.as_mut_slice(), shape, pixel),
            Call::Copy => copy_pixels(
                self.cells.as_mut_slice(),
                shape,
                self.source.as_slice(),
                source_shape,
            ),
            Call::Right => move_pixels(
                self.cells.as_mut_slice(),
                shape,
                Window::new(0, 0, width - 1, rows),
                Window::new(1, 0, width - 1, rows),
            ),
            Call::Down => move_pixels(
                self.cells.as_mut_slice(),
                shape,
                Window::new(0, 0, width, rows - 1),
                Window::new(0, 1, width, rows - 1),
            ),
            Call::Equal => {
                return Ok(are_equal(
                    self.cells.as_slice(),
                    shape,
                    self.source.as_slice(),
                    source_shape,
                ));
            }
            Call::Pack => join_rows(self.cells.as_mut_slice(), shape),
            Call::Clones => {
                let joined = joined_clones(alloc, self.cells.as_slice(), shape)?;
                return Ok(joined.len() > 0);
            }
        }
        Ok(true)
    }
}

// The least time of so many calls, in nanoseconds.
fn least_time<T: Copy + PartialEq>(
    rt: &HostRuntime,
    words: &Words,
    pixel: T,
    pair: &mut Pair<T>,
) -> Result<u128, Fault>
    requires clones_equal { (x y : T) → T.is_clone x y → y ≡ x }
{
    let mut least = u128::MAX;
    for _ in 0..words.rounds {
        let start = Instant::now(rt)?;
        for _ in 0..words.calls {
            if !pair.act(rt.alloc(), words.call, pixel)? {
                return Err(Fault::Words);
            }
        }
        least = least.min(start.elapsed(rt)?.as_nanos());
    }
    Ok(least)
}

// Times the call on images of each width, with and without padding.
fn time_each<T: Copy + PartialEq>(rt: &HostRuntime, words: &Words, pixel: T) -> Result<(), Fault>
    requires clones_equal { (x y : T) → T.is_clone x y → y ≡ x }
{
    for width in words.first..words.last.saturating_add(1) {
        for padding in [0, 8] {
            let mut pair = Pair::new(rt.alloc(), pixel, width, words.rows, padding)?;
            let least = least_time(rt, words, pixel, &mut pair)?;
            if words.calls > 0 && words.rounds > 0 {
                let call = least.saturating_mul(1000) / u128::from(words.calls);
                println!(rt; "{} {} {width} {padding} {call}", words.name, words.pixel)?;
            }
        }
    }
    Ok(())
}

fn run(rt: &HostRuntime) -> Result<(), Fault> {
    let words = read_words(rt)?;
    match words.pixel {
        1 => time_each(rt, &words, 0u8),
        2 => time_each(rt, &words, 0u16),
        3 => time_each(rt, &words, [0u8; 3]),
        4 => time_each(rt, &words, 0u32),
        8 => time_each(rt, &words, 0u64),
        16 => time_each(rt, &words, [0u64; 2]),
        _ => Err(Fault::Words),
    }
}

fn main(rt: HostRuntime) -> ExitCode {
    let words = "words: call, bytes, rows, columns from and to, calls, rounds";
    let printed = match run(&rt) {
        Ok(()) => return ExitCode::SUCCESS,
        Err(Fault::Help) => {
            return match println!(rt; "{words}") {
                Ok(()) => ExitCode::SUCCESS,
                Err(_) => ExitCode::FAILURE,
            };
        }
        Err(Fault::Words) => println!(rt; "{words}"),
        Err(Fault::Memory) => println!(rt; "out of memory"),
        Err(Fault::Device) => println!(rt; "the clock or the output failed"),
    };
    match printed {
        Ok(()) => ExitCode::FAILURE,
        Err(_) => ExitCode::FAILURE,
    }
}
