//! Images, writes, and commands as rows of a table, which tests share.

ghost use Rattle.std.specs.Prelude.{IfOk};
ghost use Rattle.image_model.specs.Layout.{Fits};
ghost use Rattle.imgref.specs.Image.{vec_layout};

use imgref::{Img, ImgRefMut, ImgVec};
use imgref_replay::{Command, Place, Window};
use std::alloc::{AllocError, Global};
use std::process::Abort;

pub const GREATEST: usize = usize::MAX;

// The whole image, by the empty path. Other windows are left, top, width and height.
pub const ALL: [usize; 4] = [GREATEST, GREATEST, GREATEST, GREATEST];

// A command: the image's number, the window, and what the command has besides.
#[derive(Drop)]
pub enum Line<T> {
    Get(usize, [usize; 4], usize, usize),
    Put(usize, [usize; 4], usize, usize, T),
    Fill(usize, [usize; 4], T),
    Count(usize, [usize; 4], T),
    Same(usize, [usize; 4], usize, [usize; 4]),
    Blit(usize, [usize; 4], usize, [usize; 4]),
    Mosaic(usize, [usize; 4], usize, usize),
    Compact(usize),
}

pub fn window(numbers: [usize; 4]) -> Window {
    let [left, top, width, height] = numbers;
    Window::new(left, top, width, height)
}

fn spot(alloc: Global, image: usize, numbers: [usize; 4]) -> Result<Place, AllocError> {
    let mut path = Vec::new(alloc);
    if numbers != ALL {
        path.push(window(numbers))?;
    }
    Ok(Place { image, path })
}

fn command<T: Copy>(alloc: Global, line: &Line<T>) -> Result<Command<T>, AllocError> {
    Ok(match line {
        Line::Get(image, window, x, y) => Command::Get {
            spot: spot(alloc, *image, *window)?,
            x: *x,
            y: *y,
        },
        Line::Put(image, window, x, y, value) => Command::Put {
            spot: spot(alloc, *image, *window)?,
            x: *x,
            y: *y,
            value: *value,
        },
        Line::Fill(image, window, value) => Command::Fill {
            spot: spot(alloc, *image, *window)?,
            value: *value,
        },
        Line::Count(image, window, value) => Command::Count {
            spot: spot(alloc, *image, *window)?,
            value: *value,
        },
        Line::Same(image, window, other, beside) => Command::Same {
            first: spot(alloc, *image, *window)?,
            second: spot(alloc, *other, *beside)?,
        },
        Line::Blit(image, window, other, beside) => Command::Blit {
            source: spot(alloc, *image, *window)?,
            target: spot(alloc, *other, *beside)?,
        },
        Line::Mosaic(image, window, tile_width, tile_height) => Command::Mosaic {
            spot: spot(alloc, *image, *window)?,
            tile_width: *tile_width,
            tile_height: *tile_height,
        },
        Line::Compact(image) => Command::Compact { image: *image },
    })
}

// The commands of a table.
pub fn commands<T: Copy>(alloc: Global, lines: &[Line<T>]) -> Result<Vec<Command<T>>, AllocError> {
    let mut all = Vec::new(alloc);
    for line in lines.iter() {
        all.push(command(alloc, line)?)?;
    }
    Ok(all)
}

// An image of these cells by width, height and stride, which fits.
pub fn image<T: Copy + Drop>(
    rt: &impl Abort,
    alloc: Global,
    cells: &[T],
    size: [usize; 3],
) -> Result<ImgVec<T>, AllocError>
    ensures { IfOk result (λ image. Fits (vec_layout image)) }
{
    let [width, height, stride] = size;
    assert!(rt; stride >= 1 && width <= stride && width <= 4294967295 && height <= 4294967295);
    let image = Img::new_stride(cells.to_vec(alloc)?, width, height, stride);
    assert!(rt; image.is_valid());
    Ok(image)
}

// Whether an image has this stride and these cells.
pub fn has<T: Eq>(image: &ImgVec<T>, stride: usize, cells: &[T]) -> bool {
    image.stride() == stride && image.buf().as_slice() == cells
}

// Writes a pixel where the image has the place, and returns whether it has.
pub fn write<T: Drop>(image: &mut ImgRefMut<'_, T>, x: usize, y: usize, value: T) -> bool {
    if !image.is_valid() || x >= image.width() || y >= image.height() {
        return false;
    }
    image[(x, y)] = value;
    true
}
