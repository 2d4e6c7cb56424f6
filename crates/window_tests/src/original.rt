//! The port on the cases on which the Rust crate `imgref` 1.12.3 was run.
//!
//! `original/answers.rs` in the crate's folder wrote its file `stdout`. It was built over the
//! original's own sources (feature `deprecated`) with rustc 1.95, with and without debug assertions,
//! which gave the same lines. To make them again, make a new cargo project over the original with
//! that file as its `src/main.rs`, and use `cargo run`.
//!
//! Each image holds the cells 1, 2, 3 and so on. Its line has the number of cells, the width, the
//! height and the stride. A `/` ends a row. The line of a window has left, top, width and height.
//! Then come the first cell and the length of its buffer. Four calls give these: `sub_image`,
//! `sub_image_mut` of an owner and of a borrowed image, and `into_sub_image_mut`. Last come its
//! pixels. An image or a window that isn't valid has no line.

ghost use Rattle.image_model.specs.Layout.{Fits};
ghost use Rattle.imgref.specs.Image.{ref_layout, vec_layout};

use imgref::{Img, ImgRef, ImgVec};
use imgref_fixtures::{PADDED, next_from};
use std::alloc::{AllocError, Global};
use std::fmt::Write;

fn write_cells(text: &mut String, cells: &[u8]) -> Result<(), AllocError> {
    for cell in cells {
        write!(text, " {cell}")?;
    }
    Ok(())
}

fn write_row(text: &mut String, row: &[u8]) -> Result<(), AllocError> {
    write_cells(text, row)?;
    write!(text, " /")
}

// A buffer by its first cell and its length.
fn buffer(cells: &[u8]) -> (u8, usize) {
    (cells.first().copied().unwrap_or(0), cells.len())
}

fn write_rows(text: &mut String, image: ImgRef<'_, u8>) -> Result<(), AllocError>
    requires { Fits (ref_layout image) }
{
    write!(text, "rows")?;
    for row in image.rows() {
        write_row(text, row)?;
    }
    write!(text, "\nrows from the back")?;
    for row in image.rows().rev() {
        write_row(text, row)?;
    }
    write!(text, "\nrows from both ends")?;
    let mut rows = image.rows();
    for turn in 0..rows.len() {
        if let Some(row) = next_from(&mut rows, turn % 2 == 0) {
            write_row(text, row)?;
        }
    }
    if image.width() > 0 {
        write!(text, "\nrows by number")?;
        for y in 0..image.height() {
            write_row(text, image.row(y))?;
        }
    }
    Ok(())
}

// The rows are filled from both ends alternately, with a value of its own each.
fn fill_rows(image: &mut ImgVec<u8>)
    requires { Fits (vec_layout image.old) }
{
    let mut rows = image.rows_mut();
    let mut value = 100u8;
    for turn in 0..rows.len() {
        if let Some(row) = next_from(&mut rows, turn % 2 == 0) {
            row.fill(value);
        }
        value = value.wrapping_add(1);
    }
}

fn write_pixels(text: &mut String, image: ImgRef<'_, u8>) -> Result<(), AllocError>
    requires { Fits (ref_layout image) }
{
    write!(text, "\npixels")?;
    for pixel in image.pixels() {
        write!(text, " {pixel}")?;
    }
    write!(text, "\npixels by reference")?;
    for pixel in image.pixels_ref() {
        write!(text, " {pixel}")?;
    }
    write!(text, "\npixels left")?;
    let mut pixels = image.pixels();
    for _ in 0..pixels.len() {
        write!(text, " {}", pixels.len())?;
        pixels.next();
    }
    write!(text, " {}", pixels.len())
}

fn count_up(image: &mut ImgVec<u8>)
    requires { Fits (vec_layout image.old) }
{
    let mut value = 50u8;
    for pixel in image.pixels_mut() {
        *pixel = value;
        value = value.wrapping_add(1);
    }
}

// The cells that a column below the stride and a row name, as far as they are there.
fn write_places(text: &mut String, image: ImgRef<'_, u8>) -> Result<(), AllocError> {
    let cells = image.buf().len();
    let stride = image.stride();
    for cell in 0..cells {
        let (x, y) = (cell % stride, cell / stride);
        if x < stride && y <= cells / stride && y * stride + x < cells {
            write!(text, " {}", image[(x, y)])?;
        }
    }
    Ok(())
}

// The buffers of a window by `sub_image`, by `sub_image_mut` of an owner and of a lent image, and by
// `into_sub_image_mut`; and its pixels.
fn write_window(
    alloc: Global,
    text: &mut String,
    image: ImgRef<'_, u8>,
    at: (usize, usize, usize, usize),
) -> Result<(), AllocError> {
    let (left, top, width, height) = at;
    write!(text, " {left} {top} {width} {height}:")?;
    if !image.is_valid() || !image.has_window(left, top, width, height) {
        return Ok(());
    }
    let shared = image.sub_image(left, top, width, height);
    let mut owner: ImgVec<u8> = Img::new_stride(
        image.buf().to_vec(alloc)?,
        image.width(),
        image.height(),
        image.stride(),
    );
    if !owner.is_valid() || !owner.has_window(left, top, width, height) {
        return Ok(());
    }
    let owned = buffer(owner.sub_image_mut(left, top, width, height).buf());
    let mut lent = owner.as_mut();
    if !lent.is_valid() || !lent.has_window(left, top, width, height) {
        return Ok(());
    }
    let lent_on = buffer(lent.sub_image_mut(left, top, width, height).buf());
    if !lent.is_valid() || !lent.has_window(left, top, width, height) {
        return Ok(());
    }
    let cut = buffer(lent.into_sub_image_mut(left, top, width, height).buf());
    for (first, len) in [buffer(shared.buf()), owned, lent_on] {
        write!(text, " {first} {len},")?;
    }
    write!(text, " {} {}:", cut.0, cut.1)?;
    if !shared.is_valid() {
        return Ok(());
    }
    for pixel in shared.pixels() {
        write!(text, " {pixel}")?;
    }
    Ok(())
}

fn write_windows(
    alloc: Global,
    text: &mut String,
    name: &str,
    image: ImgRef<'_, u8>,
) -> Result<(), AllocError> {
    for left in 0..image.width() {
        for top in 0..image.height() {
            for width in 1..=image.width() - left {
                for height in 1..=image.height() - top {
                    write!(text, "\n{name}")?;
                    write_window(alloc, text, image, (left, top, width, height))?;
                }
            }
        }
    }
    Ok(())
}

fn write_image(alloc: Global, text: &mut String, image: ImgRef<'_, u8>) -> Result<(), AllocError> {
    let (width, height, stride) = (image.width(), image.height(), image.stride());
    let cells = image.buf().len();
    write!(text, "image {cells} {width} {height} {stride}\n")?;
    if !image.is_valid() {
        return Ok(());
    }
    write_rows(text, image)?;
    let mut owner: ImgVec<u8> = Img::new_stride(image.buf().to_vec(alloc)?, width, height, stride);
    if !owner.is_valid() {
        return Ok(());
    }
    fill_rows(&mut owner);
    write!(text, "\nrows written from both ends")?;
    write_cells(text, owner.buf())?;
    write_pixels(text, image)?;
    if !owner.is_valid() {
        return Ok(());
    }
    count_up(&mut owner);
    write!(text, "\npixels written")?;
    write_cells(text, owner.buf())?;
    write!(text, "\nplaces")?;
    write_places(text, image)?;
    write_windows(alloc, text, "window", image)?;
    writeln!(text)
}

pub(crate) fn write_answers(alloc: Global, text: &mut String) -> Result<(), AllocError> {
    let images = [
        Img::new_stride(&PADDED[..0], 0, 0, 1),
        Img::new_stride(&PADDED[..2], 0, 2, 1),
        Img::new_stride(&PADDED[..3], 3, 0, 3),
        Img::new_stride(&PADDED[..1], 1, 1, 1),
        Img::new_stride(&PADDED[..1], 1, 1, 18446744073709551614),
        Img::new_stride(&PADDED[..4], 2, 2, 2),
        Img::new_stride(&PADDED[..5], 2, 2, 3),
        Img::new_stride(&PADDED[..8], 2, 2, 3),
        Img::new_stride(&PADDED[..7], 3, 2, 4),
        Img::new_stride(&PADDED[..8], 3, 2, 4),
        Img::new_stride(&PADDED[..9], 3, 2, 4),
    ];
    for image in images {
        write_image(alloc, text, image)?;
    }
    let outer = Img::new_stride(PADDED.as_slice(), 3, 2, 4);
    if !outer.is_valid() || !outer.has_window(1, 0, 2, 2) {
        return Ok(());
    }
    write!(text, "in the window 1 0 2 2 of 9 3 2 4")?;
    write_windows(alloc, text, "window", outer.sub_image(1, 0, 2, 2))?;
    let mut held = PADDED;
    let mut written = Img::new_stride(held.as_mut_slice(), 3, 2, 4);
    written[(1usize, 1usize)] = 0;
    written[(3u32, 0u32)] = 100;
    if !written.is_valid() {
        return Ok(());
    }
    written.row_mut(1)[0] = 50;
    write!(text, "\nwritten at places")?;
    write_cells(text, &held)?;
    writeln!(text)
}
