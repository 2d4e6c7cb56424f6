//! What each program leaves of one image and reads of it, by tables worked out by hand.

ghost use Rattle.imgref.specs.Words.{Fits, vec_layout};

use crate::{
    brighten_rows, checksum, checksum_by_rows, crop_packed, darken_lent_tiles, darken_tiles,
    draw_border, exact_checksum, flip, greatest_in, invert, invert_lent, invert_owner, paste_at,
    paste_sprite, put_above_fill, threshold,
};
use imgref::{Img, ImgRef, ImgVec, Window};
use std::alloc::{AllocError, Global};
use std::test::Fail;

// Four by three, with a cell of padding after each row but the last.
const CELLS: [u8; 14] = [1, 2, 3, 4, 100, 5, 6, 7, 8, 101, 9, 10, 11, 250];

// Two by two.
const SPRITE: [u8; 4] = [70, 71, 72, 73];

#[derive(Clone, Copy)]
enum Program {
    Invert,
    InvertOwner,
    InvertLent,
    BrightenRows(u8),
    Threshold(u8),
    Flip,
    Border(Window),
    Paste(usize, usize),
    PasteAt(i32, i32),
    DarkenTiles,
    DarkenLentTiles,
}

// Runs a program.
fn run(program: Program, image: &mut ImgVec<u8>)
    requires { Fits (vec_layout image.old) }
{
    let sprite = Img::new(SPRITE.as_slice(), 2, 2);
    match program {
        Program::Invert => invert(image),
        Program::InvertOwner => invert_owner(image),
        Program::InvertLent => invert_lent(&mut image.as_mut()),
        Program::BrightenRows(by) => brighten_rows(image, by),
        Program::Threshold(limit) => threshold(image, limit),
        Program::Flip => flip(image),
        Program::Border(w) => {
            if w.is_inside(image.width(), image.height()) && w.width > 0 && w.height > 0 {
                draw_border(image, w, 0);
            }
        }
        Program::Paste(x, y) => {
            if sprite.is_valid() {
                paste_sprite(image, sprite, x, y);
            }
        }
        Program::PasteAt(x, y) => {
            if sprite.is_valid() {
                paste_at(image, sprite, x, y);
            }
        }
        Program::DarkenTiles => darken_tiles(image),
        Program::DarkenLentTiles => darken_lent_tiles(image),
    }
}

// Whether a program leaves these cells of an image with cells.
fn leaves(
    alloc: Global,
    program: Program,
    before: &[u8],
    width: usize,
    height: usize,
    stride: usize,
    after: &[u8],
) -> Result<bool, AllocError> {
    if width > 99 || height > 99 || stride < width || stride == 0 {
        return Ok(false);
    }
    let mut image: ImgVec<u8> = Img::new_stride(before.to_vec(alloc)?, width, height, stride);
    if !image.is_valid() {
        return Ok(false);
    }
    run(program, &mut image);
    Ok(image.into_buf().as_slice() == after)
}

#[test]
fn programs_leave_padding(rt: HostRuntime) -> Result<(), Fail> {
    let whole = Window::new(0, 0, 4, 3);
    for (program, after) in [
        (
            Program::Invert,
            [
                254, 253, 252, 251, 100, 250, 249, 248, 247, 101, 246, 245, 244, 5,
            ],
        ),
        (
            Program::InvertOwner,
            [
                254, 253, 252, 251, 100, 250, 249, 248, 247, 101, 246, 245, 244, 5,
            ],
        ),
        (
            Program::InvertLent,
            [
                254, 253, 252, 251, 100, 250, 249, 248, 247, 101, 246, 245, 244, 5,
            ],
        ),
        (
            Program::BrightenRows(10),
            [11, 12, 13, 14, 100, 15, 16, 17, 18, 101, 19, 20, 21, 255],
        ),
        (
            Program::Threshold(4),
            [
                0, 0, 0, 255, 100, 255, 255, 255, 255, 101, 255, 255, 255, 255,
            ],
        ),
        (
            Program::Threshold(0),
            [
                255, 255, 255, 255, 100, 255, 255, 255, 255, 101, 255, 255, 255, 255,
            ],
        ),
        (
            Program::Flip,
            [9, 10, 11, 250, 100, 5, 6, 7, 8, 101, 1, 2, 3, 4],
        ),
        (
            Program::Border(whole),
            [0, 0, 0, 0, 100, 0, 6, 7, 0, 101, 0, 0, 0, 0],
        ),
        (
            Program::Border(Window::new(1, 0, 2, 2)),
            [1, 0, 0, 4, 100, 5, 0, 0, 8, 101, 9, 10, 11, 250],
        ),
        (
            Program::Border(Window::new(3, 2, 1, 1)),
            [1, 2, 3, 4, 100, 5, 6, 7, 8, 101, 9, 10, 11, 0],
        ),
        (
            Program::Paste(1, 1),
            [1, 2, 3, 4, 100, 5, 70, 71, 8, 101, 9, 72, 73, 250],
        ),
        (
            Program::Paste(3, 2),
            [1, 2, 3, 4, 100, 5, 6, 7, 8, 101, 9, 10, 11, 70],
        ),
        (Program::Paste(4, 0), CELLS),
        (Program::Paste(0, usize::MAX), CELLS),
        (
            Program::PasteAt(2, 0),
            [1, 2, 70, 71, 100, 5, 6, 72, 73, 101, 9, 10, 11, 250],
        ),
        (
            Program::PasteAt(-1, -1),
            [73, 2, 3, 4, 100, 5, 6, 7, 8, 101, 9, 10, 11, 250],
        ),
        (
            Program::PasteAt(-1, 2),
            [1, 2, 3, 4, 100, 5, 6, 7, 8, 101, 71, 10, 11, 250],
        ),
        (Program::PasteAt(-2, 0), CELLS),
        (Program::PasteAt(i32::MIN, i32::MAX), CELLS),
        (
            Program::DarkenTiles,
            [1, 1, 1, 1, 100, 1, 1, 1, 1, 101, 1, 1, 1, 1],
        ),
        (
            Program::DarkenLentTiles,
            [1, 1, 1, 1, 100, 1, 1, 1, 1, 101, 1, 1, 1, 1],
        ),
    ] {
        let (cells, after) = (CELLS, after);
        assert!(rt;
            leaves(
                rt.alloc(),
                program,
                cells.as_slice(),
                4,
                3,
                5,
                after.as_slice()
            )?
        );
    }
    Ok(())
}

// Two tiles, of which the second alone is dark at its corner.
#[test]
fn each_tile_has_its_corner(rt: HostRuntime) -> Result<(), Fail> {
    let before = [200u8, 2, 3, 4, 5, 6, 7, 8, 9, 10];
    let after = [200u8, 2, 3, 4, 5, 6, 7, 8, 9, 9];
    for program in [Program::DarkenTiles, Program::DarkenLentTiles] {
        assert!(rt;
            leaves(
                rt.alloc(),
                program,
                before.as_slice(),
                10,
                1,
                10,
                after.as_slice()
            )?
        );
    }
    Ok(())
}

// The greatest pixel, where the image fits and the windows are inside.
fn greatest(image: ImgRef<'_, u8>, outer: Window, inner: Window) -> Option<u8> {
    if image.is_valid()
        && outer.is_inside(image.width(), image.height())
        && inner.is_inside(outer.width, outer.height)
    {
        return greatest_in(image, outer, inner);
    }
    None
}

#[test]
fn what_is_read_leaves_out_padding(rt: HostRuntime) -> Result<(), Fail> {
    let image = Img::new_stride(CELLS.as_slice(), 4, 3, 5);
    assert!(rt; image.is_valid());
    assert!(rt; checksum(image) == 316 && checksum_by_rows(image) == 316);
    assert!(rt; exact_checksum(image) == 316);
    for (outer, inner, pixel) in [
        (Window::new(0, 0, 4, 3), Window::new(0, 0, 4, 3), Some(250)),
        (Window::new(1, 1, 3, 2), Window::new(0, 0, 2, 2), Some(11)),
        (Window::new(0, 0, 3, 3), Window::new(2, 0, 1, 2), Some(7)),
        (Window::new(4, 3, 0, 0), Window::new(0, 0, 0, 0), None),
        (Window::new(0, 0, 4, 3), Window::new(1, 1, 0, 2), None),
    ] {
        assert!(rt; greatest(image, outer, inner) == pixel);
    }
    let copy = crop_packed(rt.alloc(), image, Window::new(1, 1, 2, 2))?;
    assert!(rt; copy.width() == 2 && copy.height() == 2 && copy.stride() == 2);
    assert!(rt; copy.into_buf().as_slice() == [6u8, 7, 10, 11].as_slice());
    Ok(())
}

#[test]
fn a_pixel_stays_above_a_filled_row(rt: HostRuntime) -> Result<(), Fail> {
    let mut image: ImgVec<u8> = Img::new_stride(CELLS.to_vec(rt.alloc())?, 4, 3, 5);
    assert!(rt; image.is_valid());
    assert!(rt; put_above_fill(&mut image, 3, 1, 77) == Some(77));
    assert!(rt;
        image.into_buf().as_slice() == [1u8, 2, 3, 4, 100, 5, 6, 7, 77, 101, 0, 0, 0, 0].as_slice()
    );
    Ok(())
}
