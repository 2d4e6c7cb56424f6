//! Each program once, with values that were worked out by hand.

ghost use Rattle.std.specs.Prelude.{◌≡◌, IfOk};
ghost use Rattle.imgref.specs.Image.{width_of, height_of};

use crate::{
    FrameError, box_blur_3x3, brighten, brighten_copy, brighten_places, brighten_rows, crop_copy,
    dot, draw_any, draw_lent, draw_rect, flip_any, luma_plane, pixel_of_any, pixel_of_ref,
    pixel_of_vec, put_and_read, put_then_get, stripes, three_by_index, three_places,
    write_through_window,
};
use imgref::{Img, ImgVec, Window};
use std::alloc::{AllocError, Global};
use std::test::Fail;

// Three by two with one cell of padding after the first row.
const CELLS: [u8; 7] = [1, 2, 3, 100, 4, 5, 250];

fn padded(alloc: Global) -> Result<ImgVec<u8>, AllocError>
    ensures width { IfOk result (λ image. width_of image ≡ 3) }
    ensures height { IfOk result (λ image. height_of image ≡ 2) }
{
    Ok(Img::new_stride(CELLS.to_vec(alloc)?, 3, 2, 4))
}

#[test]
fn a_window_is_written(rt: HostRuntime) {
    let mut cells = [0u8; 9];
    assert_eq!(rt; write_through_window(&mut cells), Some(7));
    assert_eq!(rt; cells, [0u8, 0, 0, 0, 0, 7, 0, 0, 0]);
}

// The cells of the image, each pixel 10 brighter.
const BRIGHT: [u8; 7] = [11, 12, 13, 100, 14, 15, 255];

#[test]
fn brighter_pixels_stop_at_255(rt: HostRuntime) -> Result<(), Fail> {
    let mut by_pixels = padded(rt.alloc())?;
    let mut by_places = padded(rt.alloc())?;
    let mut by_rows = padded(rt.alloc())?;
    assert!(rt; by_pixels.is_valid() && by_places.is_valid() && by_rows.is_valid());
    brighten(&mut by_pixels, 10);
    brighten_places(&mut by_places, 10);
    brighten_rows(&mut by_rows, 10);
    assert!(rt; by_pixels.buf().as_slice() == BRIGHT.as_slice());
    assert!(rt; by_places.buf().as_slice() == BRIGHT.as_slice());
    assert!(rt; by_rows.buf().as_slice() == BRIGHT.as_slice());
    let copy = brighten_copy(rt.alloc(), Img::new_stride(CELLS.as_slice(), 3, 2, 4), 10)?;
    assert!(rt; copy.into_buf().as_slice() == [11u8, 12, 13, 14, 15, 255].as_slice());
    Ok(())
}

#[test]
fn a_crop_is_copied(rt: HostRuntime) -> Result<(), Fail> {
    let image = Img::new_stride(CELLS.as_slice(), 3, 2, 4);
    assert!(rt; image.is_valid());
    let Some(copy) = crop_copy(rt.alloc(), image, Window::new(1, 0, 2, 2))? else {
        panic!(rt; "the window is inside");
    };
    assert_eq!(rt; copy.as_slice(), [2u8, 3, 5, 250].as_slice());
    assert!(rt; crop_copy(rt.alloc(), image, Window::new(2, 0, 2, 2))?.is_none());
    assert!(rt; crop_copy(rt.alloc(), image, Window::new(usize::MAX, 0, 1, 1))?.is_none());
    Ok(())
}

#[test]
fn a_blur_is_the_mean_of_nine(rt: HostRuntime) -> Result<(), Fail> {
    let cells = [1u8, 2, 3, 4, 5, 6, 7, 8, 18];
    let image = Img::new(cells.as_slice(), 3, 3);
    let mut out: ImgVec<u8> = Img::new_stride(vec![in rt.alloc(); 0u8; 12]?, 3, 3, 4);
    assert!(rt; image.is_valid() && out.is_valid());
    box_blur_3x3(image, &mut out);
    assert_eq!(rt;
        out.into_buf().as_slice(),
        [0u8, 0, 0, 0, 0, 6, 0, 0, 0, 0, 0, 0].as_slice()
    );
    Ok(())
}

#[test]
fn a_rectangle_is_clipped(rt: HostRuntime) -> Result<(), Fail> {
    let mut image = padded(rt.alloc())?;
    assert!(rt; image.is_valid());
    draw_rect(&mut image, 1, 1, 9, 9, 0);
    assert!(rt; image.is_valid());
    draw_rect(&mut image, usize::MAX, 0, 9, 9, 7);
    assert_eq!(rt;
        image.into_buf().as_slice(),
        [1u8, 2, 3, 100, 4, 0, 0].as_slice()
    );
    Ok(())
}

#[test]
fn a_frame_is_a_plane_where_it_is_long_enough(rt: HostRuntime) -> Result<(), Fail> {
    let plane = luma_plane(CELLS.to_vec(rt.alloc())?, 3, 2, 4);
    assert!(rt; plane.is_ok());
    for (width, height, stride, error) in [
        (3, 3, 4, FrameError::TooShort),
        (3, 2, 2, FrameError::BadStride),
        (0, 2, 0, FrameError::BadStride),
        (4294967296, 1, 4294967296, FrameError::TooLarge),
    ] {
        let refused = luma_plane(CELLS.to_vec(rt.alloc())?, width, height, stride);
        assert_eq!(rt; refused.err(), Some(error));
    }
    Ok(())
}

#[test]
fn one_write_comes_after_another(rt: HostRuntime) -> Result<(), Fail> {
    let drawn = [1u8, 2, 0, 0, 0, 9, 9];
    let mut image: ImgVec<u8> = Img::new_stride(vec![in rt.alloc(); 0u8; 7]?, 3, 2, 4);
    assert!(rt; image.is_valid());
    three_places(&mut image, 9);
    assert_eq!(rt; image.into_buf().as_slice(), drawn.as_slice());
    let mut image: ImgVec<u8> = Img::new_stride(vec![in rt.alloc(); 0u8; 7]?, 3, 2, 4);
    assert!(rt; image.is_valid());
    three_by_index(&mut image, 9);
    assert_eq!(rt; image.into_buf().as_slice(), drawn.as_slice());
    let mut image = padded(rt.alloc())?;
    assert!(rt; image.is_valid());
    stripes(&mut image);
    assert_eq!(rt;
        image.into_buf().as_slice(),
        [0u8, 0, 0, 100, 1, 1, 1].as_slice()
    );
    let mut image = padded(rt.alloc())?;
    assert!(rt; image.is_valid());
    assert_eq!(rt; put_then_get(&mut image, 2, 1, 9), Some(9));
    let mut cells = CELLS;
    let mut lent = Img::new_stride(cells.as_mut_slice(), 3, 2, 4);
    assert!(rt; lent.is_valid());
    dot(&mut lent, 2, 0);
    assert_eq!(rt; cells, [1u8, 2, 7, 100, 4, 5, 250]);
    Ok(())
}

#[test]
fn each_kind_of_image_is_read_and_written(rt: HostRuntime) -> Result<(), Fail> {
    let mut cells = CELLS;
    let mut lent = Img::new_stride(cells.as_mut_slice(), 3, 2, 4);
    assert!(rt; lent.is_valid());
    assert_eq!(rt; put_and_read(&mut lent, 1, 0, 9), Some(9));
    draw_lent(&mut lent, 2, 0, 9, 1, 8);
    assert_eq!(rt; cells, [1u8, 9, 8, 100, 4, 5, 250]);
    let mut image = padded(rt.alloc())?;
    assert!(rt; image.is_valid());
    draw_any(&mut image, 0, 1, 1, 9, 7);
    assert_eq!(rt; pixel_of_vec(&image, 0, 1), 7);
    assert_eq!(rt; pixel_of_any(&image, 2, 0), 3);
    assert_eq!(rt; pixel_of_ref(image.as_ref(), 2, 1), 250);
    flip_any(&mut image);
    assert_eq!(rt;
        image.into_buf().as_slice(),
        [7u8, 5, 250, 100, 1, 2, 3].as_slice()
    );
    Ok(())
}
