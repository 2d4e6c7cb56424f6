//! What an image is made of, and its properties.

use imgref::{Img, ImgRef, ImgVec};
use imgref_fixtures::{cells_of, has_size};
use std::alloc::{AllocError, Global};
use std::test::Fail;

// A container of no cells that nothing reads and nothing may drop.
struct Sealed {}

fn unseal(sealed: Sealed) {
    let Sealed {} = sealed;
}

fn copied<I: Copy>(image: &I) -> I {
    *image
}

#[test]
fn accessors_give_the_parts(rt: HostRuntime) -> Result<(), Fail> {
    let cells = [1u8, 2, 3, 4, 5, 6, 7, 8];
    let image: ImgRef<'_, u8> = Img::new_stride(cells.as_slice(), 2, 2, 3);
    assert!(rt; image.width() == 2 && image.height() == 2 && image.stride() == 3);
    assert!(rt; *image.buf() == cells.as_slice());
    let shape = image.shape();
    assert!(rt; shape.width() == 2 && shape.height() == 2 && shape.stride() == 3);
    let (buf, same) = image.into_parts();
    assert!(rt; same == shape && buf == cells.as_slice());
    Ok(())
}

#[test]
fn a_packed_image_has_its_width_as_stride(rt: HostRuntime) {
    let cells = [1u8, 2, 3, 4, 5, 6, 7, 8];
    let packed = Img::new(cells.as_slice(), 4, 2);
    assert!(rt; has_size(&packed, [4, 2, 4]) && packed.into_buf() == cells.as_slice());
}

#[test]
fn any_container_goes_in(_rt: HostRuntime) {
    let image = Img::new(Sealed {}, 1, 1);
    unseal(image.into_buf());
}

#[test]
fn a_container_is_left_in_place(rt: HostRuntime) -> Result<(), Fail> {
    let mut image: ImgVec<u8> = Img::new_stride([1u8, 2, 3].to_vec(rt.alloc())?, 2, 2, 3);
    assert!(rt; !image.is_valid());
    image.buf_mut().push(4)?;
    image.buf_mut().push(5)?;
    assert!(rt; image.is_valid() && has_size(&image, [2, 2, 3]));
    assert!(rt; image.row(1) == [4u8, 5].as_slice());
    assert!(rt; image.into_buf().as_slice() == [1u8, 2, 3, 4, 5].as_slice());
    Ok(())
}

#[test]
fn an_image_of_lent_pixels_is_copied(rt: HostRuntime) -> Result<(), Fail> {
    let cells = [1u8, 2, 3, 4, 5, 6, 7, 8];
    let image = Img::new_stride(cells.as_slice(), 2, 2, 3);
    let copy = copied(&image);
    let clone = image.clone()?;
    for same in [image, copy, clone] {
        assert!(rt; has_size(&same, [2, 2, 3]) && same.into_buf() == cells.as_slice());
    }
    Ok(())
}

// Whether so many cells fit a shape or not, in each kind of image, where these numbers may be one.
fn tells(
    alloc: Global,
    count: usize,
    (width, height, stride): (usize, usize, usize),
    fits: bool,
) -> Result<bool, AllocError> {
    if stride < 1 || width > stride || width > 4294967295 || height > 4294967295 {
        return Ok(true);
    }
    let mut cells = cells_of(alloc, count, 0)?;
    Ok(
        Img::new_stride(cells.as_slice(), width, height, stride).is_valid() == fits
            && Img::new_stride(cells.as_mut_slice(), width, height, stride).is_valid() == fits
            && Img::new_stride(cells, width, height, stride).is_valid() == fits,
    )
}

#[test]
fn fits_where_the_cells_reach_the_last_pixel(rt: HostRuntime) -> Result<(), Fail> {
    // The number of cells, the width, the height, the stride, and whether they make a fitting
    // image.
    for (count, width, height, stride, fits) in [
        (1, 1, 1, usize::MAX, true),
        (1, 2, 2, usize::MAX, false),
        (1, 1, 3, usize::MAX / 2 + 1, false),
        (5, 2, 2, 3, true),
        (4, 2, 2, 3, false),
        (2, 3, 1, 3, false),
        (0, 0, 3, 1, true),
        (0, 0, 4294967295, usize::MAX, true),
        (0, 3, 0, 3, true),
        (0, 1, 1, 1, false),
    ] {
        assert!(rt;
            tells(rt.alloc(), count, (width, height, stride), fits)?,
            "{count} cells for {width} by {height} at {stride}"
        );
    }
    Ok(())
}

#[test]
fn sixty_windows_lie_inside(rt: HostRuntime) -> Result<(), Fail> {
    let cells = [1u8, 2, 3, 4, 5, 6, 7, 8, 9];
    let image = Img::new_stride(cells.as_slice(), 3, 2, 4);
    let mut inside = 0u32;
    for left in 0..4 {
        for top in 0..4 {
            for width in 0..4 {
                for height in 0..4 {
                    if image.has_window(left, top, width, height) {
                        inside = inside.saturating_add(1);
                    }
                }
            }
        }
    }
    assert!(rt; inside == 60);
    assert!(rt;
        !image.has_window(18446744073709551615, 0, 1, 1)
            && !image.has_window(0, 1, 1, 18446744073709551615)
    );
    Ok(())
}
