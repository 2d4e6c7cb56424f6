//! What the examples by places leave and return, by values worked out by hand.

ghost use Rattle.imgref.specs.Words.{Fits, vec_layout};

use crate::{
    are_connected, blend, bounding_box, count_above, equalize, exchange_and_mirror, fill_disc,
    gaussian_3x3, halve, histogram, integral, ramp, sum_up_to, thin, turn_into_window, turn_lent,
    turn_right, window_sum,
};
use image_regions::sums_fit;
use imgref::{Img, ImgRef, ImgVec, Window};
use std::alloc::{AllocError, Global};
use std::test::Fail;

// Four by three, with a cell of padding after each row but the last.
const CELLS: [u8; 14] = [5, 7, 5, 0, 99, 7, 5, 255, 7, 99, 5, 5, 0, 7];

// Three by two, with a cell of padding after the first row.
const LOW: [u8; 7] = [1, 2, 3, 100, 4, 5, 6];

// Whether a value is so often in the image, and what is around it.
fn is_found(image: ImgRef<'_, u8>, value: u8, count: u64, around: Option<Window>) -> bool {
    image.is_valid()
        && histogram(image)[usize::from(value)] == count
        && bounding_box(image, value) == around
}

#[test]
fn values_are_counted_and_framed(rt: HostRuntime) -> Result<(), Fail> {
    let image = Img::new_stride(CELLS.as_slice(), 4, 3, 5);
    for (value, count, around) in [
        (5, 5, Some(Window::new(0, 0, 3, 3))),
        (7, 4, Some(Window::new(0, 0, 4, 3))),
        (0, 2, Some(Window::new(2, 0, 2, 3))),
        (255, 1, Some(Window::new(2, 1, 1, 1))),
        (99, 0, None),
    ] {
        assert!(rt; is_found(image, value, count, around));
    }
    assert!(rt; is_found(Img::new_stride(CELLS.as_slice(), 0, 3, 5), 5, 0, None));
    assert!(rt; image.is_valid());
    assert!(rt; window_sum(image, Window::new(1, 0, 2, 2)) == 272 && count_above(image, 5) == 5);
    let half = halve(rt.alloc(), image)?;
    assert!(rt; half.width() == 2 && half.height() == 1);
    assert!(rt; half.into_buf().as_slice() == [6u8, 66].as_slice());
    let smooth = gaussian_3x3(rt.alloc(), Img::new([0u8, 0, 64, 0, 0].as_slice(), 5, 1))?;
    assert!(rt; smooth.into_buf().as_slice() == [0u8, 16, 32, 16, 0].as_slice());
    Ok(())
}

#[test]
fn an_image_is_made_from_its_places(rt: HostRuntime) -> Result<(), Fail> {
    let made = ramp(rt.alloc(), 4, 2)?;
    assert!(rt; made.width() == 4 && made.height() == 2 && made.stride() == 4);
    assert!(rt; made.into_buf().as_slice() == [0u8, 63, 127, 191, 0, 63, 127, 191].as_slice());
    let empty = ramp(rt.alloc(), 0, 2)?;
    assert!(rt; empty.width() == 0 && empty.height() == 2 && empty.into_buf().len() == 0);
    Ok(())
}

fn low(alloc: Global) -> Result<ImgVec<u8>, AllocError> {
    Ok(Img::new_stride(LOW.to_vec(alloc)?, 3, 2, 4))
}

#[test]
fn images_are_changed_by_places(rt: HostRuntime) -> Result<(), Fail> {
    let source = Img::new_stride(LOW.as_slice(), 3, 2, 4);
    let mut mixed = low(rt.alloc())?;
    let mut drawn = low(rt.alloc())?;
    let mut crossed = low(rt.alloc())?;
    assert!(rt; source.is_valid() && mixed.is_valid() && drawn.is_valid() && crossed.is_valid());
    assert!(rt; mixed.width() == 3 && mixed.height() == 2 && crossed.width() == 3);
    let over = Img::new([101u8, 202, 3, 4, 255, 16].as_slice(), 3, 2);
    assert!(rt; over.is_valid());
    blend(&mut mixed, over, 51);
    assert!(rt; mixed.into_buf().as_slice() == [21u8, 42, 3, 100, 4, 55, 8].as_slice());
    fill_disc(&mut drawn, 0, 1, 1, 9);
    assert!(rt; drawn.into_buf().as_slice() == [9u8, 2, 3, 100, 9, 9, 6].as_slice());
    exchange_and_mirror(&mut crossed, 0, 1);
    assert!(rt; crossed.into_buf().as_slice() == [3u8, 1, 2, 100, 6, 4, 5].as_slice());
    Ok(())
}

#[test]
fn values_are_spread_and_summed(rt: HostRuntime) -> Result<(), Fail> {
    let mut image = low(rt.alloc())?;
    assert!(rt; image.is_valid() && sums_fit(image.as_ref()));
    assert!(rt; image.width() == 3 && image.height() == 2);
    let areas = integral(rt.alloc(), image.as_ref())?;
    assert!(rt; areas.into_buf().as_slice() == [1u64, 3, 6, 5, 12, 21].as_slice());
    assert!(rt; sum_up_to(rt.alloc(), image.as_ref(), 1, 1)? == 12);
    equalize(&mut image);
    assert!(rt; image.into_buf().as_slice() == [42u8, 85, 127, 100, 170, 212, 255].as_slice());
    Ok(())
}

#[test]
fn places_are_connected_over_sides(rt: HostRuntime) -> Result<(), Fail> {
    let image = Img::new_stride(CELLS.as_slice(), 4, 3, 5);
    assert!(rt; image.is_valid() && image.width() == 4 && image.height() == 3);
    assert!(rt; are_connected(rt.alloc(), image, (1, 1), (0, 2))?);
    assert!(rt; are_connected(rt.alloc(), image, (2, 0), (2, 0))?);
    assert!(rt; !are_connected(rt.alloc(), image, (0, 0), (1, 1))?);
    assert!(rt; !are_connected(rt.alloc(), image, (1, 0), (0, 1))?);
    Ok(())
}

#[test]
fn a_square_is_thinned_to_its_middle(rt: HostRuntime) -> Result<(), Fail> {
    let square = Img::new([7u8; 9].as_slice(), 3, 3);
    assert!(rt; square.is_valid());
    let middle = thin(rt.alloc(), square)?;
    assert!(rt; middle.into_buf().as_slice() == [0u8, 0, 0, 0, 7, 0, 0, 0, 0].as_slice());
    let line = Img::new([7u8, 7, 7, 7].as_slice(), 4, 1);
    assert!(rt; line.is_valid());
    let same = thin(rt.alloc(), line)?;
    assert!(rt; same.into_buf().as_slice() == [7u8, 7, 7, 7].as_slice());
    Ok(())
}
