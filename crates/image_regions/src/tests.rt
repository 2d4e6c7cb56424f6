//! Each call once, with values that were worked out by hand.

use crate::{
    area, bounding_box, components, equalize, flood_fill, histogram, histogram_u16, integral,
    map_by, sums_fit,
};
use imgref::{Img, ImgRef, ImgVec, Window};
use std::test::Fail;

// Three by two, with a cell of padding after the first row. The counts up to 10, 20 and 30 are 2, 5
// and 6 of 6.
const LOW: [u8; 7] = [10, 10, 20, 99, 30, 20, 20];

#[test]
fn values_are_counted_and_spread(rt: HostRuntime) -> Result<(), Fail> {
    let mut image: ImgVec<u8> = Img::new_stride(LOW.to_vec(rt.alloc())?, 3, 2, 4);
    assert!(rt; image.is_valid());
    let counts = histogram(image.as_ref());
    assert!(rt; counts[10] == 2 && counts[20] == 3 && counts[30] == 1 && counts[99] == 0);
    equalize(&mut image);
    assert!(rt; image.buf().as_slice() == [85u8, 85, 212, 99, 255, 212, 212].as_slice());
    let words = Img::new([7u16, 65535, 7].as_slice(), 3, 1);
    assert!(rt; words.is_valid());
    let counts = histogram_u16(rt.alloc(), words)?;
    assert!(rt; counts.len() == 65536 && counts[7] == 2 && counts[65535] == 1 && counts[0] == 0);
    Ok(())
}

#[test]
fn values_are_looked_up(rt: HostRuntime) -> Result<(), Fail> {
    let image = Img::new_stride(LOW.as_slice(), 3, 2, 4);
    assert!(rt; image.is_valid());
    let mut table = [0u32; 256];
    table[10] = 7;
    table[30] = 70000;
    let made = map_by(rt.alloc(), image, &table)?;
    assert!(rt; made.width() == 3 && made.height() == 2);
    assert!(rt; made.into_buf().as_slice() == [7u32, 7, 0, 70000, 0, 0].as_slice());
    Ok(())
}

#[test]
fn areas_are_summed(rt: HostRuntime) -> Result<(), Fail> {
    let image = Img::new_stride(LOW.as_slice(), 3, 2, 4);
    assert!(rt; image.is_valid() && sums_fit(image));
    let areas = integral(rt.alloc(), image)?;
    assert!(rt; areas.into_buf().as_slice() == [10u64, 20, 40, 40, 70, 110].as_slice());
    Ok(())
}

// Five by four, with a cell of padding after each row but the last: a ring of ones around a hole.
const RING: [u8; 23] = [
    1, 1, 1, 0, 1, 1, 1, 0, 1, 0, 0, 1, 1, 1, 1, 1, 0, 1, 0, 0, 1, 0, 0,
];

// The same after a fill of the ring with 7.
const SEVENS: [u8; 23] = [
    7, 7, 7, 0, 1, 1, 7, 0, 7, 0, 0, 1, 7, 7, 7, 7, 0, 1, 0, 0, 7, 0, 0,
];

// And after a fill of the zeros on its right with 9.
const NINES: [u8; 23] = [
    7, 7, 7, 9, 1, 1, 7, 0, 7, 9, 9, 1, 7, 7, 7, 7, 9, 1, 0, 0, 7, 9, 9,
];

#[test]
fn a_fill_goes_to_what_is_connected(rt: HostRuntime) -> Result<(), Fail> {
    let mut image: ImgVec<u8> = Img::new_stride(RING.to_vec(rt.alloc())?, 5, 4, 6);
    assert!(rt; image.is_valid());
    flood_fill(rt.alloc(), &mut image, 2, 2, 7)?;
    assert!(rt; image.buf().as_slice() == SEVENS.as_slice() && image.is_valid());
    flood_fill(rt.alloc(), &mut image, 1, 1, 0)?;
    flood_fill(rt.alloc(), &mut image, 4, 0, 1)?;
    assert!(rt; image.buf().as_slice() == SEVENS.as_slice() && image.is_valid());
    flood_fill(rt.alloc(), &mut image, 4, 3, 9)?;
    assert!(rt; image.buf().as_slice() == NINES.as_slice());
    Ok(())
}

// Whether a label has so many places, and what is around them.
fn is_found(labels: ImgRef<'_, u64>, label: u64, count: usize, around: Option<Window>) -> bool {
    labels.is_valid() && area(labels, label) == count && bounding_box(labels, label) == around
}

#[test]
fn regions_have_labels_and_boxes(rt: HostRuntime) -> Result<(), Fail> {
    let image: ImgRef<'_, u8> = Img::new_stride(RING.as_slice(), 5, 4, 6);
    assert!(rt; image.is_valid());
    let regions = components(rt.alloc(), image)?;
    let labels = regions.labels.as_ref();
    assert!(rt; regions.count == 5 && labels.width() == 5 && labels.height() == 4);
    for (label, count, around) in [
        (1, 10, Some(Window::new(0, 0, 4, 4))),
        (2, 6, Some(Window::new(3, 0, 2, 4))),
        (3, 1, Some(Window::new(4, 0, 1, 1))),
        (4, 1, Some(Window::new(1, 1, 1, 1))),
        (5, 2, Some(Window::new(0, 3, 2, 1))),
        (0, 0, None),
        (6, 0, None),
    ] {
        assert!(rt; is_found(labels, label, count, around));
    }
    Ok(())
}
