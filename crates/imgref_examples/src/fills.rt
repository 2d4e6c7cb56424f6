//! What scaled images and sprites with masks leave, by values worked out by hand.

use crate::{blend_masked, half_ramp, resize_nearest};
use imgref::{Img, ImgRefMut, ImgVec};
use std::test::Fail;

// Two by two, with a cell of padding after the first row.
const SMALL: [u8; 5] = [1, 2, 9, 3, 4];

#[test]
fn an_image_is_scaled(rt: HostRuntime) -> Result<(), Fail> {
    let source = Img::new_stride(SMALL.as_slice(), 2, 2, 3);
    let mut cells = [0u8; 14];
    let mut target = ImgRefMut::new_stride(cells.as_mut_slice(), 4, 3, 5);
    assert!(rt; source.is_valid() && target.is_valid());
    resize_nearest(source, &mut target);
    assert!(rt; cells == [1, 1, 2, 2, 0, 1, 1, 2, 2, 0, 3, 3, 4, 4]);
    let mut cells = [0u8; 2];
    let mut target = ImgRefMut::new(cells.as_mut_slice(), 1, 2);
    assert!(rt; target.is_valid());
    resize_nearest(source, &mut target);
    assert!(rt; cells == [1, 3]);
    let half = half_ramp(rt.alloc())?;
    assert!(rt; half.is_valid() && half.width() == 250 && half.height() == 350);
    assert!(rt; half.get(0, 0) == Some(0) && half.get(249, 349) == Some(249));
    Ok(())
}

#[test]
fn a_mask_shows_parts_of_a_sprite(rt: HostRuntime) -> Result<(), Fail> {
    let sprite = Img::new([100u8, 200].as_slice(), 2, 1);
    let mask = Img::new([255u8, 51].as_slice(), 2, 1);
    let mut image: ImgVec<u8> = Img::new_stride(vec![in rt.alloc(); 50u8; 8]?, 3, 2, 4);
    assert!(rt; sprite.is_valid() && mask.is_valid() && image.is_valid());
    blend_masked(&mut image, sprite, mask, 1, 1);
    assert!(rt; image.buf().as_slice() == [50u8, 50, 50, 50, 50, 100, 80, 50].as_slice());
    Ok(())
}
