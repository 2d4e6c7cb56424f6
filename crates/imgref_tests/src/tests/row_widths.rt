//! Rows of each width up to two blocks of 64 bytes and more. They are copied, compared and cloned by
//! parts whose lengths the compiler knows.

ghost use Rattle.std.specs.Prelude.{◌≡◌, ◌+◌, ◌<◌};

use imgref::{Img, ImgVec};
use std::alloc::{AllocError, Global};
use std::process::Abort;
use std::test::Fail;

// Two rows of a width at a stride, with numbers from one on as cells.
fn numbered<T: Copy + Drop + From<u8>>(
    alloc: Global,
    width: usize,
    padding: usize,
    first: usize,
) -> Result<ImgVec<T>, AllocError>
    requires width { width < 200 }
    requires padding { padding < 9 }
    requires first { first < 200 }
{
    let stride = (width + padding).max(1);
    let mut cells = vec![in alloc; T::from(0); 2 * stride]?;
    for k in 0..2 * stride {
        cells[k] = T::from(((first + k) % 251) as u8);
    }
    Ok(Img::new_stride(cells, width, 2, stride))
}

// An image of two rows is copied to one with other padding. Then it is equal, and no longer once
// a pixel is another one. Its rows are cloned one after the other.
fn check_width<T: Copy + Drop + PartialEq + From<u8>>(
    rt: &impl Abort,
    alloc: Global,
    width: usize,
    padding: usize,
    other: usize,
) -> Result<(), AllocError>
    requires width { width < 200 }
    requires padding { padding < 9 }
    requires other { other < 9 }
    requires clones_equal { (x y : T) → T.is_clone x y → y ≡ x }
{
    let source = numbered::<T>(alloc, width, padding, 0)?;
    let mut target = numbered::<T>(alloc, width, other, 100)?;
    assert!(rt; source.is_valid() && target.is_valid());
    assert!(rt; source.width() == target.width() && source.height() == target.height());
    assert!(rt; width == 0 || target != source);
    target.copy_from(source.as_ref());
    assert!(rt; target == source);
    for x in 0..width {
        for y in 0..2 {
            assert!(rt; source.is_valid() && target.is_valid());
            assert!(rt; x < target.width() && y < target.height());
            let Some(pixel) = source.get(x, y) else {
                continue;
            };
            assert!(rt; target.get(x, y) == Some(pixel));
            target.put(x, y, T::from(255));
            assert!(rt; target != source);
            target.put(x, y, pixel);
        }
    }
    assert!(rt; target == source && source.is_valid());
    let pixels: Vec<T> = source.pixels().collect(alloc)?;
    let (joined, _, _) = source.as_ref().to_contiguous_buf(alloc)?;
    assert!(rt; joined.as_ref() == pixels.as_slice());
    Ok(())
}

// Every width below this one, packed and padded.
fn check_each_width<T: Copy + Drop + PartialEq + From<u8>>(
    rt: &impl Abort,
    alloc: Global,
    widths: usize,
) -> Result<(), AllocError>
    requires widths { widths < 200 }
    requires clones_equal { (x y : T) → T.is_clone x y → y ≡ x }
{
    for width in 0..widths {
        for (padding, other) in [(0, 0), (0, 3), (3, 0), (1, 8)] {
            check_width::<T>(rt, alloc, width, padding, other)?;
        }
    }
    Ok(())
}

#[test]
fn rows_of_each_width_are_copied_compared_and_cloned(rt: HostRuntime) -> Result<(), Fail> {
    check_each_width::<u8>(&rt, rt.alloc(), 140)?;
    check_each_width::<u16>(&rt, rt.alloc(), 70)?;
    check_each_width::<u32>(&rt, rt.alloc(), 36)?;
    check_each_width::<u64>(&rt, rt.alloc(), 20)?;
    Ok(())
}
