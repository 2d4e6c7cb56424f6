//! Windows by paths, as calls.

use super::fixtures::{GREATEST, window};
use imgref::{Img, ImgRef, ImgVec};
use imgref_fixtures::PADDED;
use imgref_replay::{Window, into_window_at, window_at};
use std::test::Fail;

// Up to three windows, of which the first `count` are a path.
type Path = ([[usize; 4]; 3], usize);

const NONE: [usize; 4] = [0, 0, 0, 0];

fn windows(numbers: [[usize; 4]; 3]) -> [Window; 3] {
    [window(numbers[0]), window(numbers[1]), window(numbers[2])]
}

// Whether a path leads to a window of this width and height with these of the cells of PADDED: the
// first one's number, and how many; or else this one is its first window outside.
fn leads(image: ImgRef<'_, u8>, path: Path, due: Result<[usize; 4], usize>) -> bool {
    let (numbers, count) = path;
    let windows = windows(numbers);
    let Some(path) = windows.get(..count) else {
        return false;
    };
    if !image.is_valid() {
        return false;
    }
    match window_at(image, path) {
        Ok(found) => {
            let Ok(due) = due else {
                return false;
            };
            let (first, count) = (due[2], due[3]);
            let cells = PADDED.get(first..first.saturating_add(count));
            found.width() == due[0]
                && found.height() == due[1]
                && found.stride() == image.stride()
                && cells == Some(found.into_buf())
        }
        Err(index) => due == Err(index),
    }
}

#[test]
fn a_path_leads_to_its_window_or_ends_outside(rt: HostRuntime) {
    let image: ImgRef<'_, u8> = Img::new_stride(&PADDED, 3, 2, 4);
    let rows = [
        ([[1, 0, 2, 2], [1, 0, 1, 2], NONE], 2, Ok([1, 2, 2, 5])),
        ([[0, 1, 3, 1], [1, 0, 2, 1], NONE], 2, Ok([2, 1, 5, 2])),
        ([NONE, NONE, NONE], 0, Ok([3, 2, 0, 9])),
        (
            [[0, 0, 2, 2], [0, 0, 2, 2], [2, 0, 0, 0]],
            3,
            Ok([0, 0, 0, 0]),
        ),
        ([[3, 0, 0, 2], NONE, NONE], 1, Ok([0, 2, 0, 0])),
        ([[0, 2, 3, 0], NONE, NONE], 1, Ok([3, 0, 0, 0])),
        ([[0, 0, 3, 2], [1, 0, 3, 1], NONE], 2, Err(1)),
        ([[0, 0, 0, 2], [0, 0, 1, 1], NONE], 2, Err(1)),
        ([[0, 0, 4, 2], [0, 0, 9, 9], NONE], 2, Err(0)),
        ([[0, 1, 1, 2], NONE, NONE], 1, Err(0)),
        ([[GREATEST, 0, GREATEST, 1], NONE, NONE], 1, Err(0)),
        ([[1, GREATEST, 1, GREATEST], NONE, NONE], 1, Err(0)),
        ([[0, 0, 3, 2], [1, 1, GREATEST, GREATEST], NONE], 2, Err(1)),
    ];
    for (number, (windows, count, due)) in rows.iter().enumerate() {
        assert!(rt; leads(image, (*windows, *count), *due), "row {number}");
    }
    let far = Img::new_stride(&PADDED[..2], 2, 1, GREATEST);
    assert!(rt; leads(far, ([[1, 0, 1, 1], NONE, NONE], 1), Ok([1, 1, 1, 1])));
    // The corner of the empty window would be cell `GREATEST * 4294967294`.
    let tall = Img::new_stride(&PADDED[..0], 0, 4294967295, GREATEST);
    assert!(rt;
        leads(
            tall,
            ([[0, 4294967294, 0, 1], NONE, NONE], 1),
            Ok([0, 1, 0, 0])
        )
    );
}

#[test]
fn pixels_of_no_size_have_cells_too(rt: HostRuntime) {
    let units = [(); 9];
    let image: ImgRef<'_, ()> = Img::new_stride(&units, 3, 2, 4);
    let path = [window([1, 0, 2, 2]), window([1, 0, 1, 2])];
    let found = window_at(image, &path).map(|it| (it.width(), it.height(), it.buf().len()));
    assert!(rt; found == Ok((1, 2, 5)));
}

// Writes a value in a window, where it has the place. The result is the number of the first window
// outside, or whether the window has the place.
fn write_at<T: Copy>(
    image: &mut ImgVec<T>,
    path: &[Window],
    place: (usize, usize),
    value: T,
) -> Result<bool, usize> {
    if !image.is_valid() {
        return Ok(false);
    }
    let mut nested = into_window_at(image.as_mut(), path)?;
    let is_inside = place.0 < nested.width() && place.1 < nested.height();
    if is_inside {
        nested[place] = value;
    }
    Ok(is_inside)
}

// Each row writes in the image that the rows before it leave. Where a path ends outside nothing
// changes, and the image is borrowed again.
#[test]
fn a_write_in_a_nested_window_is_one_in_the_image(rt: HostRuntime) -> Result<(), Fail> {
    let mut image: ImgVec<u8> = Img::new_stride(PADDED.to_vec(rt.alloc())?, 3, 2, 4);
    let rows = [
        (
            [[1, 0, 2, 2], [1, 0, 1, 2]],
            2,
            (0, 1),
            70,
            Ok(true),
            [1, 2, 3, 4, 5, 6, 70, 8, 9],
        ),
        (
            [NONE, NONE],
            0,
            (0, 0),
            10,
            Ok(true),
            [10, 2, 3, 4, 5, 6, 70, 8, 9],
        ),
        (
            [[0, 0, 3, 2], [1, 0, 3, 1]],
            2,
            (0, 0),
            90,
            Err(1),
            [10, 2, 3, 4, 5, 6, 70, 8, 9],
        ),
        (
            [[2, 1, 1, 1], NONE],
            1,
            (0, 0),
            71,
            Ok(true),
            [10, 2, 3, 4, 5, 6, 71, 8, 9],
        ),
        (
            [[2, 1, 1, 1], NONE],
            1,
            (1, 0),
            90,
            Ok(false),
            [10, 2, 3, 4, 5, 6, 71, 8, 9],
        ),
    ];
    for (number, (path, count, place, value, due, cells)) in rows.iter().enumerate() {
        let windows = [window(path[0]), window(path[1])];
        let written = match windows.get(..*count) {
            Some(path) => write_at(&mut image, path, *place, *value),
            None => Err(GREATEST),
        };
        assert!(rt; written == *due, "row {number}");
        assert!(rt; image.buf().as_slice() == cells.as_slice(), "row {number}");
    }
    assert!(rt; (image.width(), image.height(), image.stride()) == (3, 2, 4));
    Ok(())
}

#[test]
fn pixels_of_no_size_are_written(rt: HostRuntime) -> Result<(), Fail> {
    let mut image: ImgVec<()> = Img::new_stride([(); 9].to_vec(rt.alloc())?, 3, 2, 4);
    let (inside, outside) = (window([1, 1, 2, 1]), window([1, 1, 3, 1]));
    assert!(rt; write_at(&mut image, &[inside], (1, 0), ()) == Ok(true));
    assert!(rt; write_at(&mut image, &[outside], (1, 0), ()) == Err(0));
    Ok(())
}
