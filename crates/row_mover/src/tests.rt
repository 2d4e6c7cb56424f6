use crate::RowMover;
use std::process::Abort;

/// A picture of 3 by 3 pixels at stride 4: rows 1 2 3, 4 5 6 and 7 8 9, with padding 0.
const PICTURE: [u8; 11] = [1, 2, 3, 0, 4, 5, 6, 0, 7, 8, 9];

// A mover has made so many shifts, and has these cells.
fn check_left(rt: &impl Abort, mover: RowMover<'_, u8>, shifts: u64, cells: &[u8]) {
    assert_eq!(rt; mover.shifts(), shifts);
    assert_eq!(rt; &*mover.into_cells(), cells);
}

// A window of 2 by 2 pixels of the picture moves from a cell to another.
fn check_window(rt: &impl Abort, from: usize, to: usize, cells: [u8; 11]) {
    assert!(rt; from <= 5 && to <= 5);
    let mut picture = PICTURE;
    let mut mover = RowMover::new(&mut picture);
    mover.move_rows(4, from, to, 2, 2);
    check_left(rt, mover, 2, &cells);
}

#[test]
fn a_new_mover_has_the_cells_and_no_shift(rt: HostRuntime) {
    let mut cells = [1u8, 2, 3, 4];
    let mover = RowMover::new(&mut cells);
    assert_eq!(rt; mover.cells(), [1u8, 2, 3, 4].as_slice());
    check_left(&rt, mover, 0, &[1, 2, 3, 4]);
}

#[test]
fn shifts_an_overlapping_stretch(rt: HostRuntime) {
    let mut cells = [1u8, 2, 3, 4];
    let mut mover = RowMover::new(&mut cells);
    mover.shift(1, 3, 0);
    check_left(&rt, mover, 1, &[2, 3, 4, 4]);
}

#[test]
fn moves_a_window_towards_the_back(rt: HostRuntime) {
    check_window(&rt, 0, 5, [1, 2, 3, 0, 4, 1, 2, 0, 7, 4, 5]);
}

#[test]
fn a_dropped_mover_leaves_what_it_moved(rt: HostRuntime) {
    let mut cells = PICTURE;
    let mut mover = RowMover::new(&mut cells);
    mover.move_rows(4, 0, 5, 2, 2);
    drop(mover);
    assert_eq!(rt; cells, [1u8, 2, 3, 0, 4, 1, 2, 0, 7, 4, 5]);
}

#[test]
fn moves_a_window_towards_the_front(rt: HostRuntime) {
    check_window(&rt, 5, 0, [5, 6, 3, 0, 8, 9, 6, 0, 7, 8, 9]);
}

#[test]
fn moves_rows_that_touch(rt: HostRuntime) {
    let mut cells = [1u8, 2, 3, 4, 5, 6, 7, 8];
    let mut mover = RowMover::new(&mut cells);
    mover.move_rows(3, 0, 2, 3, 2);
    check_left(&rt, mover, 2, &[1, 2, 1, 2, 3, 4, 5, 6]);
}

#[test]
fn moves_one_row_within_itself_and_counts_a_move_to_the_same_place(rt: HostRuntime) {
    let mut cells = [1u8, 2, 3, 4];
    let mut mover = RowMover::new(&mut cells);
    mover.move_rows(4, 0, 1, 3, 1);
    assert_eq!(rt; mover.shifts(), 1);
    assert_eq!(rt; mover.cells(), [1u8, 1, 2, 3].as_slice());
    mover.move_rows(4, 2, 2, 2, 1);
    check_left(&rt, mover, 2, &[1, 1, 2, 3]);
}

#[test]
fn the_corners_of_an_empty_window_are_not_looked_at(rt: HostRuntime) {
    let mut cells = [1u8, 2, 3, 4];
    let mut mover = RowMover::new(&mut cells);
    mover.move_rows(1, 99, 99, 0, 3);
    mover.move_rows(usize::MAX, usize::MAX, 0, usize::MAX, 0);
    check_left(&rt, mover, 0, &[1, 2, 3, 4]);
}

#[test]
fn compacts_and_keeps_later_cells(rt: HostRuntime) {
    let mut cells = [1u8, 2, 3, 4, 5];
    let mut mover = RowMover::new(&mut cells);
    mover.compact_rows(1, 3, 2);
    check_left(&rt, mover, 2, &[1, 3, 5, 4, 5]);
}

#[test]
fn compacts_once_and_then_does_nothing(rt: HostRuntime) {
    let mut cells = [1u8, 2, 0, 3, 4, 0, 5, 6];
    let mut mover = RowMover::new(&mut cells);
    mover.compact_rows(2, 3, 3);
    assert_eq!(rt; mover.shifts(), 2);
    assert_eq!(rt; mover.cells(), [1u8, 2, 3, 4, 5, 6, 5, 6].as_slice());
    mover.compact_rows(2, 3, 2);
    check_left(&rt, mover, 2, &[1, 2, 3, 4, 5, 6, 5, 6]);
}

#[test]
fn an_image_with_no_pixel_needs_no_shift(rt: HostRuntime) {
    let mut cells = [9u8];
    let mut mover = RowMover::new(&mut cells);
    mover.compact_rows(0, usize::MAX, usize::MAX);
    mover.compact_rows(usize::MAX, 0, usize::MAX);
    check_left(&rt, mover, 0, &[9]);
}

#[test]
fn moves_cells_of_no_size_by_the_greatest_numbers(rt: HostRuntime) {
    moves_by_the_greatest_numbers::<{ usize::MAX }>(&rt);
}

// Generic, since the check would count the elements of an array of known length one by one.
fn moves_by_the_greatest_numbers<const N: usize>(rt: &impl Abort) {
    assert_eq!(rt; N, usize::MAX);
    let mut cells = [(); N];
    let mut mover = RowMover::new(&mut cells);
    mover.compact_rows(2, 2, N - 2);
    mover.move_rows(N - 3, 0, 1, 2, 2);
    mover.shift(N, 0, N);
    assert_eq!(rt; mover.shifts(), 4);
    assert_eq!(rt; mover.into_cells().len(), N);
}

// Three rows of a width move from a cell to another, and each cell is compared with what it was.
fn check_move<T: Copy + PartialEq>(
    rt: &impl Abort,
    old: &[T],
    cells: &mut [T],
    width: usize,
    from: usize,
    to: usize,
) {
    assert!(rt; 0 < width && width < 100 && from < 100 && to < 100);
    assert!(rt; old.len() == 500 && cells.len() == 500);
    let stride = width + 1;
    let mut mover = RowMover::new(cells);
    mover.move_rows(stride, from, to, width, 3);
    let cells = mover.into_cells();
    assert!(rt; cells.len() == 500);
    for k in 0..500 {
        let is_moved = k >= to && (k - to) / stride < 3 && (k - to) % stride < width;
        let expected = if is_moved { from + (k - to) } else { k };
        assert!(rt; expected < 500 && cells[k] == old[expected]);
    }
}

// Three rows of a width are joined, and each cell is compared with what it was.
fn check_joined<T: Copy + PartialEq>(rt: &impl Abort, old: &[T], cells: &mut [T], width: usize) {
    assert!(rt; 0 < width && width < 100);
    assert!(rt; old.len() == 500 && cells.len() == 500);
    let stride = width + 1;
    let mut mover = RowMover::new(cells);
    mover.compact_rows(width, 3, stride);
    let cells = mover.into_cells();
    assert!(rt; cells.len() == 500);
    for k in 0..500 {
        let expected = if k / width < 3 {
            k / width * stride + k % width
        } else {
            k
        };
        assert!(rt; expected < 500 && cells[k] == old[expected]);
    }
}

// Rows of each width up to 69 go within themselves, down, up and across.
fn check_widths<T: Copy + PartialEq, const N: usize>(rt: &impl Abort, old: &[T; N]) {
    assert!(rt; N == 500);
    for width in 1..70 {
        for (from, to) in [(0, 1), (1, 0), (0, width + 1), (width + 1, 0), (2, 5)] {
            let mut cells = *old;
            check_move(rt, old, &mut cells, width, from, to);
        }
        let mut cells = *old;
        check_joined(rt, old, &mut cells, width);
    }
}

// Cells that are their own numbers, from 0 again after 250.
fn numbered<T: Copy + From<u8>>() -> [T; 500] {
    let mut cells = [T::from(0u8); 500];
    for k in 0..500 {
        cells[k] = T::from((k % 251) as u8);
    }
    cells
}

#[test]
fn moves_and_joins_bytes_of_each_width(rt: HostRuntime) {
    check_widths(&rt, &numbered::<u8>());
}

#[test]
fn moves_and_joins_words_of_each_width(rt: HostRuntime) {
    check_widths(&rt, &numbered::<u32>());
}
