//! Images that are turned in place, and columns and rows that change places.

use imgref::{AsMutSlice, Img, ImgVec, Turn};
use std::test::Fail;

// Three by three, with a cell of padding after each row but the last.
const SQUARE: [u8; 11] = [1, 2, 3, 100, 4, 5, 6, 101, 7, 8, 9];

// Three by two, with a cell of padding after the first row.
const LOW: [u8; 7] = [1, 2, 3, 100, 4, 5, 6];

#[derive(Clone, Copy)]
enum Change {
    Transpose,
    Turn(Turn),
    Rows,
    Columns,
    TwoColumns(usize, usize),
}

// Changes an image where the condition of the call holds, and returns whether it does.
fn changes<C: AsMutSlice<Item = u8>>(image: &mut Img<C>, change: Change) -> bool {
    if !image.is_valid() {
        return false;
    }
    let is_square = image.width() == image.height();
    match change {
        Change::Transpose if is_square => image.transpose(),
        Change::Turn(turn) if is_square => image.turn(turn),
        Change::Turn(Turn::Half) => image.turn(Turn::Half),
        Change::Rows => image.flip_rows(),
        Change::Columns => image.flip_columns(),
        Change::TwoColumns(x, z) if x < image.width() && z < image.width() => {
            image.swap_columns(x, z);
        }
        _ => return false,
    }
    true
}

#[test]
fn squares_are_turned_in_place(rt: HostRuntime) -> Result<(), Fail> {
    for (change, after) in [
        (Change::Transpose, [1, 4, 7, 100, 2, 5, 8, 101, 3, 6, 9]),
        (
            Change::Turn(Turn::Right),
            [7, 4, 1, 100, 8, 5, 2, 101, 9, 6, 3],
        ),
        (
            Change::Turn(Turn::Half),
            [9, 8, 7, 100, 6, 5, 4, 101, 3, 2, 1],
        ),
        (
            Change::Turn(Turn::Left),
            [3, 6, 9, 100, 2, 5, 8, 101, 1, 4, 7],
        ),
        (Change::Rows, [7, 8, 9, 100, 4, 5, 6, 101, 1, 2, 3]),
        (Change::Columns, [3, 2, 1, 100, 6, 5, 4, 101, 9, 8, 7]),
        (
            Change::TwoColumns(0, 1),
            [2, 1, 3, 100, 5, 4, 6, 101, 8, 7, 9],
        ),
    ] {
        let mut owned: ImgVec<u8> = Img::new_stride(SQUARE.to_vec(rt.alloc())?, 3, 3, 4);
        let mut cells = SQUARE;
        assert!(rt; changes(&mut owned, change));
        assert!(rt; changes(&mut Img::new_stride(cells.as_mut_slice(), 3, 3, 4), change));
        assert!(rt; owned.into_buf().as_slice() == after.as_slice() && cells == after);
    }
    Ok(())
}
