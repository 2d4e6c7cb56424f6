//! Borrowed cells, split in two.

ghost use Rattle.std.specs.Prelude.{◌≡◌, ◌≤◌, length};
ghost use Rattle.std.specs.Borrow.{sem, follows_both, Array};
ghost use Rattle.image_rows.specs.Rows.{near, far, beside};

use image_shape::End;

// The cells on that side of cell `at`, and those on the other side.
pub(crate) fn part<T>(cells: &mut [T], end: End, at: usize) -> (&mut [T], &mut [T])
    requires within { at ≤ length cells.old }
    ensures* parts { sem 𝓛 (follows_both (Array T.row 0) (Array T.row 0) (Array T.row 0)
        cells.entry.ghost_name result.0.ghost_name result.1.ghost_name (beside end)) }
    ensures first { result.0.now ≡ near end at cells.old }
    ensures second { result.1.now ≡ far end at cells.old }
{
    let (front, back) = cells.split_at_mut(at);
    match end {
        End::First => (front, back),
        End::Last => (back, front),
    }
}

/// Two parts of the cells, at the given end. One is the cells between the inner and the outer cut,
/// the other the cells on the far side of the outer cut. The cells on the near side of the inner
/// cut aren't returned, and stay as they are.
///
/// This splits rows and bands off. The inner cut is counted from the first of the cells that the
/// outer cut splits off.
///
/// # Requires
///
/// The outer cut is within the cells, and the inner one within the cells that the outer one splits
/// off.
pub fn cut_out<T>(cells: &mut [T], end: End, outer: usize, inner: usize) -> (&mut [T], &mut [T])
    requires outer { outer ≤ length cells.old }
    requires inner { inner ≤ length (near end outer cells.old) }
    ensures* parts { sem 𝓛 (follows_both (Array T.row 0) (Array T.row 0) (Array T.row 0)
        cells.entry.ghost_name result.0.ghost_name result.1.ghost_name (λ cut kept.
        beside end (beside end (near end inner (near end outer cells.old)) cut) kept)) }
    ensures first { result.0.now ≡ far end inner (near end outer cells.old) }
    ensures second { result.1.now ≡ far end outer cells.old }
{
    let (piece, kept) = part(cells, end, outer);
    let (_, cut) = part(piece, end, inner);
    (cut, kept)
}
