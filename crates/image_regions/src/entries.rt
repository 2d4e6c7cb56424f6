//! Images by a table of values.

ghost use Rattle.std.specs.Prelude.{◌≡◌, ◌*◌, IfOk, IsOk, slice_index_or};
ghost use Rattle.image_model.specs.Compaction.{least_stride};
ghost use Rattle.imgref.specs.Words.{Fits, height_of, mapped, ref_grid, ref_layout, stride_of, vec_grid, vec_layout, width_of};

use imgref::{ImgRef, ImgVec};
use std::alloc::{AllocError, Global};

// What a table has for a value.
fn entry<U: Copy>(table: &[U; 256], value: u8) -> U
    ensures { (other : U) → result ≡ slice_index_or table.now value other }
{
    table[usize::from(value)]
}

/// The image whose pixels are the table's entries for the values of this one: entry `v` for `v`.
/// There is no padding: the stride is the width, or 1 for width 0. (OpenCV's `LUT`.)
///
/// # Requires
///
/// The image fits: `is_valid`.
///
/// # Errors
///
/// Out of memory. This never happens where there is no pixel.
pub fn map_by<U: Copy>(
    alloc: Global,
    image: ImgRef<'_, u8>,
    table: &[U; 256],
) -> Result<ImgVec<U>, AllocError>
    requires { Fits (ref_layout image) }
    ensures grid { IfOk result (λ i. (other : U) → vec_grid i
        ≡ mapped (λ v. slice_index_or table.now v other) (ref_grid image.entry)) }
    ensures stride { IfOk result (λ i. stride_of i ≡ least_stride (width_of image.entry)) }
    ensures fits { IfOk result (λ i. Fits (vec_layout i)) }
    ensures succeeds { width_of image.entry * height_of image.entry ≡ 0 → IsOk result }
{
    let first = table[0];
    let mut made = ImgVec::from_places(
        alloc,
        image.width(),
        image.height(),
        |_x: usize, _y: usize| -> U
            ensures { result ≡ first }
        { first },
    )?;
    made.zip_pixels(
        image,
        |_old: U, value: u8| -> U
            ensures { (other : U) → result ≡ slice_index_or table.entry.now value other }
        { entry(table, value) },
    );
    Ok(made)
}
