//! Buffers without padding: the rows of an image one after the other.

ghost use Rattle.std.specs.Prelude.{◌≡◌, ◌*◌, ◌↔◌, IsOk, IfOk};
ghost use Rattle.std.specs.Borrow.{sem};
ghost use Rattle.std.specs.Vec.{vec_capacity};
ghost use Rattle.std.specs.Cow.{cow_slice_items, IsBorrowedSlice};
ghost use Rattle.image_model.specs.Layout.{Fits};
ghost use Rattle.image_model.specs.Grid.{grid_of};
ghost use Rattle.image_model.specs.Rows.{joined_rows};
ghost use Rattle.image_model.specs.Compaction.{IsPacked, packed};
ghost use Rattle.image_ops.specs.Clones.{ClonesEqual};
ghost use Rattle.imgref.specs.Image.{buf_of, width_of, height_of, stride_of, vec_grid, vec_layout, ref_layout};
ghost use Rattle.imgref.specs.Contiguous.{Rests, IsPackedFrom, vec_image};

use crate::img::{ImgRef, ImgVec};
use image_ops::contiguous;
use row_mover::pack;
use std::alloc::{AllocError, Global};
use std::borrow::CowSlice;

impl<T: Copy> ImgVec<T> {
    /// The joined rows, and the width and the height in pixels.
    ///
    /// The image keeps its size and its pixels and nothing else. Its buffer becomes exactly the
    /// joined rows, and its stride the width, or 1 at width 0. No memory is allocated or freed: the
    /// rows are moved within the buffer, and for an image that is already packed nothing is moved.
    /// (In the Rust crate the stride stays.)
    ///
    /// # Requires
    ///
    /// The image fits: `is_valid`.
    pub fn as_contiguous_buf(&mut self) -> (&[T], usize, usize)
        requires fits { Fits (vec_layout self.old) }
        ensures* after { sem 𝓛 (Rests (vec_image T.row) self.entry (IsPackedFrom self.old)) }
        ensures packed { IsPacked (packed (vec_layout self.old)) }
        ensures fits { Fits (packed (vec_layout self.old)) }
        ensures grid { grid_of (packed (vec_layout self.old)) ≡ vec_grid self.old }
        ensures joined { result.0.now ≡ joined_rows (vec_layout self.old) }
        ensures width { result.1 ≡ width_of self.old }
        ensures height { result.2 ≡ height_of self.old }
    {
        let shape = self.shape();
        self.stride = pack(&mut self.buf, shape).stride();
        let width = self.width();
        let height = self.height();
        (self.buf.as_slice(), width, height)
    }

    /// The joined rows in the image's own buffer, and the width and the height in pixels. No memory
    /// is allocated.
    ///
    /// # Requires
    ///
    /// The image fits: `is_valid`.
    pub fn into_contiguous_buf(mut self) -> (Vec<T>, usize, usize)
        requires fits { Fits (vec_layout self) }
        ensures joined { result.0.items ≡ joined_rows (vec_layout self) }
        ensures capacity { vec_capacity result.0 ≡ vec_capacity (buf_of self) }
        ensures width { result.1 ≡ width_of self }
        ensures height { result.2 ≡ height_of self }
    {
        let (_, width, height) = self.as_contiguous_buf();
        (self.into_buf(), width, height)
    }
}

impl<'a, T: Clone> ImgRef<'a, T> {
    /// The joined rows, and the width and the height in pixels.
    ///
    /// Where the width equals the stride, the rows are borrowed, as the first `width * height`
    /// cells, and no memory is allocated. Otherwise they are cloned row by row.
    ///
    /// # Requires
    ///
    /// The image fits (`is_valid`), and the clones of its pixels equal them. The latter is a fact
    /// about the pixel type, which no call tests.
    ///
    /// # Errors
    ///
    /// Out of memory, or a pixel's own `clone` failed. This never happens where the rows are
    /// borrowed or there is no pixel.
    pub fn to_contiguous_buf(
        &self,
        alloc: Global,
    ) -> Result<(CowSlice<'a, T>, usize, usize), AllocError>
        requires fits { Fits (ref_layout self.now) }
        requires clones_equal { ClonesEqual T.is_clone (joined_rows (ref_layout self.now)) }
        ensures joined { IfOk result
            (λ r. cow_slice_items r.0 ≡ joined_rows (ref_layout self.now)) }
        ensures width { IfOk result (λ r. r.1 ≡ width_of self.now) }
        ensures height { IfOk result (λ r. r.2 ≡ height_of self.now) }
        ensures borrowed { IfOk result
            (λ r. IsBorrowedSlice r.0 ↔ (width_of self.now ≡ stride_of self.now)) }
        ensures succeeds { width_of self.now ≡ stride_of self.now → IsOk result }
        ensures no_pixel { width_of self.now * height_of self.now ≡ 0 → IsOk result }
    {
        let pixels = contiguous(alloc, self.buf, self.shape())?;
        Ok((pixels, self.width(), self.height()))
    }
}
