//! The whole buffer of an image, padding included, stride by stride.

ghost use Rattle.std.specs.Prelude.{◌≡◌, ◌/◌, ◌<◌, length, List};
ghost use Rattle.std.specs.Borrow.{sem, follows, Array};
ghost use Rattle.std.specs.Slice.Iter.{chunks_rest, chunks_size, chunks_steps, chunks_steps_back, chunks_mut_rest, chunks_mut_size, chunks_mut_steps};
ghost use Rattle.std.specs.Iterator.Runs.{EveryRun, IsChunksRun, IsChunksRunBack, IsChunksMutRun};
ghost use Rattle.image_model.specs.Layout.{Layout};
ghost use Rattle.imgref.specs.Image.{buf_of, layout_by, with_all, ref_layout, mut_layout};

use crate::containers::{AsMutSlice, AsSlice};
use crate::img::{Img, ImgRef, ImgRefMut};
use std::slice::{Chunks, ChunksMut};

/// An image read as its whole buffer, cut into strides. It need not fit.
pub trait ImgExt<Pixel> {
    /// The cells, the size and the stride.
    ghost layout_of: { Self → Layout Pixel };

    /// The number of cells from the start of a row to the start of the next one: the stride.
    fn width_padded(&self) -> usize
        ensures { result ≡ (layout_of self.now).stride };

    /// The number of whole strides in the buffer; the cells past the last of them are ignored.
    fn height_padded(&self) -> usize
        ensures { result ≡ length (layout_of self.now).cells / (layout_of self.now).stride };

    /// The whole buffer, a stride at a time; the last piece may be shorter.
    fn rows_padded(&self) -> Chunks<'_, Pixel>
        ensures cells { chunks_rest result ≡ (layout_of self.now).cells }
        ensures size { chunks_size result ≡ (layout_of self.now).stride }
        ensures positive { 0 < chunks_size result }
        ensures runs { EveryRun (chunks_steps {A = Pixel}) (λ p. 0 < chunks_size p.from
            → IsChunksRun p (chunks_size p.from) (chunks_rest p.from)) }
        ensures runs_back { EveryRun (chunks_steps_back {A = Pixel}) (λ p. 0 < chunks_size p.from
            → IsChunksRunBack p (chunks_size p.from) (chunks_rest p.from)) };

    /// The whole image for reading.
    fn as_ref(&self) -> ImgRef<'_, Pixel>
        ensures { ref_layout result ≡ layout_of self.now };
}

impl<Pixel, C: AsSlice<Item = Pixel>> ImgExt<Pixel> for Img<C> {
    ghost layout_of = { layout_by C.cells };

    fn width_padded(&self) -> usize {
        self.stride()
    }

    fn height_padded(&self) -> usize {
        self.shape().whole_rows(self.buf.as_slice().len())
    }

    fn rows_padded(&self) -> Chunks<'_, Pixel> {
        self.buf.as_slice().chunks(self.stride())
    }

    fn as_ref(&self) -> ImgRef<'_, Pixel> {
        Img::from_parts(self.buf.as_slice(), self.shape())
    }
}

/// An image written as its whole buffer. It need not fit.
pub trait ImgExtMut<Pixel> {
    /// The cells, the size and the stride.
    ghost layout_of: { Self → Layout Pixel };

    /// The image with other cells in place of all its cells.
    ghost with_cells: { Self → List Pixel → Self };

    /// The whole buffer for writing, a stride at a time; the last piece may be shorter.
    fn rows_padded_mut(&mut self) -> ChunksMut<'_, Pixel>
        ensures cells { chunks_mut_rest result ≡ (layout_of self.old).cells }
        ensures size { chunks_mut_size result ≡ (layout_of self.old).stride }
        ensures positive { 0 < chunks_mut_size result }
        ensures runs { EveryRun (chunks_mut_steps {A = Pixel}) (λ p. 0 < chunks_mut_size p.from
            → IsChunksMutRun p (chunks_mut_size p.from) (chunks_mut_rest p.from)) };

    /// The whole image for writing. Once the borrow ends, it has the cells that were left there.
    fn as_mut(&mut self) -> ImgRefMut<'_, Pixel>
        ensures* hands_on { sem 𝓛 (follows Self.row (Array Pixel.row 0) self.entry.ghost_name
            (buf_of result).ghost_name (with_cells self.old)) }
        ensures layout { mut_layout result ≡ layout_of self.old };
}

impl<Pixel, C: AsMutSlice + AsSlice<Item = Pixel>> ImgExtMut<Pixel> for Img<C> {
    ghost layout_of = { layout_by C.cells };

    ghost with_cells = { with_all C.cells C.with_cells };

    fn rows_padded_mut(&mut self) -> ChunksMut<'_, Pixel> {
        let stride = self.stride();
        let len = self.buf.as_slice().len();
        self.buf.stretch_mut(0, len).chunks_mut(stride)
    }

    fn as_mut(&mut self) -> ImgRefMut<'_, Pixel> {
        self.as_mut()
    }
}
