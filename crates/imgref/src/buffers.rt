//! Images with another buffer, and the whole buffer cell by cell.

ghost use Rattle.std.specs.Prelude.{◌≡◌, length, IfOk, MatchResult, Ok, Err};
ghost use Rattle.std.specs.Slice.Iter.{iter_rest};
ghost use Rattle.std.specs.Iterator.Adapters.{IterYieldsInOrder, IterYieldsInReverse};
ghost use Rattle.imgref.specs.Image.{buf_of, shape_of, layout_by};

use crate::containers::{AsMutSlice, AsSlice};
use crate::img::Img;
use std::slice::Iter;

impl<C: AsSlice> Img<C> {
    /// The image with the container that `callback` makes from this image's container, at the same
    /// size and stride.
    ///
    /// # Requires
    ///
    /// Facts about the callback, which no call tests. It may be called with the container, and the
    /// container that it returns has as many cells, padding included.
    pub fn map_buf<N: AsSlice, F: FnOnce(C) -> N>(self, callback: F) -> Img<N>
        requires callable { F.pre callback (buf_of self) }
        requires same_length { (new : N) → F.post callback (buf_of self) new
            → length (N.cells new) ≡ length (C.cells (buf_of self)) }
        ensures buf { F.post callback (buf_of self) (buf_of result) }
        ensures length { length (N.cells (buf_of result)) ≡ length (C.cells (buf_of self)) }
        ensures shape { shape_of result ≡ shape_of self }
    {
        let (buf, shape) = self.into_parts();
        Img::from_parts(callback(buf), shape)
    }

    /// The same as `map_buf`, with a callback that may fail. (The original crate has only `map_buf`.)
    ///
    /// # Requires
    ///
    /// Facts about the callback, which no call tests. It may be called with the container. Where
    /// it returns `Ok`, the new container has as many cells, padding included.
    ///
    /// # Errors
    ///
    /// The callback's error.
    pub fn try_map_buf<N: AsSlice, E, F: FnOnce(C) -> Result<N, E>>(
        self,
        callback: F,
    ) -> Result<Img<N>, E>
        requires callable { F.pre callback (buf_of self) }
        requires same_length { (new : N) → F.post callback (buf_of self) (Ok new)
            → length (N.cells new) ≡ length (C.cells (buf_of self)) }
        ensures buf { MatchResult result (λ i. F.post callback (buf_of self) (Ok (buf_of i)))
            (λ e. F.post callback (buf_of self) (Err e)) }
        ensures length { IfOk result
            (λ i. length (N.cells (buf_of i)) ≡ length (C.cells (buf_of self))) }
        ensures shape { IfOk result (λ i. shape_of i ≡ shape_of self) }
    {
        let (buf, shape) = self.into_parts();
        match callback(buf) {
            Ok(buf) => Ok(Img::from_parts(buf, shape)),
            Err(e) => Err(e),
        }
    }

    /// The image with another container, at this image's size and stride.
    ///
    /// # Requires
    ///
    /// `new_buf` has as many cells as the present container, padding included: compare the lengths.
    pub fn new_buf<N: AsSlice>(&self, new_buf: N) -> Img<N>
        requires same_length { length (N.cells new_buf) ≡ length (C.cells (buf_of self.now)) }
        ensures buf { buf_of result ≡ new_buf }
        ensures shape { shape_of result ≡ shape_of self.now }
    {
        Img::from_parts(new_buf, self.shape())
    }
}

impl<'s, T> Img<&'s [T]> {
    /// Every cell of the buffer in order, padding included. The image need not fit.
    pub fn iter(&self) -> Iter<'s, T>
        ensures cells { iter_rest result ≡ (buf_of self.now).now }
        ensures runs { IterYieldsInOrder T }
        ensures runs_back { IterYieldsInReverse T }
    {
        self.buf.iter()
    }
}

impl<C: AsMutSlice> Img<C> {
    /// Every cell of the buffer in order, padding included. The image need not fit.
    pub fn iter(&self) -> Iter<'_, C::Item>
        ensures cells { iter_rest result ≡ C.cells (buf_of self.now) }
        ensures runs { IterYieldsInOrder C.Item }
        ensures runs_back { IterYieldsInReverse C.Item }
    {
        self.buf.as_slice().iter()
    }
}

/// The items of the container, taken out of the image: every cell, padding included.
impl<Container: IntoIterator> IntoIterator for Img<Container> {
    type Item = Container::Item;

    type IntoIter = Container::IntoIter;

    ghost into_iter_gives = { λ i steps. Container.into_iter_gives (buf_of i) steps };

    fn into_iter(self) -> Container::IntoIter {
        self.into_buf().into_iter()
    }
}
