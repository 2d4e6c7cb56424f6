//! The tests of what `imgref` shows and writes pixel by pixel: images, places, rows, pixels,
//! windows and equality. They are in a crate of their own, since a crate with tests is proved
//! twice.
#![tactic(auto)]

#[cfg(test)]
mod tests;
