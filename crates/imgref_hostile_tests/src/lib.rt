//! The tests of `imgref` over whole buffers, and of hostile use. Whole buffers are containers,
//! copies, moves and joined buffers. Hostile use is every small window, the greatest numbers of a
//! type, iterators dropped early, zero-sized pixels, short buffers, and out of memory.
#![tactic(auto)]

#[cfg(test)]
mod tests;
