//! Values, sums and connected components of images: histograms, equalization, integral images, flood
//! fills, and labels of components with their boxes and their sizes. Each call takes time in proportion
//! to the pixels. Memory is allocated by the calls that take `alloc`, and where there is none they
//! return `AllocError`.
//!
//! Two places are connected if a path leads from one to the other over sides, and all its places
//! show equal pixels.
#![tactic(auto)]

mod areas;
mod boxes;
mod counting;
mod entries;
mod equalizing;
mod floods;
mod labels;
mod pixels;
#[cfg(test)]
mod tests;

pub use areas::{integral, integral_into, sums_fit};
pub use boxes::{area, bounding_box};
pub use counting::{cumulative, histogram, histogram_u16, histogram_u16_into};
pub use entries::map_by;
pub use equalizing::equalize;
pub use floods::{flood_fill, flood_fill_in};
pub use labels::{Regions, components, components_into};
