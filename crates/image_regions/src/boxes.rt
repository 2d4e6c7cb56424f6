//! The box around the places with one value, and the size of a connected component.

ghost use Rattle.std.specs.Prelude.{◌≡◌, ◌==◌, ◌<◌, ◌+◌, ◌^◌, min, max, MatchOption, IfSome};
ghost use Rattle.std.specs.List.{count_by};
ghost use Rattle.imgref.specs.Words.{Fits, IsInside, IsBoundingBox, IsNowhere, TellsApart, as_window, grid_pixels, width_of, height_of, ref_grid, ref_layout};

use imgref::{ImgRef, Window};

// The sides of a box: its first column and its first row, and the column and the row after its last
// ones.
#[derive(Clone, Copy)]
struct Sides {
    left: usize,
    top: usize,
    right: usize,
    bottom: usize,
}

impl Sides {
    // The box that also has this place.
    fn with_place(self, x: usize, y: usize) -> Sides
        requires column { x < 2 ^ 32 }
        requires row { y < 2 ^ 32 }
        ensures left { result.left ≡ min self.left x }
        ensures top { result.top ≡ min self.top y }
        ensures right { result.right ≡ max self.right (x + 1) }
        ensures bottom { result.bottom ≡ max self.bottom (y + 1) }
    {
        Sides {
            left: self.left.min(x),
            top: self.top.min(y),
            right: self.right.max(x + 1),
            bottom: self.bottom.max(y + 1),
        }
    }
}

/// The least window that has every place with a value, or `None` where no place has it. With a
/// label it is the box around its component.
///
/// # Requires
///
/// The image fits: `is_valid`. Two pixels are equal by `==` only if they are the same: compare the
/// fields of a struct, and no floats.
#[tactic(auto, using(image_model::proofs::Boxes::whole_box))]
pub fn bounding_box<T: Copy + PartialEq>(image: ImgRef<'_, T>, value: T) -> Option<Window>
    requires fits { Fits (ref_layout image) }
    requires tells { TellsApart T.eq }
    ensures framed { MatchOption result (IsNowhere (ref_grid image.entry) value)
        (λ w. IsBoundingBox (ref_grid image.entry) value (as_window w)) }
    ensures inside { IfSome result
        (λ w. IsInside (width_of image.entry) (height_of image.entry) (as_window w)) }
{
    let mut sides = Sides {
        left: image.width(),
        top: image.height(),
        right: 0,
        bottom: 0,
    };
    #[tactic(auto, using(image_model::proofs::Boxes::boxes))]
    for y in 0..image.height() {
        for x in 0..image.width() {
            if image[(x, y)] == value {
                sides = sides.with_place(x, y);
            }
        }
    }
    if sides.right == 0 {
        return None;
    }
    let (width, height) = (sides.right - sides.left, sides.bottom - sides.top);
    Some(Window::new(sides.left, sides.top, width, height))
}

/// How many places have a label: the area of a component, in pixels.
///
/// # Requires
///
/// The image fits: `is_valid`.
pub fn area(labels: ImgRef<'_, u64>, label: u64) -> usize
    requires { Fits (ref_layout labels) }
    ensures { result ≡ count_by (λ n. n == label) (grid_pixels (ref_grid labels.entry)) }
{
    labels.count_where(|n| *n == label)
}
