//! The fields of a line: values of one kind, paths and places.

ghost use Rattle.std.specs.Prelude.{◌≡◌};
ghost use Rattle.script_text.specs.Line.{place_of};
ghost use Rattle.texts.specs.Parts.{parts_left};
ghost use Rattle.script_text.specs.Reading.{Gives, path_of, path_at, place_at};
ghost use Rattle.texts.specs.Reading.{pixel_of, each_of, with_front, first_of_parts};

use crate::fault::LineFault;
use image_commands::{Place, Window};
use std::alloc::Global;
use texts::{Field, Parts};

// The values so far, and those that all remaining parts denote.
fn read_others<T: Field>(so_far: Vec<T>, parts: &mut Parts<'_>) -> Result<Vec<T>, LineFault>
    ensures { Gives (λ values. values.items) result
        (with_front so_far.items (each_of T.reading (parts_left parts.old))) }
{
    let mut values = so_far;
    while !parts.is_done() {
        let Some(value) = texts::next(parts) else {
            return Err(LineFault::Bad);
        };
        values.push(value)?;
    }
    Ok(values)
}

/// The values that all remaining parts denote.
pub(crate) fn read_each<T: Field>(alloc: Global, parts: &mut Parts<'_>) -> Result<Vec<T>, LineFault>
    ensures { Gives (λ values. values.items) result (each_of T.reading (parts_left parts.old)) }
{
    read_others(Vec::new(alloc), parts)
}

/// The pixels that all remaining parts denote: many at once, as long as that goes.
pub(crate) fn read_pixels(alloc: Global, parts: &mut Parts<'_>) -> Result<Vec<u8>, LineFault>
    ensures { Gives (λ values. values.items) result (each_of pixel_of (parts_left parts.old)) }
{
    let mut pixels = Vec::new(alloc);
    parts.read_pixels(&mut pixels)?;
    read_others(pixels, parts)
}

/// The value that the next field denotes. Inlined, since a call of it costs as much as the reading.
#[inline(always)]
pub(crate) fn next_value<T: Field>(fields: &mut Parts<'_>) -> Result<T, LineFault>
    ensures { Gives (λ x. (x, parts_left fields.new)) result
        (first_of_parts T.reading (parts_left fields.old)) }
{
    texts::next(fields).ok_or(LineFault::Bad)
}

/// The path that the field denotes.
#[tactic(auto, unfolding(crate::specs::Reading::path_of))]
fn path(alloc: Global, field: &[u8]) -> Result<Vec<Window>, LineFault>
    ensures { Gives (λ path. path.items) result (path_of field.now) }
{
    if field == b"-".as_slice() {
        return Ok(Vec::new(alloc));
    }
    read_each(alloc, &mut Parts::new(field, b'/'))
}

/// The path that the next field denotes.
#[tactic(auto, unfolding(texts::specs::Reading::first_of_parts))]
fn next_path(alloc: Global, fields: &mut Parts<'_>) -> Result<Vec<Window>, LineFault>
    ensures { Gives (λ p. (p.items, parts_left fields.new)) result
        (path_at (parts_left fields.old)) }
{
    path(alloc, fields.next_part().ok_or(LineFault::Bad)?)
}

/// The image's number and the path that the next two fields denote.
#[tactic(auto, unfolding(crate::specs::Reading::place_at))]
pub(crate) fn next_place(alloc: Global, fields: &mut Parts<'_>) -> Result<Place, LineFault>
    ensures { Gives (λ p. (place_of p, parts_left fields.new)) result
        (place_at (parts_left fields.old)) }
{
    let image = next_value(fields)?;
    let path = next_path(alloc, fields)?;
    Ok(Place { image, path })
}
