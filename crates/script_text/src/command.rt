//! The commands of a script, each read from its word and the fields after it.

ghost use Rattle.std.specs.Prelude.{codes};
ghost use Rattle.script_text.specs.Line.{order_of};
ghost use Rattle.texts.specs.Parts.{parts_left};
ghost use Rattle.script_text.specs.Reading.{Gives, order_at, order_in};

use crate::fault::LineFault;
use crate::fields::{next_place, next_value};
use image_commands::Command;
use std::alloc::Global;
use texts::Parts;

// Each function reads the fields after its word, as the row of the word in `forms` says. They are
// functions of their own since the proof of one with all of these branches takes much longer.

#[tactic(auto, unfolding(crate::specs::Reading::arguments_at))]
fn read_get(alloc: Global, fields: &mut Parts<'_>) -> Result<Command<u8>, LineFault>
    ensures { Gives (λ c. (order_of c, parts_left fields.new)) result
        (order_at (codes "get") (parts_left fields.old)) }
{
    let spot = next_place(alloc, fields)?;
    let x = next_value(fields)?;
    let y = next_value(fields)?;
    Ok(Command::Get { spot, x, y })
}

#[tactic(auto, unfolding(crate::specs::Reading::arguments_at))]
fn read_put(alloc: Global, fields: &mut Parts<'_>) -> Result<Command<u8>, LineFault>
    ensures { Gives (λ c. (order_of c, parts_left fields.new)) result
        (order_at (codes "put") (parts_left fields.old)) }
{
    let spot = next_place(alloc, fields)?;
    let x = next_value(fields)?;
    let y = next_value(fields)?;
    let value = next_value(fields)?;
    Ok(Command::Put { spot, x, y, value })
}

#[tactic(auto, unfolding(crate::specs::Reading::arguments_at))]
fn read_fill(alloc: Global, fields: &mut Parts<'_>) -> Result<Command<u8>, LineFault>
    ensures { Gives (λ c. (order_of c, parts_left fields.new)) result
        (order_at (codes "fill") (parts_left fields.old)) }
{
    let spot = next_place(alloc, fields)?;
    let value = next_value(fields)?;
    Ok(Command::Fill { spot, value })
}

#[tactic(auto, unfolding(crate::specs::Reading::arguments_at))]
fn read_count(alloc: Global, fields: &mut Parts<'_>) -> Result<Command<u8>, LineFault>
    ensures { Gives (λ c. (order_of c, parts_left fields.new)) result
        (order_at (codes "count") (parts_left fields.old)) }
{
    let spot = next_place(alloc, fields)?;
    let value = next_value(fields)?;
    Ok(Command::Count { spot, value })
}

#[tactic(auto, unfolding(crate::specs::Reading::arguments_at))]
fn read_same(alloc: Global, fields: &mut Parts<'_>) -> Result<Command<u8>, LineFault>
    ensures { Gives (λ c. (order_of c, parts_left fields.new)) result
        (order_at (codes "same") (parts_left fields.old)) }
{
    let first = next_place(alloc, fields)?;
    let second = next_place(alloc, fields)?;
    Ok(Command::Same { first, second })
}

#[tactic(auto, unfolding(crate::specs::Reading::arguments_at))]
fn read_blit(alloc: Global, fields: &mut Parts<'_>) -> Result<Command<u8>, LineFault>
    ensures { Gives (λ c. (order_of c, parts_left fields.new)) result
        (order_at (codes "blit") (parts_left fields.old)) }
{
    let source = next_place(alloc, fields)?;
    let target = next_place(alloc, fields)?;
    Ok(Command::Blit { source, target })
}

#[tactic(auto, unfolding(crate::specs::Reading::arguments_at))]
fn read_mosaic(alloc: Global, fields: &mut Parts<'_>) -> Result<Command<u8>, LineFault>
    ensures { Gives (λ c. (order_of c, parts_left fields.new)) result
        (order_at (codes "mosaic") (parts_left fields.old)) }
{
    let spot = next_place(alloc, fields)?;
    let tile_width = next_value(fields)?;
    let tile_height = next_value(fields)?;
    Ok(Command::Mosaic {
        spot,
        tile_width,
        tile_height,
    })
}

#[tactic(auto, unfolding(crate::specs::Reading::arguments_at))]
fn read_compact(fields: &mut Parts<'_>) -> Result<Command<u8>, LineFault>
    ensures { Gives (λ c. (order_of c, parts_left fields.new)) result
        (order_at (codes "compact") (parts_left fields.old)) }
{
    let image = next_value(fields)?;
    Ok(Command::Compact { image })
}

/// The command with this word, and its fields at the front of those after it.
fn command_at(alloc: Global, word: &[u8], fields: &mut Parts<'_>) -> Result<Command<u8>, LineFault>
    ensures { Gives (λ c. (order_of c, parts_left fields.new)) result
        (order_at word.now (parts_left fields.old)) }
{
    if word == b"get".as_slice() {
        read_get(alloc, fields)
    } else if word == b"put".as_slice() {
        read_put(alloc, fields)
    } else if word == b"fill".as_slice() {
        read_fill(alloc, fields)
    } else if word == b"count".as_slice() {
        read_count(alloc, fields)
    } else if word == b"same".as_slice() {
        read_same(alloc, fields)
    } else if word == b"blit".as_slice() {
        read_blit(alloc, fields)
    } else if word == b"mosaic".as_slice() {
        read_mosaic(alloc, fields)
    } else if word == b"compact".as_slice() {
        read_compact(fields)
    } else {
        Err(LineFault::Bad)
    }
}

/// The command with this word and these fields after it, and no field more.
#[tactic(auto, unfolding(crate::specs::Reading::order_in))]
pub(crate) fn read_command(
    alloc: Global,
    word: &[u8],
    fields: &mut Parts<'_>,
) -> Result<Command<u8>, LineFault>
    ensures { Gives order_of result (order_in word.now (parts_left fields.old)) }
{
    let command = command_at(alloc, word, fields)?;
    if fields.is_done() {
        Ok(command)
    } else {
        Err(LineFault::Bad)
    }
}
