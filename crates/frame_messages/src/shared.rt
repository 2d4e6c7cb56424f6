//! Two files of a run that are one.

use frame_requests::Role;

fn word_of(role: Role) -> &'static str {
    match role {
        Role::Input => "input",
        Role::Edits => "edits",
        Role::Boxes => "boxes",
        Role::Output => "output",
        Role::Report => "report",
    }
}

/// Prints which two files of a run are one. The first would be written over the other.
pub fn say_shared(rt: &HostRuntime, one: Role, other: Role) {
    let (first, second) = (word_of(one), word_of(other));
    let _ = if other == Role::Output {
        eprintln!(rt; "the {first} and the {second} need two names")
    } else {
        eprintln!(rt; "the {first} and the {second} are one file, which would be overwritten")
    };
}
