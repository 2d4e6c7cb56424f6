//! What each program over devices prints for the faults that all of them may end with.

/// Out of memory.
pub const MEMORY_TEXT: &str = "fault memory";

/// The reader failed.
pub const INPUT_TEXT: &str = "fault input";

/// The writer failed.
pub const OUTPUT_TEXT: &str = "fault output";
