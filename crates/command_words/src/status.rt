//! The exit statuses of the program. docs/PROMISES.md tells of each command which of them it ends with, and for which cause.

/// All was done.
pub const DONE: u8 = 0;

/// The words are no command.
pub const NO_COMMAND: u8 = 1;

/// The input ends within a frame, or has a length that no frame has.
pub const BROKEN: u8 = 2;

/// The source met a fault.
pub const SOURCE_FAULT: u8 = 3;

/// The sink met a fault.
pub const SINK_FAULT: u8 = 4;

/// Memory ran out.
pub const OUT_OF_MEMORY: u8 = 5;

/// There is no plan, or nothing to save.
pub const NO_PLAN: u8 = 6;

/// The bytes are no checkpoint.
pub const NO_CHECKPOINT: u8 = 7;

/// A cell that was run again called `draw()`.
pub const DREW_AGAIN: u8 = 8;

/// The state that came out isn't the one of the checkpoint's graph.
pub const UNLIKE: u8 = 9;

/// 4,294,967,295 reads each took a byte.
pub const TOO_MANY_READS: u8 = 10;

/// The door met a fault.
pub const DOOR_FAULT: u8 = 11;
