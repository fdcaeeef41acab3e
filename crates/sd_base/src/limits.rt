//! The sizes at which the program stops taking more.

/// The bytes of a program text.
pub const TEXT_BYTES: usize = 16777216;

/// The procedures and implementations of a text, together.
pub const PROCEDURES: usize = 4096;

/// The height of a phrase.
pub const HEIGHT: usize = 200;
