//! The version of this build.

/// The version of the program, which is that of its clients too.
pub const VERSION: &str = "3.3.0";
