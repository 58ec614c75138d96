//! The limits of the generator.

/// The least number of variables. The most are those of any file.
pub const LEAST_VARIABLES: u32 = 2;
