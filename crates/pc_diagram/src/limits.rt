//! The limits of a product and of its diagram.

/// The most variables.
pub const MOST_VARIABLES: usize = 64;

/// The most values of a variable.
pub const MOST_VALUES: u32 = 64;

/// The most nodes of a diagram, in all layers.
pub const MOST_NODES: u64 = 262_144;
