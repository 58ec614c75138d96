//! A fault of the outside.

use thiserror::Error;

/// A read or a write failed. The end that it happened at has counted it.
#[derive(Clone, Copy, Debug, PartialEq, Eq, Error)]
#[error("the outside failed")]
pub struct Failed;
