//! An entry of a history.

use crate::call::Call;
use crate::head::Head;

/// A call, who made it, and its answer without a listing. Callers are numbered from 1 on.
#[derive(Debug, Drop)]
pub struct Entry {
    pub caller: u64,
    pub call: Call,
    pub head: Head,
}
