//! What a line says.

use crate::call::Call;

/// A call, or the head of a publish, whose text stands on so many further lines.
#[derive(Debug, Drop)]
pub enum LineCall {
    Whole(Call),
    /// `lines` is from 1 to 8,192.
    PublishHead { base: u64, lines: u64 },
}
