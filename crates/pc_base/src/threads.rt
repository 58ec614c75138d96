//! Types that threads share.

/// A call shows that a type may be sent to another thread and shared with it.
pub fn crosses_threads<T: Send + Sync>() {}
