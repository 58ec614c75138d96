//! Bytes to be printed.

/// Bytes as text, or `?` where they are none.
pub fn shown(bytes: &[u8]) -> &str {
    str::from_utf8(bytes).unwrap_or("?")
}
