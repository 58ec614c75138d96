//! The lines of bytes.

ghost use Rattle.std.specs.Prelude.{◌≡◌, ◌≤◌, length};
ghost use Rattle.pc_base.specs.Lines.{after_line, first_line};

use memchr::memchr;

const LINE_FEED: u8 = b'\n';

/// The first line of bytes, without its line feed, and the bytes after that.
pub fn cut_line(bytes: &[u8]) -> (&[u8], &[u8])
    ensures line { result.0.now ≡ first_line bytes.now }
    ensures after { result.1.now ≡ after_line bytes.now }
{
    let (line, rest) = bytes.split_at(first_line_width(bytes));
    match rest.split_first() {
        Some((_, after)) => (line, after),
        None => (line, rest),
    }
}

/// How many bytes the first line has, without its line feed.
pub fn first_line_width(bytes: &[u8]) -> usize
    ensures width { result ≡ length (first_line bytes.now) }
    ensures within { result ≤ length bytes.now }
{
    match memchr(LINE_FEED, bytes) {
        Some(place) => place,
        None => bytes.len(),
    }
}
