//! Bytes that contracts see as a list, and decimal text.

ghost use Rattle.std.specs.Prelude.{◌≡◌, ◌++◌, decimal, OnOk, OnErr};
ghost use Rattle.std.specs.Fmt.{signed_decimal};

use crate::memory::NoMemory;
use crate::sequence::Sequence;
use itoa::Buffer;

/// Bytes to be written.
pub type Text = Sequence<u8>;

/// The bytes of one line, without its line feed.
pub type Line = Sequence<u8>;

impl Sequence<u8> {
    /// Puts a number at the end in canonical decimal. Want of memory leaves the text as it was.
    pub fn push_unsigned(&mut self, number: u64) -> Result<(), NoMemory>
        ensures ok { OnOk result (self.new ≡ self.old ++ decimal number) }
        ensures err { OnErr result (self.new ≡ self.old) }
    {
        let mut buffer = Buffer::new();
        self.extend_from_slice(buffer.format(number).as_bytes())
    }

    /// Puts a number at the end in canonical decimal, with `-` before a negative one. Want of memory leaves the
    /// text as it was.
    pub fn push_signed(&mut self, number: i64) -> Result<(), NoMemory>
        ensures ok { OnOk result (self.new ≡ self.old ++ signed_decimal number) }
        ensures err { OnErr result (self.new ≡ self.old) }
    {
        let mut digits = Buffer::new();
        self.extend_from_slice(digits.format(number).as_bytes())
    }
}
