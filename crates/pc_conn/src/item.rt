//! What lines say.

use crate::body::Body;
use pc_calls::Call;
use pc_text::Kind;

/// What is answered.
#[derive(Debug, Drop)]
pub enum Item {
    /// A call.
    Call(Call),
    /// The first wrong word of a line begins at this column, counted from 1; or a word is missing there.
    Bad { column: u64 },
    /// The text of a publish has its first fault on this line, counted from 1.
    Fault { line: u64, kind: Kind },
}

/// A publish whose text is to follow on so many lines: the version that its caller knew, and the column right after
/// its own line.
#[derive(Clone, Copy, Debug)]
pub struct Announced {
    pub base: u64,
    pub lines: u64,
    pub end_column: u64,
}

/// What a line says: an item, or that the text of a publish is to follow.
#[derive(Debug, Drop)]
pub enum Heard {
    Item(Item),
    Publish(Announced),
}

impl Announced {
    ghost use Rattle.std.specs.Prelude.{◌≡◌};
    ghost use Rattle.pc_conn.specs.Items.{published};

    /// What the publish says with its text.
    pub fn with(self, body: Body) -> Item
        ensures { result ≡ published self body }
    {
        match body {
            Body::File(file) => Item::Call(Call::Publish {
                base: self.base,
                file,
            }),
            Body::Fault { line, kind } => Item::Fault { line, kind },
            Body::Cut => Item::Bad {
                column: self.end_column,
            },
        }
    }
}
