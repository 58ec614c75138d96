//! What the lines of a script say.

use pc_conn::{Announced, Body, Item};

/// What is answered at once, and whose it is: 0 where the line names none that may speak.
#[derive(Debug, Drop)]
pub struct Said {
    pub caller: u64,
    pub item: Item,
}

/// A publish of a caller, whose text is to follow.
#[derive(Clone, Copy, Debug)]
pub struct Awaited {
    pub caller: u64,
    pub publish: Announced,
}

/// What a line says.
#[derive(Debug, Drop)]
pub enum Request {
    Said(Said),
    Publish(Awaited),
}

impl Request {
    ghost use Rattle.std.specs.Prelude.{◌≡◌};
    ghost use Rattle.pc_script.specs.Request.{of_caller};

    /// What the words after CALLER say, as that caller's.
    pub fn of(caller: u64, heard: pc_conn::Heard) -> Request
        ensures { result ≡ of_caller caller heard }
    {
        match heard {
            pc_conn::Heard::Item(item) => Request::Said(Said { caller, item }),
            pc_conn::Heard::Publish(publish) => Request::Publish(Awaited { caller, publish }),
        }
    }
}

impl Awaited {
    ghost use Rattle.std.specs.Prelude.{◌≡◌};
    ghost use Rattle.pc_script.specs.Request.{said_with};

    /// What the publish says with its text.
    pub fn with(self, body: Body) -> Said
        ensures { result ≡ said_with self body }
    {
        Said {
            caller: self.caller,
            item: self.publish.with(body),
        }
    }
}
