//! Kinds of faults.

/// What is wrong at the first fault of a text.
#[derive(Clone, Copy, Debug, PartialEq, Eq)]
pub enum Kind {
    Header,
    Cost,
    Variable,
    Value,
    Rule,
    Repeat,
    Unknown,
    Number,
    Depth,
    Size,
    End,
}

impl Kind {
    ghost use Rattle.std.specs.Prelude.{◌≡◌};
    ghost use Rattle.pc_rules.specs.KindWord.{kind_word};

    /// The word that tells the kind.
    pub fn word(&self) -> &'static str
        ensures { result.now ≡ kind_word self.now }
    {
        match self {
            Kind::Header => "header",
            Kind::Cost => "cost",
            Kind::Variable => "variable",
            Kind::Value => "value",
            Kind::Rule => "rule",
            Kind::Repeat => "repeat",
            Kind::Unknown => "unknown",
            Kind::Number => "number",
            Kind::Depth => "depth",
            Kind::Size => "size",
            Kind::End => "end",
        }
    }
}
