//! The lines of a text, judged one after the other.

ghost use Rattle.std.specs.Prelude.{◌≡◌, ◌<◌, ◌^◌, [], ◌∷◌, ◌++◌, List, OnOk};
ghost use Rattle.std.specs.List.{slice_split};
ghost use Rattle.pc_dump.specs.Dump.{Words};
ghost use Rattle.pc_dump.specs.Form.{IsDump};
ghost use Rattle.pc_dump.specs.Judged.{HasTaken};
ghost use Rattle.pc_names.specs.Spaces.{is_space};

use crate::draft::{Awaited, Draft};
use crate::dump::Dump;
use crate::line_words::line_words;
use pc_base::NoMemory;
use pc_diagram::RawDiagram;
use std::alloc::Global;

/// The tables so far, or the first line that fits none.
#[derive(Debug, Drop)]
pub(crate) struct Reader {
    pub draft: Draft,
    pub count: u64,
    pub misfit: Option<u64>,
}

impl Reader {
    /// No line was taken.
    pub(crate) fn new(alloc: Global) -> Reader
        ensures { HasTaken result [] }
    {
        Reader {
            draft: Draft::new(alloc),
            count: 0,
            misfit: None,
        }
    }

    /// Takes the next line. After the first that fits no tables nothing is kept.
    pub(crate) fn take(&mut self, alloc: Global, line: &[u8]) -> Result<(), NoMemory>
        requires count { self.old.count < 2 ^ 63 }
        requires taken { (taken : List Words) × HasTaken self.old taken }
        ensures { OnOk result ((taken : List Words) → HasTaken self.old taken → HasTaken self.new (taken ++ slice_split is_space line.now ∷ [])) }
    {
        self.count += 1;
        match self.misfit {
            Some(_) => Ok(()),
            None => {
                let words = line_words(alloc, line)?;
                if !self.draft.take(alloc, words.as_slice())? {
                    self.misfit = Some(self.count);
                }
                Ok(())
            }
        }
    }

    /// What all lines are.
    pub(crate) fn finish(self) -> Dump
        requires { self.count < 2 ^ 63 }
        ensures { (taken : List Words) → HasTaken self taken → IsDump result taken }
    {
        let Reader {
            draft,
            count,
            misfit,
        } = self;
        if let Some(line) = misfit {
            return Dump::Misfit { line };
        }
        match draft.awaited {
            Awaited::Nothing => Dump::Tables(RawDiagram {
                domains: draft.domains,
                sizes: draft.sizes,
                edges: draft.edges,
            }),
            _ => Dump::Misfit { line: count + 1 },
        }
    }
}
