//! A product file that several hold.

ghost use Rattle.std.specs.Prelude.{◌≡◌, IfOk};
ghost use Rattle.std.specs.Arc.{arc_value};

use crate::file::File;
use pc_base::NoMemory;
use std::alloc::Global;
use std::marker::Model;
use std::sync::Arc;

/// An `Arc` of a file, which contracts see as what the file says: two that hold equal files are equal.
#[derive(Debug, Drop)]
pub struct SharedFile {
    file: Arc<File, Global>,
}

impl Model for SharedFile {
    ghost use Rattle.pc_file.specs.Limits.{Contents};
    ghost use Rattle.pc_file.specs.contracts.file.File as contract;
    ghost use Rattle.std.specs.Arc.{arc_value};

    ghost Value = { Contents };

    ghost coded = { contract.the_row.coded };

    ghost view = { λ s. arc_value s.file };
}

impl SharedFile {
    /// A file that is to be held by several. Want of memory lets the file go.
    pub fn new(alloc: Global, file: File) -> Result<SharedFile, NoMemory>
        ensures { IfOk result (λ shared. shared ≡ file) }
    {
        Ok(SharedFile {
            file: Arc::new(alloc, file)?,
        })
    }

    /// What an `Arc` holds, without taking memory.
    pub fn from_arc(file: Arc<File, Global>) -> SharedFile
        ensures { result ≡ arc_value file }
    {
        SharedFile { file }
    }

    /// The `Arc`, without taking memory.
    pub fn into_arc(self) -> Arc<File, Global>
        ensures { arc_value result ≡ self }
    {
        let SharedFile { file } = self;
        file
    }

    /// One more that holds the same file. It takes no memory, but the number of holders has a limit.
    pub fn share(&self) -> Result<SharedFile, NoMemory>
        ensures { IfOk result (λ other. other ≡ self.now) }
    {
        Ok(SharedFile {
            file: Arc::try_clone(&self.file)?,
        })
    }

    /// The file, which the holders share, for as long as this one is borrowed. It takes no memory and never fails.
    pub fn file(&self) -> &File
        ensures { result.now ≡ self.now }
    {
        &self.file
    }
}
