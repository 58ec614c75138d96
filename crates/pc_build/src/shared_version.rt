//! A version that several hold.

ghost use Rattle.std.specs.Prelude.{◌≡◌, IfOk};
ghost use Rattle.std.specs.Arc.{arc_value};

use crate::version::Version;
use pc_base::NoMemory;
use std::alloc::Global;
use std::marker::Model;
use std::sync::Arc;

/// An `Arc` of a version, which contracts see as the version.
#[derive(Debug, Drop)]
pub struct SharedVersion {
    version: Arc<Version, Global>,
}

impl Model for SharedVersion {
    ghost use Rattle.pc_build.specs.declared.version.Version.{Version};
    ghost use Rattle.pc_file.specs.contracts.shared_file.SharedFile as shared;
    ghost use Rattle.std.specs.Arc.{arc_value};
    ghost use Rattle.std.specs.Coded.{codes};

    ghost Value = { Version };

    ghost coded = { Prim.hlevel (codes, shared.the_row.coded) };

    ghost view = { λ s. arc_value s.version };
}

impl SharedVersion {
    /// A version that is to be held by several. Want of memory lets the version go.
    pub fn new(alloc: Global, version: Version) -> Result<SharedVersion, NoMemory>
        ensures { IfOk result (λ shared. shared ≡ version) }
    {
        Ok(SharedVersion {
            version: Arc::new(alloc, version)?,
        })
    }

    /// What an `Arc` holds, without taking memory.
    pub fn from_arc(version: Arc<Version, Global>) -> SharedVersion
        ensures { result ≡ arc_value version }
    {
        SharedVersion { version }
    }

    /// The `Arc`, without taking memory.
    pub fn into_arc(self) -> Arc<Version, Global>
        ensures { arc_value result ≡ self }
    {
        let SharedVersion { version } = self;
        version
    }

    /// One more that holds the same version. It takes no memory, but the number of holders has a limit.
    pub fn share(&self) -> Result<SharedVersion, NoMemory>
        ensures { IfOk result (λ other. other ≡ self.now) }
    {
        Ok(SharedVersion {
            version: Arc::try_clone(&self.version)?,
        })
    }

    /// The version, which the holders share, for as long as this one is borrowed. It takes no memory and never fails.
    pub fn version(&self) -> &Version
        ensures { result.now ≡ self.now }
    {
        &self.version
    }
}
