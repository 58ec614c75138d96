//! Shows the sets of a store, the operations on them, and the diagrams of the products of small files, one for each form
//! of rule. Its stored output was written by hand.
#![tactic(auto)]

mod forms;
mod operations;
mod stores;

use anyhow::Result;
use forms::tell_forms;
use operations::tell_operations;
use pc_base::crosses_threads;
use pc_build::BuildFault;
use pc_store::Id;
use stores::{tell_pairs, tell_wide};

fn main(rt: HostRuntime) -> Result<()> {
    crosses_threads::<Id>();
    crosses_threads::<BuildFault>();
    tell_pairs(&rt)?;
    tell_wide(&rt)?;
    tell_operations(&rt)?;
    tell_forms(&rt)
}
