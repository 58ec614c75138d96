//! The set of a file's products.

ghost use Rattle.std.specs.Prelude.{◌≡◌, ◌≢◌, ◌≤◌, [], ℕ, IfOk, IfErr};
ghost use Rattle.pc_diagram.specs.Rests.{size};
ghost use Rattle.pc_store.specs.Sets.{domains_of, has};
ghost use Rattle.pc_file.specs.Full.{full_domains, full};
ghost use Rattle.pc_file.specs.Products.{value_counts, obeys};
ghost use Rattle.pc_build.specs.Making.{Denotes};
ghost use Rattle.pc_build.specs.Building.{IsSmall, IsBuildFault};

use crate::fault::BuildFault;
use crate::rules::words_of_rules;
use pc_base::{NoMemory, Sequence};
use pc_conjunction::Stored;
use pc_diagram::MOST_NODES;
use pc_file::{File, Variable};
use std::alloc::Global;

/// The set of a file's products, in a store of its own. It is made rule by rule, part by part.
///
/// # Errors
///
/// The first set on the way that is too large; else that there is no product; or want of memory, which may come in any
/// case.
pub(crate) fn set_of_products(alloc: Global, file: &File) -> Result<Stored, BuildFault>
    ensures domains { IfOk result (λ made. domains_of made.store ≡ full_domains file.now) }
    ensures set { IfOk result (λ made. Denotes made.store (obeys file.now) made.set) }
    ensures nodes { IfOk result (λ made. size (domains_of made.store) (has made.store made.set) ≤ MOST_NODES) }
    ensures some { IfOk result (λ _. full file.now ≢ []) }
    ensures small { IfOk result (λ _. IsSmall file.now) }
    ensures fault { IfErr result (IsBuildFault file.now) }
{
    let domains = domains_of(alloc, file.variables())?;
    let all = words_of_rules(alloc, domains.as_slice(), file.variables(), file.rules())?;
    let made = all.stored(alloc)?;
    if made.store.same_set(made.set, made.store.empty(0)) {
        return Err(BuildFault::NoProduct);
    }
    Ok(made)
}

/// How many values each variable has.
fn domains_of(alloc: Global, variables: &[Variable]) -> Result<Sequence<u32>, NoMemory>
    ensures { IfOk result (λ domains. domains ≡ value_counts variables.now) }
{
    let mut domains = Sequence::with_capacity(alloc, variables.len())?;
    for variable in variables {
        domains.push(u32::try_from(variable.values.len()).map_err(|_| NoMemory)?)?;
    }
    Ok(domains)
}
