//! The names of a product's variables, values and costs, by their positions.

ghost use Rattle.std.specs.Prelude.{◌≡◌, ◌<◌, length, slice_index};
ghost use Rattle.pc_calls.specs.Carry.{cost_name, value_name, variable_name};
ghost use Rattle.pc_file.specs.Full.{full_domains};
ghost use Rattle.pc_file.specs.Limits.{IsFile};
ghost use Rattle.pc_session.specs.Costs.{place_of};

use pc_diagram::Which;
use pc_file::File;
use pc_names::Name;

/// The name of a variable.
pub(crate) fn variable_name(file: &File, variable: u32) -> Name
    requires { variable < length (full_domains file.now) }
    ensures name { result ≡ variable_name file.now variable }
    ensures limits { IsFile file.now }
{
    file.variables()[variable as usize].name
}

/// The name of a value of a variable.
pub(crate) fn value_name(file: &File, variable: u32, value: u32) -> Name
    requires variable { variable < length (full_domains file.now) }
    requires value { value < slice_index (full_domains file.now) variable }
    ensures { result ≡ value_name file.now variable value }
{
    let values = &file.variables()[variable as usize].values;
    values.as_slice()[value as usize].name
}

/// The name of a cost.
pub(crate) fn cost_name(file: &File, which: Which) -> Name
    requires { place_of which < length file.now.costs }
    ensures { result ≡ cost_name file.now which }
{
    match which {
        Which::First => file.costs()[0],
        Which::Second => file.costs()[1],
    }
}
