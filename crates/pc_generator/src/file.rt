//! The generator's file.

ghost use Rattle.std.specs.Prelude.{◌≡◌, ◌∷◌, ◌-◌, ◌≤◌, [], codes, map, IfOk};
ghost use Rattle.std.specs.List.{range_with_len};
ghost use Rattle.pc_diagram.specs.declared.limits.TheConstants.{MOST_VARIABLES};
ghost use Rattle.pc_generator.specs.GeneratedFile.{eight_values, generated, neighbour_rule, numbered_value, numbered_variable};

use crate::numbered::numbered_name;
use crate::size::Size;
use pc_base::{NoMemory, Sequence};
use pc_file::{File, Rule, Value, Variable};
use pc_names::Name;
use sqlite_items::{Boxed, Items};
use std::alloc::Global;

/// How many values each variable has.
const VALUES: u32 = 8;

/// The file of so many variables.
///
/// # Errors
///
/// Want of memory.
#[tactic(auto, unfolding(crate::specs::GeneratedFile::generated))]
pub fn generated_file(alloc: Global, size: Size) -> Result<File, NoMemory>
    ensures { IfOk result (λ file. file ≡ generated size) }
{
    let costs = cost_names(alloc)?;
    let variables = all_variables(alloc, size)?;
    let rules = all_rules(alloc, size)?;
    match File::new(alloc, costs, variables, rules) {
        Ok(file) => Ok(file),
        // (such a file keeps all limits: only want of memory is left)
        Err(_) => Err(NoMemory),
    }
}

/// `price` and `days`.
fn cost_names(alloc: Global) -> Result<Sequence<Name>, NoMemory>
    ensures { IfOk result (λ names. names ≡ codes "price" ∷ codes "days" ∷ []) }
{
    let mut names = Sequence::new(alloc);
    names.push(price())?;
    names.push(days())?;
    Ok(names)
}

/// The name of the first cost.
pub fn price() -> Name
    ensures { result ≡ codes "price" }
{
    Name::read(b"price").unwrap()
}

/// The name of the second cost.
pub fn days() -> Name
    ensures { result ≡ codes "days" }
{
    Name::read(b"days").unwrap()
}

/// The variables, in order.
fn all_variables(alloc: Global, size: Size) -> Result<Sequence<Variable>, NoMemory>
    ensures { IfOk result (λ variables. variables ≡ map numbered_variable (range_with_len 1 size)) }
{
    let mut variables = Sequence::new(alloc);
    for place in 0..size.variables() {
        variables.push(numbered_variable(alloc, place + 1)?)?;
    }
    Ok(variables)
}

/// The variable of a number.
fn numbered_variable(alloc: Global, number: u32) -> Result<Variable, NoMemory>
    requires { number ≤ MOST_VARIABLES }
    ensures { IfOk result (λ variable. variable ≡ numbered_variable number) }
{
    Ok(Variable {
        name: numbered_name(alloc, b'x', number)?,
        values: eight_values(alloc)?,
    })
}

/// The values of each variable, in order.
fn eight_values(alloc: Global) -> Result<Sequence<Value>, NoMemory>
    ensures { IfOk result (λ values. values ≡ eight_values) }
{
    let mut values = Sequence::new(alloc);
    for number in 0..VALUES {
        values.push(numbered_value(alloc, number)?)?;
    }
    Ok(values)
}

/// The value of a number.
fn numbered_value(alloc: Global, number: u32) -> Result<Value, NoMemory>
    requires { number ≤ 7 }
    ensures { IfOk result (λ value. value ≡ numbered_value number) }
{
    Ok(Value {
        name: numbered_name(alloc, b'v', number)?,
        first: 10 * i64::from(number),
        second: 7 - i64::from(number),
    })
}

/// The rules for each two neighbours, in order.
fn all_rules(alloc: Global, size: Size) -> Result<Sequence<Rule>, NoMemory>
    ensures { IfOk result (λ rules. rules ≡ map neighbour_rule (range_with_len 0 (size - 1))) }
{
    let mut rules = Sequence::new(alloc);
    for place in 0..size.variables() - 1 {
        rules.push(neighbour_rule(alloc, place)?)?;
    }
    Ok(rules)
}

/// The variable at a place and the next one don't both take their first value.
fn neighbour_rule(alloc: Global, place: u32) -> Result<Rule, NoMemory>
    requires { place ≤ MOST_VARIABLES }
    ensures { IfOk result (λ rule. rule ≡ neighbour_rule place) }
{
    let mut both = Items::new(alloc);
    both.push(takes_first(place))?;
    both.push(takes_first(place + 1))?;
    Ok(Rule::Not(Boxed::new(alloc, Rule::And(both))?))
}

/// A variable takes its first value.
fn takes_first(variable: u32) -> Rule
    ensures { result ≡ Rule.Is variable 0 }
{
    Rule::Is { variable, value: 0 }
}
