//! The text that a diagram prints.

ghost use Rattle.std.specs.Prelude.{◌≡◌, ◌<◌, ◌≤◌, ◌++◌, length, slice_index, OnErr, OnOk};
ghost use Rattle.std.specs.List.{flat_map};
ghost use Rattle.pc_base.specs.Grown.{HasGrown};
ghost use Rattle.pc_diagram.specs.Diagram.{IsCanonical};
ghost use Rattle.pc_diagram.specs.Levels.{level, row};
ghost use Rattle.pc_dump.specs.Dump.{domains_words, dump_text, header_words, layer_words, line_of, node_words, nodes};

use pc_base::{NoMemory, Text};
use pc_diagram::{Diagram, Steps};
use std::marker::Brand;
use std::sync::ledger::{Blank, Ledger};

/// Puts the text of a diagram at the end.
///
/// # Errors
///
/// `NoMemory` where memory is wanting; the text is then as it was.
pub fn push_dump(text: &mut Text, diagram: &Diagram) -> Result<(), NoMemory>
    ensures ok { OnOk result (text.new ≡ text.old ++ dump_text diagram.now) }
    ensures err { OnErr result (text.new ≡ text.old) }
{
    let before = text.len();
    let done = push_lines::<Brand>(text, diagram, Blank::new(1));
    if done.is_err() {
        text.truncate(before);
    }
    done
}

#[tactic(auto, using(pc_base::proofs::GrownLemmas::grown_same, pc_base::proofs::GrownLemmas::grown_on, pc_base::proofs::GrownLemmas::grown_further))]
fn push_lines<L: Ledger>(text: &mut Text, diagram: &Diagram, blank: Blank) -> Result<(), NoMemory>
    requires name { blank.name ≡ L.name }
    requires parts { blank.parts ≡ L.parts }
    requires some { 0 < blank.parts }
    ensures ok { OnOk result (text.new ≡ text.old ++ dump_text diagram.now) }
    ensures err { OnErr result (HasGrown text.old text.new) }
{
    let mut steps = Steps::<L>::new(blank);
    let domains = diagram.domains();
    push_domains(text, domains)?;
    for (variable, domain) in domains.iter().enumerate() {
        push_layer(text, diagram, variable as u32)?;
        push_nodes(text, diagram, variable as u32, *domain, &mut steps)?;
    }
    push_layer(text, diagram, domains.len() as u32)?;
    text.extend_from_slice(b"end\n")
}

/// The first two lines.
#[tactic(auto, using(pc_base::proofs::GrownLemmas::grown_same, pc_base::proofs::GrownLemmas::grown_on))]
fn push_domains(text: &mut Text, domains: &[u32]) -> Result<(), NoMemory>
    ensures ok { OnOk result (text.new ≡ text.old ++ line_of header_words ++ line_of (domains_words domains.now)) }
    ensures err { OnErr result (HasGrown text.old text.new) }
{
    text.extend_from_slice(b"diagram 1\ndomains")?;
    for domain in domains {
        text.push(b' ')?;
        text.push_unsigned(u64::from(*domain))?;
    }
    text.push(b'\n')
}

/// The line of a layer.
#[tactic(auto, using(pc_base::proofs::GrownLemmas::grown_same, pc_base::proofs::GrownLemmas::grown_on))]
fn push_layer(text: &mut Text, diagram: &Diagram, layer: u32) -> Result<(), NoMemory>
    requires { layer ≤ length diagram.now.domains }
    ensures ok { OnOk result (text.new ≡ text.old ++ line_of (layer_words layer (slice_index diagram.now.sizes layer))) }
    ensures err { OnErr result (HasGrown text.old text.new) }
{
    text.extend_from_slice(b"layer ")?;
    text.push_unsigned(u64::from(layer))?;
    text.push(b' ')?;
    text.push_unsigned(u64::from(diagram.nodes(layer)))?;
    text.push(b'\n')
}

/// The lines of a layer's nodes.
#[tactic(auto, using(pc_base::proofs::GrownLemmas::grown_same, pc_base::proofs::GrownLemmas::grown_on, pc_base::proofs::GrownLemmas::grown_further))]
fn push_nodes<L: Ledger>(
    text: &mut Text,
    diagram: &Diagram,
    variable: u32,
    domain: u32,
    steps: &mut Steps<L>,
) -> Result<(), NoMemory>
    requires canonical { IsCanonical diagram.now }
    requires variable { variable < length diagram.now.domains }
    requires domain { domain ≡ slice_index diagram.now.domains variable }
    ensures ok { OnOk result (text.new ≡ text.old
        ++ flat_map line_of (nodes domain (slice_index diagram.now.sizes variable) (level diagram.now variable).table)) }
    ensures err { OnErr result (HasGrown text.old text.new) }
{
    for node in 0..diagram.nodes(variable) {
        push_node(text, diagram, variable, domain, node, steps)?;
    }
    Ok(())
}

/// The line of a node.
#[tactic(auto, using(pc_base::proofs::GrownLemmas::grown_same, pc_base::proofs::GrownLemmas::grown_on))]
fn push_node<L: Ledger>(
    text: &mut Text,
    diagram: &Diagram,
    variable: u32,
    domain: u32,
    node: u32,
    steps: &mut Steps<L>,
) -> Result<(), NoMemory>
    requires variable { variable < length diagram.now.domains }
    requires domain { domain ≡ slice_index diagram.now.domains variable }
    requires node { node < slice_index diagram.now.sizes variable }
    requires count { length (row (level diagram.now variable) node) ≡ domain }
    ensures ok { OnOk result (text.new ≡ text.old ++ line_of (node_words (row (level diagram.now variable) node))) }
    ensures err { OnErr result (HasGrown text.old text.new) }
{
    text.push(b'n')?;
    for value in 0..domain {
        text.push(b' ')?;
        match diagram.edge(variable, node, value, steps) {
            Some(target) => text.push_unsigned(u64::from(target))?,
            None => text.push(b'-')?,
        }
    }
    text.push(b'\n')
}
