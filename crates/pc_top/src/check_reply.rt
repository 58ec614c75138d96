//! The answers to a dump.

ghost use Rattle.std.specs.Prelude.{◌≢◌, sum, IfOk, OnOk};
ghost use Rattle.pc_diagram.specs.Levels.{edge_count};
ghost use Rattle.pc_top.specs.CheckMeans.{CheckTells, good, refused_at, refused_diagram, refused_form};
ghost use Rattle.pc_top.specs.Response.{Is};

use crate::response::Response;
use crate::status::Status;
use pc_base::{NoMemory, Text};
use pc_diagram::{Diagram, DiagramFault};
use pc_dump::Dump;
use std::alloc::Global;

/// What is told of a dump's lines: how many nodes and edges the diagram has whose text they are; or one line that says
/// why they are that of none.
pub fn check_reply(alloc: Global, dump: Dump) -> Result<Response, NoMemory>
    ensures { IfOk result (λ reply. CheckTells dump reply.status reply.text) }
{
    match dump {
        Dump::Tables(raw) => match Diagram::check(alloc, raw) {
            Ok(diagram) => good(alloc, &diagram),
            Err(fault) => refused_diagram(alloc, fault),
        },
        Dump::Misfit { line } => refused_form(alloc, line),
    }
}

/// The line for a diagram.
fn good(alloc: Global, diagram: &Diagram) -> Result<Response, NoMemory>
    ensures { IfOk result (λ reply. Is reply (good (sum diagram.now.sizes) (edge_count diagram.now))) }
{
    let mut text = Text::from_slice(alloc, b"good ")?;
    text.push_unsigned(diagram.node_count())?;
    text.push(b' ')?;
    text.push_unsigned(diagram.edge_count())?;
    text.push(b'\n')?;
    Ok(Response {
        status: Status::Done,
        text,
    })
}

/// The line for lines that aren't the text of tables.
fn refused_form(alloc: Global, line: u64) -> Result<Response, NoMemory>
    ensures { IfOk result (λ reply. Is reply (refused_form line)) }
{
    let mut text = Text::from_slice(alloc, b"refused form ")?;
    text.push_unsigned(line)?;
    text.push(b'\n')?;
    Ok(Response {
        status: Status::Refused,
        text,
    })
}

/// The line for tables that are those of no diagram.
fn refused_diagram(alloc: Global, fault: DiagramFault) -> Result<Response, NoMemory>
    ensures is { IfOk result (λ reply. Is reply (refused_diagram fault)) }
    ensures named { OnOk result (fault ≢ DiagramFault.NoMemory) }
{
    match fault {
        DiagramFault::Shape { layer, node } => refused_at(alloc, b"shape", layer, node),
        DiagramFault::EdgeOut { layer, node } => refused_at(alloc, b"edge-out", layer, node),
        DiagramFault::Dead { layer, node } => refused_at(alloc, b"dead", layer, node),
        DiagramFault::Unreached { layer, node } => refused_at(alloc, b"unreached", layer, node),
        DiagramFault::Twin { layer, node } => refused_at(alloc, b"twin", layer, node),
        DiagramFault::Order { layer, node } => refused_at(alloc, b"order", layer, node),
        DiagramFault::NoMemory => Err(NoMemory),
    }
}

fn refused_at(alloc: Global, kind: &[u8], layer: u32, node: u32) -> Result<Response, NoMemory>
    ensures { IfOk result (λ reply. Is reply (refused_at kind.now layer node)) }
{
    let mut text = Text::from_slice(alloc, b"refused diagram ")?;
    text.extend_from_slice(kind)?;
    text.push(b' ')?;
    text.push_unsigned(u64::from(layer))?;
    text.push(b' ')?;
    text.push_unsigned(u64::from(node))?;
    text.push(b'\n')?;
    Ok(Response {
        status: Status::Refused,
        text,
    })
}
