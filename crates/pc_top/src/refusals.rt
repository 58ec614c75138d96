//! The answers that refuse a product text, each one line.

ghost use Rattle.std.specs.Prelude.{IfOk};
ghost use Rattle.pc_top.specs.Refusals.{refused_no_product, refused_node_limit, refused_text};
ghost use Rattle.pc_top.specs.Response.{Is};

use crate::response::Response;
use crate::status::Status;
use pc_base::{NoMemory, Text};
use pc_text::Kind;
use std::alloc::Global;

/// The line for a text with a fault.
pub fn refused_text(alloc: Global, line: u64, kind: Kind) -> Result<Response, NoMemory>
    ensures { IfOk result (λ reply. Is reply (refused_text line kind)) }
{
    let mut text = Text::from_slice(alloc, b"refused text ")?;
    text.push_unsigned(line)?;
    text.push(b' ')?;
    text.extend_from_slice(kind.word().as_bytes())?;
    text.push(b'\n')?;
    Ok(Response {
        status: Status::Refused,
        text,
    })
}

/// The line for a file of which a set is too large.
pub fn refused_node_limit(alloc: Global, rule: u32, part: u32) -> Result<Response, NoMemory>
    ensures { IfOk result (λ reply. Is reply (refused_node_limit rule part)) }
{
    let mut text = Text::from_slice(alloc, b"refused node-limit ")?;
    text.push_unsigned(u64::from(rule))?;
    text.push(b' ')?;
    text.push_unsigned(u64::from(part))?;
    text.push(b'\n')?;
    Ok(Response {
        status: Status::Refused,
        text,
    })
}

/// The line for a file without a product.
pub fn refused_no_product(alloc: Global) -> Result<Response, NoMemory>
    ensures { IfOk result (λ reply. Is reply refused_no_product) }
{
    Ok(Response {
        status: Status::Refused,
        text: Text::from_slice(alloc, b"refused no-product\n")?,
    })
}
