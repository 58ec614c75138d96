//! The answers to a product text.

ghost use Rattle.std.specs.Prelude.{IfOk};

use crate::building::{Built, build};
use crate::listing::push_open_listing;
use crate::status::Status;
use pc_base::{NoMemory, Text};
use pc_build::Version;
use pc_diagram::Diagram;
use pc_dump::push_dump;
use std::alloc::Global;

/// A status and all bytes of the output.
#[derive(Debug, Drop)]
pub struct Response {
    pub status: Status,
    pub text: Text,
}

impl Response {
    ghost use Rattle.pc_top.specs.ListReply.{list_reply, listing_reply};
    ghost use Rattle.pc_top.specs.ListMeans.{ListMeans};
    ghost use Rattle.pc_top.specs.DumpMeans.{DumpMeans, dumped_text};
    ghost use Rattle.pc_top.specs.Response.{Is};

    /// The answer to a product text: the listing of the file that it spells, without choices and bounds, and a line
    /// `.`; or one line that says why there is none.
    pub fn to_list(alloc: Global, text: &[u8]) -> Result<Response, NoMemory>
        ensures exact { IfOk result (λ reply. Is reply (list_reply text.now)) }
        ensures means { IfOk result (λ reply. ListMeans reply.status text.now reply.text) }
    {
        match build(alloc, text)? {
            Built::Version(version) => Response::listed(alloc, &version),
            Built::Refused(reply) => Ok(reply),
        }
    }

    /// The listing of a version, and a line `.`.
    fn listed(alloc: Global, version: &Version) -> Result<Response, NoMemory>
        ensures { IfOk result (λ reply. Is reply (listing_reply version.now.file)) }
    {
        let mut text = Text::new(alloc);
        push_open_listing(alloc, &mut text, version)?;
        text.extend_from_slice(b".\n")?;
        Ok(Response {
            status: Status::Done,
            text,
        })
    }

    /// The answer to a product text: the text of the diagram of the file that it spells; or one line that says why there
    /// is none.
    pub fn to_dump(alloc: Global, text: &[u8]) -> Result<Response, NoMemory>
        ensures { IfOk result (λ reply. DumpMeans reply.status text.now reply.text) }
    {
        match build(alloc, text)? {
            Built::Version(version) => Response::dumped(alloc, &version.diagram),
            Built::Refused(reply) => Ok(reply),
        }
    }

    /// The text of a diagram.
    fn dumped(alloc: Global, diagram: &Diagram) -> Result<Response, NoMemory>
        ensures { IfOk result (λ reply. Is reply (dumped_text diagram.now)) }
    {
        let mut text = Text::new(alloc);
        push_dump(&mut text, diagram)?;
        Ok(Response {
            status: Status::Done,
            text,
        })
    }
}
