//! Visits: the calls of a shopper, and what each is answered.

use crate::opened::{opened, stored_file};
use crate::text::text_of;
use anyhow::{Result, bail};
use pc_base::Line;
use pc_calls::{Call, LineCall, Outcome, read_call};
use pc_diagram::Steps;
use pc_file::SharedFile;
use pc_session::{Answer, Session};
use std::alloc::Global;
use std::fs;
use std::sync::ledger::Ledger;

/// What is told of an answer.
#[derive(Clone, Copy, PartialEq, Eq)]
pub enum Told {
    Outcome,
    /// The outcome and the listing, where there is one.
    Listing,
}

/// Tells what each line of a file of calls is answered at a session of a stored product. After `open` it is a new one.
pub fn tell_visits<L: Ledger>(
    rt: &HostRuntime,
    product: &str,
    visits: &str,
    told: Told,
    steps: &mut Steps<L>,
) -> Result<()> {
    let alloc = rt.alloc();
    let file = stored_file(rt, product)?;
    let (mut session, _listing) = opened(alloc, file.share()?)?;
    let lines = fs::read_to_string(rt, visits)?;
    for line in lines.as_str().lines() {
        let call = call_of(alloc, line)?;
        if matches!(&call, Call::Open) {
            let (other, _listing) = opened(alloc, file.share()?)?;
            session = other;
        }
        let answer = answer_to(&mut session, &call, steps)?;
        println!(rt; "{line}: {:?}", answer.outcome)?;
        if told == Told::Listing {
            tell_listing(rt, &file, &answer)?;
        }
    }
    Ok(())
}

/// The call that a line says.
fn call_of(alloc: Global, line: &str) -> Result<Call> {
    let line = Line::from_slice(alloc, line.as_bytes())?;
    match read_call(&line, 0)? {
        LineCall::Whole(call) => Ok(call),
        LineCall::PublishHead { .. } => bail!("a publish is no call of a session"),
    }
}

/// What a session answers to a call.
fn answer_to<L: Ledger>(
    session: &mut Session,
    call: &Call,
    steps: &mut Steps<L>,
) -> Result<Answer> {
    match call {
        Call::Open | Call::Show { .. } => Ok(Answer {
            outcome: Outcome::Done,
            listing: Some(session.show()?),
        }),
        Call::Choose {
            variable,
            value,
            ..
        } => Ok(session.choose(variable, value, steps)?),
        Call::Retract { variable, .. } => Ok(session.retract(variable, steps)?),
        Call::Bound { cost, most, .. } => Ok(session.bound(cost, *most)?),
        Call::Unbound { cost, .. } => Ok(session.unbound(cost)?),
        _ => bail!("no call of a session"),
    }
}

/// Tells the listing of an answer, if it has one.
fn tell_listing(rt: &HostRuntime, file: &SharedFile, answer: &Answer) -> Result<()> {
    if let Some(listing) = &answer.listing {
        let text = text_of(rt.alloc(), file.file(), listing)?;
        print!(rt; "{}", str::from_utf8(text.as_slice())?)?;
    }
    Ok(())
}
