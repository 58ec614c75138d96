//! Command lines, and what is read off each.

use anyhow::Result;
use pc_base::Line;
use pc_calls::{Call, LineCall, read_call};
use pc_names::Name;
use std::str::Utf8Error;

/// Lines, each with the byte from which it is read.
const LINES: &[(&[u8], u64)] = &[
    (b"open", 0),
    (b"1 show 7", 2),
    (b" choose  2 frame steel ", 0),
    (b"9 retract 3 frame", 1),
    (b"bound 4 days -20", 0),
    (b"12 unbound 5 days", 2),
    (b"rebase 6 2", 0),
    (b"rebase 6 2 dropping", 0),
    (b"close 0", 0),
    (b"publish 0 8192", 0),
    (b"reclaim 9223372036854775807", 0),
    (b"versions", 0),
    (b"leave", 0),
    (b"", 0),
    (b"   ", 0),
    (b"open", 9),
    (b"1 open", 0),
    (b"enter", 0),
    (b"opens", 0),
    (b"1 rebase 1 2 droping", 1),
    (b"rebase 1 2 dropping now", 0),
    (b"bound 1 days +2", 0),
    (b"bound 1 days", 0),
    (b"unbound 1", 0),
    (b"  close  1  2", 0),
    (b"reclaim v", 0),
    (b"versions 1", 0),
    (b"leave .", 0),
];

/// Tells what each line says.
pub fn tell(rt: &HostRuntime) -> Result<()> {
    for (bytes, from) in LINES.iter() {
        let line = Line::from_slice(rt.alloc(), bytes)?;
        match read_call(&line, *from) {
            Ok(LineCall::Whole(call)) => tell_call(rt, &call)?,
            Ok(LineCall::PublishHead { base, lines }) => {
                println!(rt; "publish over {base}, {lines} lines")?;
            }
            Err(bad) => println!(rt; "{bad}")?,
        }
    }
    Ok(())
}

/// Tells a call by its words.
fn tell_call(rt: &HostRuntime, call: &Call) -> Result<()> {
    match call {
        Call::Open => println!(rt; "open")?,
        Call::Show { session } => println!(rt; "show {session}")?,
        Call::Choose {
            session,
            variable,
            value,
        } => println!(rt; "choose in {session}: {} {}", text(variable)?, text(value)?)?,
        Call::Retract { session, variable } => println!(rt;
            "retract in {session}: {}",
            text(variable)?
        )?,
        Call::Bound {
            session,
            cost,
            most,
        } => println!(rt; "bound in {session}: {} at most {}", text(cost)?, *most)?,
        Call::Unbound { session, cost } => println!(rt; "unbound in {session}: {}", text(cost)?)?,
        Call::Rebase {
            session,
            version,
            dropping,
        } => println!(rt; "rebase {session} to {version}, dropping: {dropping}")?,
        Call::Close { session } => println!(rt; "close {session}")?,
        Call::Reclaim { version } => println!(rt; "reclaim {version}")?,
        Call::Versions => println!(rt; "versions")?,
        Call::Leave => println!(rt; "leave")?,
        Call::Enter | Call::Publish { .. } => println!(rt; "no call of one line")?,
    }
    Ok(())
}

/// The spelling of a name.
fn text(name: &Name) -> Result<&str, Utf8Error> {
    str::from_utf8(name.as_bytes())
}
