//! Texts at their limits and one past them.

use anyhow::Result;
use pc_base::{NoMemory, Text};
use pc_text::read_file;
use std::alloc::Global;

/// The lines of each text before its rules.
const HEAD: &[u8] = b"product 1\ncost price\nvariable kind\nvalue only 7\n";

/// How much stands after the lines before the rules.
struct Size {
    rules: usize,
    /// Empty lines after `end`.
    empty: usize,
    /// Comments of 65,535 bytes and a line feed.
    comments: usize,
    /// Bytes of the last line, a comment without a line feed.
    last: usize,
}

const SIZES: [Size; 8] = [
    Size {
        rules: 1_024,
        empty: 0,
        comments: 0,
        last: 0,
    },
    Size {
        rules: 1_025,
        empty: 0,
        comments: 0,
        last: 0,
    },
    Size {
        rules: 0,
        empty: 8_187,
        comments: 0,
        last: 0,
    },
    Size {
        rules: 0,
        empty: 8_188,
        comments: 0,
        last: 0,
    },
    Size {
        rules: 0,
        empty: 0,
        comments: 0,
        last: 65_536,
    },
    Size {
        rules: 0,
        empty: 0,
        comments: 0,
        last: 65_537,
    },
    Size {
        rules: 0,
        empty: 0,
        comments: 15,
        last: 65_484,
    },
    Size {
        rules: 0,
        empty: 0,
        comments: 15,
        last: 65_485,
    },
];

/// Prints the first fault of each text.
pub fn tell_sizes(rt: &HostRuntime) -> Result<()> {
    for size in &SIZES {
        let text = sized(rt.alloc(), size)?;
        print!(rt; "{} rules, {} bytes: ", size.rules, text.len())?;
        match read_file(rt.alloc(), text.as_slice()) {
            Ok(_) => println!(rt; "a file")?,
            Err(fault) => println!(rt; "{fault}")?,
        }
    }
    Ok(())
}

fn sized(alloc: Global, size: &Size) -> Result<Text, NoMemory> {
    let mut text = Text::from_slice(alloc, HEAD)?;
    repeat(&mut text, b"rule kind=only\n", size.rules)?;
    text.extend_from_slice(b"end\n")?;
    repeat(&mut text, b"\n", size.empty)?;
    for _ in 0..size.comments {
        repeat(&mut text, b"#", 65_535)?;
        text.push(b'\n')?;
    }
    repeat(&mut text, b"#", size.last)?;
    Ok(text)
}

/// So many times the same bytes at the end of a text.
fn repeat(text: &mut Text, bytes: &[u8], times: usize) -> Result<(), NoMemory> {
    for _ in 0..times {
        text.extend_from_slice(bytes)?;
    }
    Ok(())
}
