//! The text of a listing.

use pc_base::{NoMemory, Text};
use pc_diagram::Listing;
use pc_file::{File, push_listing};
use std::alloc::Global;

/// The lines of a listing of a file's values.
pub fn text_of(alloc: Global, file: &File, listing: &Listing) -> Result<Text, NoMemory> {
    let mut text = Text::new(alloc);
    push_listing(&mut text, file.variables(), listing)?;
    Ok(text)
}
