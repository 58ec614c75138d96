//! The kinds of lines of a diagram's text, by their words.

ghost use Rattle.std.specs.Prelude.{◌≡◌, ◌≢◌, ◌↔◌, ℕ, List, Option, map, decimal, length, All, Some, None, true, false, IfOk, IfSome, IsTrue};
ghost use Rattle.pc_dump.specs.Dump.{domains_words, edge_word, end_words, header_words, layer_words, node_words};
ghost use Rattle.pc_dump.specs.Form.{IsEdge, IsNumber};
ghost use Rattle.pc_dump.specs.Put.{AreEdgesPut, IsRowPut};

use crate::numbers::{edge_of, is_word, number_of};
use pc_base::{NoMemory, Sequence};
use std::alloc::Global;

/// A layer's number, and how many nodes it has.
#[derive(Clone, Copy, Debug)]
pub(crate) struct LayerLine {
    pub layer: u32,
    pub size: u32,
}

/// Whether these are the words of the first line.
pub(crate) fn is_header(words: &[&[u8]]) -> bool
    ensures { IsTrue result ↔ (map (λ word. word.now) words.now ≡ header_words) }
{
    match words {
        [first, second] => is_word(first, b"diagram") && is_word(second, b"1"),
        _ => false,
    }
}

/// Whether these are the words of the last line.
pub(crate) fn is_end(words: &[&[u8]]) -> bool
    ensures { IsTrue result ↔ (map (λ word. word.now) words.now ≡ end_words) }
{
    match words {
        [word] => is_word(word, b"end"),
        _ => false,
    }
}

/// What the words of a layer's line say.
pub(crate) fn layer_line(words: &[&[u8]]) -> Option<LayerLine>
    ensures is { IfSome result (λ line. map (λ word. word.now) words.now ≡ layer_words line.layer line.size) }
    ensures small { IfSome result (λ line. IsNumber line.layer × IsNumber line.size) }
    ensures every { (layer size : ℕ) → IsNumber layer → IsNumber size → map (λ word. word.now) words.now ≡ layer_words layer size
        → result ≡ Some (record { layer = layer; size = size }) }
{
    match words {
        [first, layer, size] if is_word(first, b"layer") => Some(LayerLine {
            layer: number_of(layer)?,
            size: number_of(size)?,
        }),
        _ => None,
    }
}

/// The numbers that the words of the second line give.
pub(crate) fn domains_line(
    alloc: Global,
    words: &[&[u8]],
) -> Result<Option<Sequence<u32>>, NoMemory>
    ensures is { IfOk result (λ found. IfSome found (λ domains. map (λ word. word.now) words.now ≡ domains_words domains)) }
    ensures small { IfOk result (λ found. IfSome found (All IsNumber)) }
    ensures every { result ≡ Ok None → (domains : List ℕ) → All IsNumber domains → map (λ word. word.now) words.now ≢ domains_words domains }
{
    match words {
        [first, numbers @ ..] if is_word(first, b"domains") => numbers_of(alloc, numbers),
        _ => Ok(None),
    }
}

/// The numbers that words are, or None where one isn't.
fn numbers_of(alloc: Global, words: &[&[u8]]) -> Result<Option<Sequence<u32>>, NoMemory>
    ensures is { IfOk result (λ found. IfSome found (λ numbers. map (λ word. word.now) words.now ≡ map decimal numbers)) }
    ensures small { IfOk result (λ found. IfSome found (All IsNumber)) }
    ensures every { result ≡ Ok None → (numbers : List ℕ) → All IsNumber numbers → map (λ word. word.now) words.now ≢ map decimal numbers }
{
    let mut numbers = Sequence::with_capacity(alloc, words.len())?;
    for word in words {
        match number_of(word) {
            Some(number) => numbers.push(number)?,
            None => return Ok(None),
        }
    }
    Ok(Some(numbers))
}

/// Puts the edges that the words of a node's line give at the end of a table, or tells that it is no such line with so
/// many edges; then the table is of no use.
pub(crate) fn push_node_line(
    table: &mut Sequence<Option<u32>>,
    words: &[&[u8]],
    count: u32,
) -> Result<bool, NoMemory>
    ensures is { result ≡ Ok true → IsRowPut (map (λ word. word.now) words.now) count table.old table.new }
    ensures every { result ≡ Ok false → (row : List (Option ℕ)) → length row ≡ count → All IsEdge row → map (λ word. word.now) words.now ≢ node_words row }
{
    match words {
        [first, edges @ ..] if is_word(first, b"n") && edges.len() == count as usize => push_edges(
            table, edges,
        ),
        _ => Ok(false),
    }
}

/// Puts the edges that words are at the end, or tells that one word is none.
fn push_edges(table: &mut Sequence<Option<u32>>, words: &[&[u8]]) -> Result<bool, NoMemory>
    ensures is { result ≡ Ok true → AreEdgesPut (map (λ word. word.now) words.now) table.old table.new }
    ensures every { result ≡ Ok false → (row : List (Option ℕ)) → All IsEdge row → map (λ word. word.now) words.now ≢ map edge_word row }
{
    for word in words {
        match edge_of(word) {
            Some(edge) => table.push(edge)?,
            None => return Ok(false),
        }
    }
    Ok(true)
}
