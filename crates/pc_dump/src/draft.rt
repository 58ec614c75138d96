//! Tables that are read line by line.

ghost use Rattle.std.specs.Prelude.{◌≡◌, ◌<◌, map, true, false, OnOk};
ghost use Rattle.pc_dump.specs.Draft.{IsBegun, IsDraft, IsOpen, Refuses, Settles, TakesLine, tables_of};
ghost use Rattle.pc_dump.specs.Form.{AreTables};

use crate::kinds::{LayerLine, domains_line, is_end, is_header, layer_line, push_node_line};
use pc_base::{NoMemory, Sequence};
use std::alloc::Global;
use std::mem;

/// What the next line has to be.
#[derive(Clone, Copy, Debug)]
pub(crate) enum Awaited {
    Header,
    Domains,
    /// A layer's own line. So many are whole.
    Layer,
    /// One of the nodes that are left of a layer of this size.
    Node { size: u32, left: u32 },
    End,
    Nothing,
}

/// The tables so far: the whole layers, and the edges of the nodes of the layer that is open.
#[derive(Debug, Drop)]
pub(crate) struct Draft {
    pub domains: Sequence<u32>,
    pub sizes: Sequence<u32>,
    pub edges: Sequence<Sequence<Option<u32>>>,
    pub rows: Sequence<Option<u32>>,
    pub awaited: Awaited,
}

impl Draft {
    /// Nothing was read.
    pub(crate) fn new(alloc: Global) -> Draft
        ensures { result.awaited ≡ Awaited.Header }
    {
        Draft {
            domains: Sequence::new(alloc),
            sizes: Sequence::new(alloc),
            edges: Sequence::new(alloc),
            rows: Sequence::new(alloc),
            awaited: Awaited::Header,
        }
    }

    /// Takes the words of the next line, if some tables go on with it.
    pub(crate) fn take(&mut self, alloc: Global, words: &[&[u8]]) -> Result<bool, NoMemory>
        requires { IsDraft self.old }
        ensures taken { result ≡ Ok true → TakesLine (map (λ word. word.now) words.now) self.old self.new }
        ensures refused { result ≡ Ok false → Refuses (map (λ word. word.now) words.now) self.old }
    {
        match self.awaited {
            Awaited::Header => Ok(self.take_header(words)),
            Awaited::Domains => self.take_domains(alloc, words),
            Awaited::Layer => self.take_layer(alloc, words),
            Awaited::Node { size, left } => self.take_node(alloc, words, size, left),
            Awaited::End => Ok(self.take_end(words)),
            Awaited::Nothing => Ok(false),
        }
    }

    fn take_header(&mut self, words: &[&[u8]]) -> bool
        requires { self.old.awaited ≡ Awaited.Header }
        ensures taken { result ≡ true → TakesLine (map (λ word. word.now) words.now) self.old self.new }
        ensures refused { result ≡ false → Refuses (map (λ word. word.now) words.now) self.old }
    {
        if !is_header(words) {
            return false;
        }
        self.awaited = Awaited::Domains;
        true
    }

    fn take_domains(&mut self, alloc: Global, words: &[&[u8]]) -> Result<bool, NoMemory>
        requires { self.old.awaited ≡ Awaited.Domains }
        ensures taken { result ≡ Ok true → TakesLine (map (λ word. word.now) words.now) self.old self.new }
        ensures refused { result ≡ Ok false → Refuses (map (λ word. word.now) words.now) self.old }
    {
        let Some(domains) = domains_line(alloc, words)? else {
            return Ok(false);
        };
        if domains.len() > u32::MAX as usize {
            return Ok(false);
        }
        *self = Draft {
            domains,
            sizes: Sequence::new(alloc),
            edges: Sequence::new(alloc),
            rows: Sequence::new(alloc),
            awaited: Awaited::Layer,
        };
        Ok(true)
    }

    fn take_layer(&mut self, alloc: Global, words: &[&[u8]]) -> Result<bool, NoMemory>
        requires awaited { self.old.awaited ≡ Awaited.Layer }
        requires begun { IsBegun self.old }
        ensures taken { result ≡ Ok true → TakesLine (map (λ word. word.now) words.now) self.old self.new }
        ensures refused { result ≡ Ok false → Refuses (map (λ word. word.now) words.now) self.old }
    {
        let Some(LayerLine { layer, size }) = layer_line(words) else {
            return Ok(false);
        };
        if layer as usize != self.edges.len() {
            return Ok(false);
        }
        if self.edges.len() == self.domains.len() {
            self.sizes.push(size)?;
            self.awaited = Awaited::End;
        } else {
            self.rows = Sequence::new(alloc);
            self.await_nodes(alloc, size, size)?;
        }
        Ok(true)
    }

    fn take_node(
        &mut self,
        alloc: Global,
        words: &[&[u8]],
        size: u32,
        left: u32,
    ) -> Result<bool, NoMemory>
        requires awaited { self.old.awaited ≡ Awaited.Node size left }
        requires some { 0 < left }
        requires open { IsOpen size left self.old }
        ensures taken { result ≡ Ok true → TakesLine (map (λ word. word.now) words.now) self.old self.new }
        ensures refused { result ≡ Ok false → Refuses (map (λ word. word.now) words.now) self.old }
    {
        let domain = self.domains.as_slice()[self.edges.len()];
        if !push_node_line(&mut self.rows, words, domain)? {
            return Ok(false);
        }
        self.await_nodes(alloc, size, left - 1)?;
        Ok(true)
    }

    fn take_end(&mut self, words: &[&[u8]]) -> bool
        requires awaited { self.old.awaited ≡ Awaited.End }
        requires tables { AreTables (tables_of self.old) }
        ensures taken { result ≡ true → TakesLine (map (λ word. word.now) words.now) self.old self.new }
        ensures refused { result ≡ false → Refuses (map (λ word. word.now) words.now) self.old }
    {
        if !is_end(words) {
            return false;
        }
        self.awaited = Awaited::Nothing;
        true
    }

    /// Waits for the nodes that are left of a layer of this size, or closes it where none is.
    fn await_nodes(&mut self, alloc: Global, size: u32, left: u32) -> Result<(), NoMemory>
        requires { IsOpen size left self.old }
        ensures { OnOk result (Settles (Awaited.Node size left) self.old self.new) }
    {
        if left > 0 {
            self.awaited = Awaited::Node { size, left };
            return Ok(());
        }
        self.sizes.push(size)?;
        self.edges
            .push(mem::replace(&mut self.rows, Sequence::new(alloc)))?;
        self.awaited = Awaited::Layer;
        Ok(())
    }
}
