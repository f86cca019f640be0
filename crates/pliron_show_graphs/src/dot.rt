//! The dot language of Graphviz.
//!
//! A node is named by its number, and a cluster by `cluster` and its number, so no name needs quotes. Each value of an
//! attribute is quoted: each quote, each backslash, and the `l` that ends a line is written behind a backslash.
ghost use Rattle.std.specs.Prelude.{◌≡◌, ◌++◌, OnOk};
ghost use Rattle.pliron_show_graphs.specs.Quoting.{quote, written_byte};

use std::alloc::{AllocError, Global};

/// An attribute of a node, an edge or a cluster: a name of the language, and any text.
#[derive(Clone, Copy)]
pub struct Attribute<'a> {
    pub name: &'a str,
    pub value: &'a str,
}

/// A directed graph as it is written, so far.
#[derive(Drop)]
pub struct Dot {
    alloc: Global,
    text: Vec<u8>,
}

// Writes the byte as it is written inside quotes. Errors: allocation failure. Cost: constant.
fn push_byte(text: &mut Vec<u8>, byte: u8) -> Result<(), AllocError>
    ensures { OnOk result (text.new.items ≡ text.old.items ++ written_byte byte) }
{
    match byte {
        b'"' => text.extend_from_slice(b"\\\""),
        b'\\' => text.extend_from_slice(b"\\\\"),
        b'\n' => text.extend_from_slice(b"\\l"),
        _ => Ok(text.push(byte)?),
    }
}

/// Writes the text in quotes: whoever reads the string gets it back, and nothing of it ends the string.
///
/// Errors: allocation failure. Cost: linear in it.
#[tactic(auto, using(crate::proofs::DotLemmas::quoted_whole))]
pub fn push_quoted(text: &mut Vec<u8>, value: &[u8]) -> Result<(), AllocError>
    ensures { OnOk result (text.new.items ≡ text.old.items ++ quote value.now) }
{
    text.push(b'"')?;
    for byte in value {
        push_byte(text, *byte)?;
    }
    text.push(b'"')?;
    Ok(())
}

impl Dot {
    /// A graph of this name, a word of letters, which has nothing so far. Errors: allocation failure. Cost: constant.
    pub fn new(alloc: Global, name: &str) -> Result<Self, AllocError> {
        let mut dot = Dot {
            alloc,
            text: Vec::new(alloc),
        };
        dot.push("digraph ")?;
        dot.push(name)?;
        dot.push(" {\n")?;
        Ok(dot)
    }

    fn push(&mut self, words: &str) -> Result<(), AllocError> {
        self.text.extend_from_slice(words.as_bytes())
    }

    // Writes a word and a number behind it.
    fn push_name(&mut self, word: &str, number: u64) -> Result<(), AllocError> {
        self.push(word)?;
        let digits = number.to_string(self.alloc)?;
        self.push(digits.as_str())
    }

    // Writes the attributes in brackets, if there are any, and ends the line.
    fn push_attributes(&mut self, attributes: &[Attribute]) -> Result<(), AllocError> {
        let mut before = " [";
        for attribute in attributes {
            self.push(before)?;
            self.push(attribute.name)?;
            self.push("=")?;
            push_quoted(&mut self.text, attribute.value.as_bytes())?;
            before = ", ";
        }
        self.push(if attributes.is_empty() { ";\n" } else { "];\n" })
    }

    /// Gives these attributes to all nodes (`node`) or edges (`edge`) that follow. Errors: allocation failure. Cost:
    /// linear in their length.
    pub fn all(&mut self, word: &str, attributes: &[Attribute]) -> Result<(), AllocError> {
        self.push("  ")?;
        self.push(word)?;
        self.push_attributes(attributes)
    }

    /// Writes a node. Errors: allocation failure. Cost: linear in the length of its attributes.
    pub fn node(&mut self, number: u64, attributes: &[Attribute]) -> Result<(), AllocError> {
        self.push_name("  ", number)?;
        self.push_attributes(attributes)
    }

    /// Writes an edge from a node to another. Errors: allocation failure. Cost: linear in the length of its attributes.
    pub fn edge(&mut self, from: u64, to: u64, attributes: &[Attribute]) -> Result<(), AllocError> {
        self.push_name("  ", from)?;
        self.push_name(" -> ", to)?;
        self.push_attributes(attributes)
    }

    /// Opens a cluster: the nodes up to its end are drawn in one frame. Errors: allocation failure. Cost: constant.
    pub fn open_cluster(&mut self, number: u64) -> Result<(), AllocError> {
        self.push_name("  subgraph cluster", number)?;
        self.push(" {\n")
    }

    /// Ends the cluster. Errors: allocation failure. Cost: constant.
    pub fn close_cluster(&mut self) -> Result<(), AllocError> {
        self.push("  }\n")
    }

    /// The text of the whole graph. Errors: allocation failure. Cost: constant.
    pub fn end(mut self) -> Result<Vec<u8>, AllocError> {
        self.push("}\n")?;
        Ok(self.text)
    }
}
