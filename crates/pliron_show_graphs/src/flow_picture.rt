//! The picture of a region: its blocks with their operations, and the edges between them.
ghost use Rattle.pliron_core.specs.Tree.{IsBlock, IsLive};
ghost use Rattle.pliron_graph_traversal.specs.Regions.{IsLawfulRegion};

use crate::dot::{Attribute, Dot};
use crate::flow_text::may_be_read;
use crate::graph_row::{GraphRow, graph_rows};
use pliron_core::{BasicBlock, Context, Operation, Ptr, Region};
use pliron_laws::OptError;
use pliron_laws::reads::all_operations;
use pliron_show::{ShownNotation, name_of_head};
use pliron_show_places::{TextParts, push_on_one_line};
use std::alloc::{AllocError, Global};
use std::marker::PhantomData;

/// Which region of a text's operation is drawn, and how.
#[derive(Clone, Copy)]
pub struct FlowOptions<'w> {
    /// The path to the region.
    pub region: &'w str,
    /// Whether the immediate dominator of each block is drawn.
    pub dominators: bool,
    /// Whether blocks are drawn by their heads alone, without operations.
    pub blocks_alone: bool,
    /// Whether the regions inside are drawn, too, each in a frame.
    pub nested: bool,
    /// What is written above the picture, if it isn't empty.
    pub title: &'w str,
}

/// How all nodes look: in boxes.
static BOXES: [Attribute<'static>; 2] = [
    Attribute {
        name: "shape",
        value: "box",
    },
    Attribute {
        name: "fontname",
        value: "monospace",
    },
];

/// How all edges look.
static LETTERS: [Attribute<'static>; 1] = [Attribute {
    name: "fontname",
    value: "monospace",
}];

/// An edge from the immediate dominator of a block.
static DOTTED: [Attribute<'static>; 3] = [
    Attribute {
        name: "style",
        value: "dotted",
    },
    Attribute {
        name: "color",
        value: "blue",
    },
    Attribute {
        name: "constraint",
        value: "false",
    },
];

/// How all nodes look where blocks are drawn by their heads alone: small boxes, which stay legible where there are
/// thousands.
static SMALL_BOXES: [Attribute<'static>; 4] = [
    Attribute {
        name: "shape",
        value: "box",
    },
    Attribute {
        name: "fontname",
        value: "monospace",
    },
    Attribute {
        name: "height",
        value: "0.25",
    },
    Attribute {
        name: "margin",
        value: "0.06",
    },
];

/// How a block is drawn.
#[derive(Clone, Copy)]
struct BlockLook {
    is_reached: bool,
    is_entry: bool,
}

// The attributes of a node or an edge: its label, if it has one, grey where the entry doesn't reach it, and two lines
// around the entry. Errors: allocation failure.
fn looks<'l>(
    alloc: Global,
    label: &'l str,
    look: BlockLook,
) -> Result<Vec<Attribute<'l>>, AllocError> {
    let mut looks = Vec::new(alloc);
    let lines = if look.is_entry { "2" } else { "" };
    let colour = if look.is_reached { "" } else { "grey" };
    for (name, value) in [
        ("label", label),
        ("peripheries", lines),
        ("color", colour),
        ("fontcolor", colour),
    ] {
        if !value.is_empty() {
            looks.push(Attribute { name, value })?;
        }
    }
    Ok(looks)
}

// Adds which way an edge is and what it forwards, with a blank on both sides to keep the words off the line.
fn push_passed(label: &mut String, way: &str, names: &[u8]) -> Result<(), AllocError> {
    if names.is_empty() && way.is_empty() {
        return Ok(());
    }
    label.push_str(" ")?;
    label.push_str(way)?;
    if !names.is_empty() {
        label.push_str(if way.is_empty() { "" } else { ": " })?;
        push_on_one_line(label, names)?;
    }
    label.push_str(" ")
}

/// What is drawn next.
#[derive(Drop)]
enum PictureStep {
    /// A region inside, with the path to it, in a frame.
    Region(Ptr<Region>, String),
    /// The end of a frame.
    End,
}

/// A region that is drawn, and those inside it.
#[derive(Drop)]
struct FlowPicture<'p, N> {
    alloc: Global,
    of: PhantomData<N>,
    text: &'p [u8],
    words: &'p TextParts,
    options: &'p FlowOptions<'p>,
    dot: Dot,
    /// The regions inside the one that was drawn last, in order.
    inner: Vec<PictureStep>,
    /// How many frames were opened.
    frames: u64,
}

impl<N: ShownNotation> FlowPicture<'_, N> {
    // The label of an operation: its words, and the paths to its regions. `path` leads to the operation.
    fn push_operation(
        &mut self,
        ctx: &Context,
        op: Ptr<Operation>,
        path: &str,
        label: &mut String,
    ) -> Result<(), AllocError>
        requires { IsLive ctx.now.tree op }
    {
        push_on_one_line(
            label,
            self.words.operation(self.text, op.key()).unwrap_or(b"_"),
        )?;
        for i in 0..op.num_region(ctx) {
            write!(label, " {{ {path}.{i} }}")?;
            if self.options.nested {
                let inner = format!(in self.alloc; "{path}.{i}")?;
                self.inner
                    .push(PictureStep::Region(op.get_region(ctx, i), inner))?;
            }
        }
        label.push_str("\n")
    }

    // The label of a block before which its region has so many operations: its head, and its operations.
    fn push_block(
        &mut self,
        ctx: &Context,
        block: Ptr<BasicBlock>,
        path: &str,
        before: usize,
        label: &mut String,
    ) -> Result<usize, AllocError>
        requires { IsBlock ctx.now.tree block }
    {
        let head = self.words.block(self.text, block.key()).unwrap_or(b"_");
        push_on_one_line(
            label,
            if head.is_empty() {
                name_of_head(head)
            } else {
                head
            },
        )?;
        let operations = all_operations(self.alloc, block, ctx)?;
        if self.options.blocks_alone {
            return Ok(before.saturating_add(operations.len()));
        }
        label.push_str(":\n")?;
        let mut number = before;
        for op in &operations {
            if op.is_live(ctx) {
                let path = format!(in self.alloc; "{path}.{number}")?;
                self.push_operation(ctx, *op, path.as_str(), label)?;
            }
            number = number.saturating_add(1);
        }
        Ok(number)
    }

    // Draws the edges from a block, each with the way that it is and the values that it forwards.
    fn draw_edges(
        &mut self,
        ctx: &Context,
        row: &GraphRow<Ptr<BasicBlock>>,
    ) -> Result<(), AllocError>
        requires { IsBlock ctx.now.tree row.now.node }
    {
        let branch = row.node.get_tail(ctx);
        let words = match branch {
            Some(op) => self.words.operation(self.text, op.key()).unwrap_or(b""),
            None => b"",
        };
        let look = BlockLook {
            is_reached: row.is_reached,
            is_entry: false,
        };
        for i in 0..row.successors.len() {
            let mut label = String::new(self.alloc);
            match branch {
                Some(op) if op.is_live(ctx) => {
                    let way = N::edge_way(self.alloc, op, ctx, i)?;
                    push_passed(&mut label, way.as_str(), N::edge_names(op, ctx, words, i))?;
                }
                _ => {}
            }
            let looks = looks(self.alloc, label.as_str(), look)?;
            let to = row.successors[i].key();
            self.dot.edge(row.node.key(), to, &looks)?;
        }
        Ok(())
    }

    // Writes how all nodes and edges look, and the title.
    fn draw_heads(&mut self) -> Result<(), AllocError> {
        let boxes = if self.options.blocks_alone {
            SMALL_BOXES.as_slice()
        } else {
            BOXES.as_slice()
        };
        self.dot.all("node", boxes)?;
        self.dot.all("edge", &LETTERS)?;
        if self.options.title.is_empty() {
            return Ok(());
        }
        self.dot.all("graph", &title_of(self.options.title))
    }

    // Draws the blocks, the first of which is the entry. `path` leads to their region.
    fn draw_blocks(
        &mut self,
        ctx: &Context,
        rows: &[GraphRow<Ptr<BasicBlock>>],
        path: &str,
    ) -> Result<(), AllocError> {
        let entry = rows.first().map(|row| row.node);
        let mut operations = 0;
        for row in rows {
            if row.node.is_live(ctx) {
                let mut label = String::new(self.alloc);
                operations = self.push_block(ctx, row.node, path, operations, &mut label)?;
                let look = BlockLook {
                    is_reached: row.is_reached,
                    is_entry: entry == Some(row.node),
                };
                let looks = looks(self.alloc, label.as_str(), look)?;
                self.dot.node(row.node.key(), &looks)?;
            }
        }
        Ok(())
    }

    // Draws the immediate dominator of each block.
    fn draw_dominators(&mut self, rows: &[GraphRow<Ptr<BasicBlock>>]) -> Result<(), AllocError> {
        for row in rows {
            if let Some(dominator) = &row.dominator {
                self.dot.edge(dominator.key(), row.node.key(), &DOTTED)?;
            }
        }
        Ok(())
    }

    // Draws a region without what is inside its operations. `path` leads to it.
    fn draw_region(
        &mut self,
        ctx: &Context,
        region: Ptr<Region>,
        path: &str,
    ) -> Result<(), OptError>
        requires { IsLawfulRegion ctx.now.tree region }
    {
        let rows = graph_rows(self.alloc, ctx, &region)?;
        self.draw_blocks(ctx, &rows, path)?;
        for row in &rows {
            if row.node.is_live(ctx) {
                self.draw_edges(ctx, row)?;
            }
        }
        if self.options.dominators {
            self.draw_dominators(&rows)?;
        }
        Ok(())
    }

    // Draws a region in a frame that is opened, where its graph may be read.
    fn draw_framed(
        &mut self,
        ctx: &Context,
        region: Ptr<Region>,
        path: &str,
    ) -> Result<(), OptError> {
        self.dot.open_cluster(self.frames)?;
        self.frames = self.frames.saturating_add(1);
        self.dot.all("graph", &title_of(path))?;
        if !region.is_live(ctx) {
            return Ok(());
        }
        if !may_be_read(ctx, region) {
            return Ok(());
        }
        self.draw_region(ctx, region, path)
    }

    // Puts the regions inside the one that was drawn last on the steps, the first of them last.
    fn push_inner(&mut self, steps: &mut Vec<PictureStep>) -> Result<(), AllocError> {
        for _ in 0..self.inner.len() {
            match self.inner.pop() {
                Some(step) => steps.push(step)?,
                None => break,
            }
        }
        Ok(())
    }

    // Draws what is next, and puts what follows it on the steps, the next one last.
    fn draw_step(
        &mut self,
        ctx: &Context,
        step: PictureStep,
        steps: &mut Vec<PictureStep>,
    ) -> Result<(), OptError> {
        match step {
            PictureStep::Region(region, path) => {
                self.draw_framed(ctx, region, path.as_str())?;
                steps.push(PictureStep::End)?;
                Ok(self.push_inner(steps)?)
            }
            PictureStep::End => Ok(self.dot.close_cluster()?),
        }
    }

    // Draws the regions inside the one that was drawn last, each in a frame in that of the region around it.
    fn draw_inner(&mut self, ctx: &Context) -> Result<(), OptError> {
        let mut steps = Vec::new(self.alloc);
        self.push_inner(&mut steps)?;
        // No tree has as many regions.
        for _ in 0..u64::MAX {
            let Some(step) = steps.pop() else {
                break;
            };
            self.draw_step(ctx, step, &mut steps)?;
        }
        Ok(())
    }
}

// The attributes of a graph or a frame: what is written above it, in the letters of the rest.
fn title_of(title: &str) -> [Attribute<'_>; 3] {
    [
        Attribute {
            name: "label",
            value: title,
        },
        Attribute {
            name: "labelloc",
            value: "t",
        },
        Attribute {
            name: "fontname",
            value: "monospace",
        },
    ]
}

/// The picture of a region of the text's operation. Asks that the region is live, and that edges are last in the
/// operation that holds it (`edges_last` tests it). Errors: allocation failure. Cost: linear in the text, and that of
/// `graph_rows` for each region that is drawn.
pub fn flow_picture<N: ShownNotation>(
    alloc: Global,
    text: &[u8],
    ctx: &Context,
    region: Ptr<Region>,
    options: &FlowOptions,
) -> Result<Vec<u8>, OptError>
    requires { IsLawfulRegion ctx.now.tree region }
{
    let words = N::parts(alloc, text)?;
    let mut picture = FlowPicture::<N> {
        alloc,
        of: PhantomData,
        text,
        words: &words,
        options,
        dot: Dot::new(alloc, "flow")?,
        inner: Vec::new(alloc),
        frames: 0,
    };
    picture.draw_heads()?;
    picture.draw_region(ctx, region, options.region)?;
    picture.draw_inner(ctx)?;
    Ok(picture.dot.end()?)
}
