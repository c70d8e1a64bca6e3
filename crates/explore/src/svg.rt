//! Pictures as SVG.
//!
//! The rows lie in layers, each above its parts, and an edge that passes layers has a bend in each. The scopes of binders can't be
//! boxes, since a row may be shared by places inside and outside of a binder. So an edge that enters a binder is dashed: a
//! place is under as many binders as there are dashed edges on the way to it.

use crate::graph::{Graph, Node, Slot, node_in};
use crate::rows::{Form, Row};
use crate::texts::{MOST_IN_NODE, line_of, text_of};
use crate::words::Name;
use std::alloc::{AllocError, Global};
use type_terms::Answer;

// Flags that have one colour: a class of the style, and the colour's name in DOT.
struct Group {
    flags: u32,
    class: &'static str,
    colour: &'static str,
    meaning: &'static str,
}

const GROUPS: [Group; 6] = [
    Group {
        flags: 0x3,
        class: "param",
        colour: "blue",
        meaning: "parameter",
    },
    Group {
        flags: 0x40c_0000,
        class: "bound",
        colour: "darkgreen",
        meaning: "bound variable",
    },
    Group {
        flags: 0x18,
        class: "infer",
        colour: "purple",
        meaning: "inference variable",
    },
    Group {
        flags: 0x40,
        class: "place",
        colour: "orange",
        meaning: "placeholder",
    },
    Group {
        flags: 0x1_8000,
        class: "error",
        colour: "red",
        meaning: "reported error",
    },
    Group {
        flags: 0x22_0000,
        class: "free",
        colour: "gray",
        meaning: "free or erased region",
    },
];

// Sizes in the picture.
const MARGIN: usize = 16;

const HEIGHT: usize = 44;

const STEP: usize = 80;

const GAP: usize = 22;

const LETTER: usize = 8;

const LEGEND: usize = 20;

const STYLE: &str = "\
<title>The rows of types, each above its parts</title>
<style>
  .paper { fill: #ffffff } .box { fill: #f1f4f8; stroke: #8492a3 } .added { fill: #ffe3bd } .edge { fill: none; stroke: #8492a3; stroke-width: 1.3 }
  text { fill: #1d2329 } .mono { font-family: ui-monospace, Menlo, Consolas, 'DejaVu Sans Mono', monospace } .dim { fill: #5a6673 }
  .dashed { stroke-dasharray: 5 4 } .dotted { stroke-dasharray: 2 5 } .own { stroke-width: 2.4 }
  .param { stroke: #0757ba } .bound { stroke: #1c6b3c } .infer { stroke: #7b3fa0 } .place { stroke: #8a4b08 } .error { stroke: #b3261e } .free { stroke: #5a6673 }
  circle.param { fill: #0757ba } circle.bound { fill: #1c6b3c } circle.infer { fill: #7b3fa0 } circle.place { fill: #8a4b08 } circle.error { fill: #b3261e } circle.free { fill: #5a6673 }
  @media (prefers-color-scheme: dark) {
    .paper { fill: #14181d } .box { fill: #1f2730; stroke: #6b7a8a } .added { fill: #452d0a } .edge { stroke: #6b7a8a } text { fill: #dfe5eb } .dim { fill: #9aa7b4 }
    .param { stroke: #7db7ff } .bound { stroke: #6fce94 } .infer { stroke: #cf9bf0 } .place { stroke: #f0a75a } .error { stroke: #ff8a80 } .free { stroke: #9aa7b4 }
    circle.param { fill: #7db7ff } circle.bound { fill: #6fce94 } circle.infer { fill: #cf9bf0 } circle.place { fill: #f0a75a } circle.error { fill: #ff8a80 } circle.free { fill: #9aa7b4 }
  }
</style>
";

// A place of a layer, as it is drawn.
#[derive(Drop)]
struct Cell {
    slot: Slot,
    layer: usize,
    left: usize,
    width: usize,
    text: String,
    under: String,
}

/// Returns the graph as SVG.
pub fn svg(
    alloc: Global,
    rows: &[Row],
    names: &[Name],
    answers: &[Answer],
    graph: &Graph,
) -> Result<String, AllocError> {
    let (cells, inner) = laid_out(alloc, rows, names, answers, graph)?;
    let mut body = String::new(alloc);
    for cell in cells.iter() {
        write_edges(&mut body, rows, graph, cells.as_slice(), cell)?;
    }
    let mut flags = 0;
    let mut has_binder = false;
    let mut foot: usize = MARGIN;
    for cell in cells.iter() {
        foot = foot.max(top_of(cell.layer.saturating_add(1)));
        if let Slot::Row(row) = cell.slot {
            if let (Some(row), Some(node)) = (rows.get(row), node_in(graph.nodes.as_slice(), row)) {
                flags |= row.flags;
                has_binder = has_binder || matches!(row.form, Form::Function);
                write_cell(&mut body, cell, row, node)?;
            }
        }
    }
    let is_added = graph.nodes.iter().any(|node| node.is_added);
    let height = write_legend(&mut body, flags, has_binder, is_added, foot)?;
    let width = inner.max(240).saturating_add(2 * MARGIN);
    framed(alloc, body.as_str(), width, height)
}

// Returns the picture of this size with this body.
fn framed(alloc: Global, body: &str, width: usize, height: usize) -> Result<String, AllocError> {
    let mut out = String::new(alloc);
    write!(
        out,
        "<svg xmlns=\"http://www.w3.org/2000/svg\" viewBox=\"0 0 {width} {height}\" width=\"{width}\" height=\"{height}\""
    )?;
    out.push_str(
        " font-family=\"system-ui, 'Segoe UI', Roboto, 'DejaVu Sans', sans-serif\" font-size=\"13\">\n",
    )?;
    out.push_str(STYLE)?;
    writeln!(
        out,
        "<rect class=\"paper\" width=\"{width}\" height=\"{height}\"/>"
    )?;
    out.push_str(body)?;
    out.push_str("</svg>\n")?;
    Ok(out)
}

// Returns a cell for each place of the layers, and the width of the broadest layer.
fn laid_out(
    alloc: Global,
    rows: &[Row],
    names: &[Name],
    answers: &[Answer],
    graph: &Graph,
) -> Result<(Vec<Cell>, usize), AllocError> {
    let mut cells: Vec<Cell> = Vec::new(alloc);
    let mut widths = Vec::new(alloc);
    let mut broadest: usize = 0;
    for (layer, slots) in graph.layers.iter().enumerate() {
        let mut left: usize = 0;
        for slot in slots.iter() {
            let cell = cell_of(alloc, rows, names, answers, graph, *slot, layer, left)?;
            left = left.saturating_add(cell.width).saturating_add(GAP);
            cells.push(cell)?;
        }
        let width = left.saturating_sub(GAP);
        broadest = broadest.max(width);
        widths.push(width)?;
    }
    for cell in cells.iter_mut() {
        let width = widths.get(cell.layer).copied().unwrap_or(broadest);
        let space = broadest.saturating_sub(width) / 2;
        cell.left = cell.left.saturating_add(space).saturating_add(MARGIN);
    }
    Ok((cells, broadest))
}

// Returns the cell of a slot, at this place of its layer.
fn cell_of(
    alloc: Global,
    rows: &[Row],
    names: &[Name],
    answers: &[Answer],
    graph: &Graph,
    slot: Slot,
    layer: usize,
    left: usize,
) -> Result<Cell, AllocError> {
    let node = match slot {
        Slot::Row(row) => node_in(graph.nodes.as_slice(), row),
        Slot::Bend(_) => None,
    };
    let Some(node) = node else {
        let (text, under) = (String::new(alloc), String::new(alloc));
        return Ok(Cell {
            slot,
            layer,
            left,
            width: 10,
            text,
            under,
        });
    };
    let text = label(alloc, rows, answers, node)?;
    let under = caption(alloc, names, answers, node)?;
    let flags = rows.get(node.row).map_or(0, |row: &Row| row.flags);
    Ok(Cell {
        slot,
        layer,
        left,
        width: width_of(text.as_str(), under.as_str(), flags),
        text,
        under,
    })
}

// Returns the width of a box with these texts, and a dot for each group of the flags beside the lower one.
fn width_of(text: &str, under: &str, flags: u32) -> usize {
    let mut dots: usize = 0;
    for group in GROUPS.iter() {
        if flags & group.flags != 0 {
            dots = dots.saturating_add(12);
        }
    }
    let upper = LETTER.saturating_mul(text.chars().count());
    let lower = LETTER
        .saturating_mul(under.chars().count())
        .saturating_add(dots)
        .saturating_add(4);
    upper.max(lower).saturating_add(20).max(56)
}

/// Returns the text of a node.
pub fn label(
    alloc: Global,
    rows: &[Row],
    answers: &[Answer],
    node: &Node,
) -> Result<String, AllocError> {
    match node.folded {
        0 => text_of(alloc, rows, answers, node.row, MOST_IN_NODE),
        count => format!(in alloc; "{count} more like it"),
    }
}

/// Returns the line that first made the node's row, and its name.
pub fn caption(
    alloc: Global,
    names: &[Name],
    answers: &[Answer],
    node: &Node,
) -> Result<String, AllocError> {
    let mut text = String::new(alloc);
    if let (0, Some(line)) = (node.folded, line_of(answers, node.row)) {
        write!(text, "%{line}")?;
        if let Some(name) = names.iter().rev().find(|name| name.line == line) {
            let name = name.text.as_str();
            write!(text, " {name}")?;
        }
    }
    Ok(text)
}

/// Returns the class of the first group that these flags have, and its colour in DOT.
pub fn class_of(flags: u32) -> (&'static str, &'static str) {
    for group in GROUPS.iter() {
        if flags & group.flags != 0 {
            return (group.class, group.colour);
        }
    }
    ("", "gray")
}

// Returns the upper end of the layer of this number.
fn top_of(layer: usize) -> usize {
    STEP.saturating_mul(layer).saturating_add(MARGIN)
}

// Writes the edges that go down from a cell.
fn write_edges(
    out: &mut String,
    rows: &[Row],
    graph: &Graph,
    cells: &[Cell],
    cell: &Cell,
) -> Result<(), AllocError> {
    match cell.slot {
        Slot::Bend(row) => {
            let (x, top) = (cell.left.saturating_add(cell.width / 2), top_of(cell.layer));
            writeln!(out, "<path class=\"edge\" d=\"M{x} {top}v{HEIGHT}\"/>")?;
            write_edge(out, cells, cell, row, cell.width / 2, "edge")
        }
        Slot::Row(row) => {
            let (Some(node), Some(row)) = (node_in(graph.nodes.as_slice(), row), rows.get(row))
            else {
                return Ok(());
            };
            let class = match (node.folded, row.form) {
                (0, Form::Function) => "edge dashed",
                (0, _) => "edge",
                _ => "edge dotted",
            };
            let step = cell.width / node.parts.len().saturating_add(1).max(1);
            for (count, part) in node.parts.iter().enumerate() {
                let start = step.saturating_mul(count.saturating_add(1));
                write_edge(out, cells, cell, *part, start, class)?;
            }
            Ok(())
        }
    }
}

// Writes an edge from a point of the cell's lower side to where edges to the row arrive in the next layer.
fn write_edge(
    out: &mut String,
    cells: &[Cell],
    cell: &Cell,
    row: usize,
    start: usize,
    class: &str,
) -> Result<(), AllocError> {
    let next = cell.layer.saturating_add(1);
    let top = top_of(cell.layer).saturating_add(HEIGHT);
    let from = cell.left.saturating_add(start);
    let end = top_of(next);
    let middle = top.saturating_add(end) / 2;
    for other in cells {
        if other.layer == next && (other.slot == Slot::Row(row) || other.slot == Slot::Bend(row)) {
            let to = other.left.saturating_add(other.width / 2);
            writeln!(
                out,
                "<path class=\"{class}\" d=\"M{from} {top} C{from} {middle} {to} {middle} {to} {end}\"/>"
            )?;
        }
    }
    Ok(())
}

// Writes a cell with its row.
fn write_cell(out: &mut String, cell: &Cell, row: &Row, node: &Node) -> Result<(), AllocError> {
    let (left, width, top) = (cell.left, cell.width, top_of(cell.layer));
    out.push_str("<rect class=\"box")?;
    let own = class_of(row.own_flags).0;
    if node.folded > 0 {
        out.push_str(" dotted")?;
    } else if !own.is_empty() {
        write!(out, " own {own}")?;
    }
    if node.is_added {
        out.push_str(" added")?;
    }
    writeln!(
        out,
        "\" x=\"{left}\" y=\"{top}\" width=\"{width}\" height=\"{HEIGHT}\" rx=\"6\"/>"
    )?;
    let start = left.saturating_add(10);
    let first = top.saturating_add(if cell.under.is_empty() { 27 } else { 18 });
    let second = top.saturating_add(35);
    write!(out, "<text class=\"mono\" x=\"{start}\" y=\"{first}\">")?;
    push_escaped(out, cell.text.as_str())?;
    write!(
        out,
        "</text><text class=\"dim\" font-size=\"12\" x=\"{start}\" y=\"{second}\">"
    )?;
    push_escaped(out, cell.under.as_str())?;
    out.push_str("</text>\n")?;
    let mut x = left.saturating_add(width).saturating_sub(12);
    for group in GROUPS.iter() {
        if row.flags & group.flags != 0 {
            write_dot(out, group.class, x, second.saturating_sub(4))?;
            x = x.saturating_sub(12);
        }
    }
    Ok(())
}

// Writes a dot.
fn write_dot(out: &mut String, class: &str, x: usize, y: usize) -> Result<(), AllocError> {
    writeln!(
        out,
        "<circle class=\"{class}\" cx=\"{x}\" cy=\"{y}\" r=\"4\"/>"
    )
}

// Writes what the colours and lines mean that are in the picture, and returns the picture's height.
fn write_legend(
    out: &mut String,
    flags: u32,
    has_binder: bool,
    is_added: bool,
    foot: usize,
) -> Result<usize, AllocError> {
    let (mut y, start) = (foot, 3 * MARGIN);
    for group in GROUPS.iter() {
        if flags & group.flags != 0 {
            let meaning = group.meaning;
            write_dot(out, group.class, MARGIN + 10, y.saturating_sub(4))?;
            writeln!(
                out,
                "<text class=\"dim\" x=\"{start}\" y=\"{y}\">{meaning}</text>"
            )?;
            y = y.saturating_add(LEGEND);
        }
    }
    if has_binder {
        let centre = y.saturating_sub(4);
        writeln!(
            out,
            "<path class=\"edge dashed\" d=\"M{MARGIN} {centre} h22\"/><text class=\"dim\" x=\"{start}\" y=\"{y}\">enters a binder</text>"
        )?;
        y = y.saturating_add(LEGEND);
    }
    if is_added {
        let top = y.saturating_sub(13);
        writeln!(
            out,
            "<rect class=\"box added\" x=\"{MARGIN}\" y=\"{top}\" width=\"22\" height=\"14\" rx=\"3\"/><text class=\"dim\" x=\"{start}\" y=\"{y}\">added: not in the first term</text>"
        )?;
        y = y.saturating_add(LEGEND);
    }
    Ok(y)
}

// Writes the text with the letters replaced that mean something else in SVG.
fn push_escaped(out: &mut String, text: &str) -> Result<(), AllocError> {
    for letter in text.chars() {
        match letter {
            '&' => out.push_str("&amp;")?,
            '<' => out.push_str("&lt;")?,
            '>' => out.push_str("&gt;")?,
            _ => out.push(letter)?,
        }
    }
    Ok(())
}
