//! Pictures as DOT, for Graphviz.

use crate::graph::{Graph, Node};
use crate::rows::{Form, Row};
use crate::svg::{caption, class_of, label};
use crate::words::Name;
use std::alloc::{AllocError, Global};
use type_terms::Answer;

/// Returns the graph as DOT: a node for each row, and an edge for each part.
pub fn dot(
    alloc: Global,
    rows: &[Row],
    names: &[Name],
    answers: &[Answer],
    graph: &Graph,
) -> Result<String, AllocError> {
    let mut out = String::from_str(
        alloc,
        "digraph terms {\n    node [shape=box, fontname=monospace];\n    graph [ordering=out];\n",
    )?;
    let mut added = String::new(alloc);
    for node in graph.nodes.iter() {
        let number = node.row;
        let text = label(alloc, rows, answers, node)?;
        let under = caption(alloc, names, answers, node)?;
        let (flags, own) = rows
            .get(number)
            .map_or((0, 0), |row: &Row| (row.flags, row.own_flags));
        let (shown, width) = if own == 0 { (flags, 1) } else { (own, 2) };
        let colour = class_of(shown).1;
        writeln!(
            out,
            "    t{number} [label=\"{text}\\n{under}\", color={colour}, penwidth={width}];"
        )?;
        write_edges(&mut out, rows, node)?;
        if node.is_added {
            write!(added, " t{number};")?;
        }
    }
    if !added.is_empty() {
        let added = added.as_str();
        writeln!(
            out,
            "    subgraph cluster_added {{ label=added; style=dashed;{added} }}"
        )?;
    }
    out.push_str("}\n")?;
    Ok(out)
}

// Writes an edge to each part. One that enters a binder is dashed, and one along folded rows dotted.
fn write_edges(out: &mut String, rows: &[Row], node: &Node) -> Result<(), AllocError> {
    let number = node.row;
    let is_binder = rows
        .get(number)
        .is_some_and(|row: &Row| matches!(row.form, Form::Function));
    let style = match (node.folded, is_binder) {
        (0, true) => " [style=dashed]",
        (0, false) => "",
        _ => " [style=dotted]",
    };
    for part in node.parts.iter() {
        writeln!(out, "    t{number} -> t{part}{style};")?;
    }
    Ok(())
}
