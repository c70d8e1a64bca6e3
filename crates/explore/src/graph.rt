//! The shared graph of some types.

use crate::rows::Row;
use std::alloc::{AllocError, Global};

/// A row of the graph.
#[derive(Drop)]
pub struct Node {
    pub row: usize,
    pub parts: Vec<usize>,
    /// How many rows it stands for that are like those above and below them, or 0 if it is itself.
    pub folded: usize,
    /// The length of the longest path to it from a root.
    pub depth: usize,
    /// Whether it is reached from later roots alone.
    pub is_added: bool,
}

/// What lies at a place of a layer: a row, or edges to a row that lies deeper.
#[derive(Clone, Copy, PartialEq, Eq)]
pub enum Slot {
    Row(usize),
    Bend(usize),
}

/// The graph of some roots.
#[derive(Drop)]
pub struct Graph {
    /// The rows, each before its parts.
    pub nodes: Vec<Node>,
    /// The layers, from the roots down.
    pub layers: Vec<Vec<Slot>>,
}

// What comes of a row in the picture.
#[derive(Clone, Copy)]
enum Fate {
    Absent,
    Present,
    // It stands for so many rows, and leads to this one.
    Fold(usize, usize),
    Hidden,
}

// The fewest rows in a run of like ones of which some are folded, and how many are shown at either end of it.
const ALIKE: usize = 7;

const SHOWN: usize = 2;

impl Graph {
    /// Returns the graph of these roots.
    pub fn of(alloc: Global, rows: &[Row], roots: &[usize]) -> Result<Graph, AllocError> {
        let all = users(alloc, rows, roots)?;
        let known = match roots {
            [first, ..] => users(alloc, rows, [*first].as_slice())?,
            [] => Vec::new(alloc),
        };
        let fates = fates(alloc, rows, all.as_slice())?;
        let mut nodes = Vec::new(alloc);
        for (number, row) in rows.iter().enumerate().rev() {
            let (folded, parts) = match fates.get(number).copied().unwrap_or(Fate::Absent) {
                Fate::Present => (0, row.parts.as_slice().to_vec(alloc)?),
                Fate::Fold(count, to) => (count, [to].to_vec(alloc)?),
                Fate::Absent | Fate::Hidden => continue,
            };
            let depth = depth_of(nodes.as_slice(), number);
            let is_added = count_in(known.as_slice(), number) == 0;
            nodes.push(Node {
                row: number,
                parts,
                folded,
                depth,
                is_added,
            })?;
        }
        let layers = layers(alloc, nodes.as_slice(), roots)?;
        Ok(Graph { nodes, layers })
    }
}

/// Returns the node of the row.
pub fn node_in(nodes: &[Node], row: usize) -> Option<&Node> {
    nodes.iter().find(|node| node.row == row)
}

// Returns for each row how many rows of the graph use it, where a root is used once more, and other rows never. A part is
// stored before the rows that use it.
fn users(alloc: Global, rows: &[Row], roots: &[usize]) -> Result<Vec<usize>, AllocError> {
    let mut users = Vec::new(alloc);
    for number in 0..rows.len() {
        users.push(if roots.contains(&number) { 1 } else { 0 })?;
    }
    for (number, row) in rows.iter().enumerate().rev() {
        if count_in(users.as_slice(), number) > 0 {
            for (place, part) in row.parts.iter().enumerate() {
                let is_new = !row.parts.iter().take(place).any(|other| *other == *part);
                if let Some(count) = users.get_mut(*part) {
                    if is_new {
                        *count = count.saturating_add(1);
                    }
                }
            }
        }
    }
    Ok(users)
}

// Returns the count at this place, or 0.
fn count_in(counts: &[usize], place: usize) -> usize {
    counts.get(place).copied().unwrap_or(0)
}

// Returns what comes of each row: long runs of rows that are alike are folded.
fn fates(alloc: Global, rows: &[Row], users: &[usize]) -> Result<Vec<Fate>, AllocError> {
    let mut fates = Vec::new(alloc);
    for count in users {
        fates.push(if *count > 0 {
            Fate::Present
        } else {
            Fate::Absent
        })?;
    }
    let mut is_done = vec![in alloc; false; rows.len()]?;
    for number in (0..rows.len()).rev() {
        if count_in(users, number) > 0 && !is_done.get(number).copied().unwrap_or(true) {
            let run = run_from(alloc, rows, users, number)?;
            let shown = run.len().saturating_sub(SHOWN);
            let end = run.get(shown).copied().unwrap_or(number);
            for (place, row) in run.iter().enumerate() {
                if let Some(done) = is_done.get_mut(*row) {
                    *done = true;
                }
                if run.len() >= ALIKE && place >= SHOWN && place < shown {
                    if let Some(fate) = fates.get_mut(*row) {
                        *fate = if place == SHOWN {
                            Fate::Fold(shown.saturating_sub(SHOWN), end)
                        } else {
                            Fate::Hidden
                        };
                    }
                }
            }
        }
    }
    Ok(fates)
}

// Returns the run from this row: each next row is the only part of the one before, looks like it, and has no other user.
fn run_from(
    alloc: Global,
    rows: &[Row],
    users: &[usize],
    row: usize,
) -> Result<Vec<usize>, AllocError> {
    let mut run = Vec::new(alloc);
    let mut last = row;
    for _ in 0..rows.len() {
        run.push(last)?;
        match like_part(rows, last) {
            Some(part) if count_in(users, part) == 1 => last = part,
            _ => break,
        }
    }
    Ok(run)
}

// Returns the only part of the row, if it looks like the row.
fn like_part(rows: &[Row], row: usize) -> Option<usize> {
    let row = rows.get(row)?;
    let part = *row.parts.first()?;
    let other = rows.get(part)?;
    let is_like = row.opening.as_str() == other.opening.as_str()
        && row.parts.len() == other.parts.len()
        && row.parts.iter().all(|it| *it == part);
    if is_like { Some(part) } else { None }
}

// Returns the depth of a row below the nodes that lead to it.
fn depth_of(nodes: &[Node], row: usize) -> usize {
    let mut depth = 0;
    for node in nodes {
        if node.parts.contains(&row) {
            depth = depth.max(node.depth.saturating_add(1));
        }
    }
    depth
}

// Returns the layers: the roots, and below each layer what its edges lead to, in order.
fn layers(alloc: Global, nodes: &[Node], roots: &[usize]) -> Result<Vec<Vec<Slot>>, AllocError> {
    let mut layers = Vec::new(alloc);
    let mut layer = Vec::new(alloc);
    for root in roots {
        lead(&mut layer, nodes, *root, 0)?;
    }
    for depth in 1..nodes.len().saturating_add(1) {
        let mut next = Vec::new(alloc);
        for slot in layer.iter() {
            match *slot {
                Slot::Bend(row) => lead(&mut next, nodes, row, depth)?,
                Slot::Row(row) => {
                    if let Some(node) = node_in(nodes, row) {
                        for part in node.parts.iter() {
                            lead(&mut next, nodes, *part, depth)?;
                        }
                    }
                }
            }
        }
        layers.push(layer)?;
        layer = next;
        if layer.is_empty() {
            break;
        }
    }
    Ok(layers)
}

// Adds the place where an edge to the row arrives in the layer of this depth. A deeper root has no edge in the first one.
fn lead(layer: &mut Vec<Slot>, nodes: &[Node], row: usize, depth: usize) -> Result<(), AllocError> {
    let slot = match node_in(nodes, row) {
        Some(node) if node.depth == depth => Slot::Row(row),
        Some(_) if depth > 0 => Slot::Bend(row),
        _ => return Ok(()),
    };
    if !layer.contains(&slot) {
        layer.push(slot)?;
    }
    Ok(())
}
