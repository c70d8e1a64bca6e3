//! Cases, as their texts give them.

use type_terms::GREATEST_INDEX;

/// A case: a paragraph of the input. Its first line is its name, with a limit of rows in parentheses if it has one. Each
/// further line is a step.
#[derive(Clone, Copy)]
pub struct Case<'a> {
    /// The first line.
    pub name: &'a str,
    /// The other lines.
    pub steps: &'a str,
    /// How many rows a table may have.
    pub limit: u32,
    /// Whether terms are printed by their texts. A name may say `(without texts)`, since a text has no sharing.
    pub has_texts: bool,
    /// Whether the steps are a script, which is run as a whole too: its name begins with `script: `.
    pub is_script: bool,
}

impl<'a> Case<'a> {
    /// Returns the case of the paragraph, if it has a line.
    pub fn of(paragraph: &'a str) -> Option<Case<'a>> {
        let paragraph = paragraph.trim();
        let (name, steps) = paragraph.split_once("\n").unwrap_or((paragraph, ""));
        if name.is_empty() {
            return None;
        }
        Some(Case {
            name,
            steps,
            limit: limit(name).unwrap_or(GREATEST_INDEX),
            has_texts: !name.ends_with("(without texts)"),
            is_script: name.starts_with("script: "),
        })
    }
}

// Returns the limit of a name such as `full tables (3 rows)`.
fn limit(name: &str) -> Option<u32> {
    let (_, note) = name.split_once(" (")?;
    let (count, _) = note.split_once(" row")?;
    count.parse::<u32>().ok()
}
