//! Reports on a program as text for people.

use reports::{Report, View};
use std::alloc::{AllocError, Global};

/// Returns the reports on a wrong program, each with its lines and notes, and below them how many there are. No control
/// character of the source or of its name is in the text.
pub fn rendered(alloc: Global, view: View<'_>, list: &[Report]) -> Result<String, AllocError> {
    let mut text = reports::rendered(alloc, view, list)?;
    let count = list.len();
    let plural = if count == 1 { "" } else { "s" };
    writeln!(text, "\nnot accepted: {count} error{plural}")?;
    Ok(text)
}
