//! Lines of a source as a terminal shows them.

ghost use Rattle.std.specs.Prelude.{◌<◌, ◌≤◌, ◌⊎◌};

use crate::rendering::extents::extent_length;
use crate::report::Extent;
use std::alloc::{AllocError, Global};
use unicode_width::UnicodeWidthChar;

// The most columns of a line that are shown, and how many of them come before what is marked on a longer line.
const MOST_COLUMNS: usize = 100;

const COLUMNS_BEFORE: usize = 30;

// The most characters around a mark that are looked at: as many on both sides as there are columns, and one more.
const MOST_CHARACTERS: usize = 2 * MOST_COLUMNS + 1;

// The columns that a tab takes.
const TAB: usize = 4;

// What stands for the rest of a line that is cut.
const CUT: &str = "..";

// What may be before a source. Columns don't count it.
const BYTE_ORDER_MARK: char = '\u{FEFF}';

/// A line as it is shown, and the columns of it that are marked.
#[derive(Drop)]
pub struct Excerpt {
    pub text: String,
    pub indent: usize,
    pub width: usize,
}

/// Returns the line, or a part of a long one, in which the token or expression that begins at the column is marked.
/// Columns are counted from 1.
pub fn excerpt_of(
    alloc: Global,
    line: &str,
    column: usize,
    extent: Extent,
) -> Result<Excerpt, AllocError> {
    let start = column.saturating_sub(1);
    let skipped = start.saturating_sub(MOST_COLUMNS);
    let near = characters_near(alloc, line, skipped)?;
    let near = near.as_slice();
    let (before, rest) = near.split_at(start.saturating_sub(skipped).min(near.len()));
    let (marked, behind) = rest.split_at(extent_length(rest, extent).min(rest.len()));
    let fits = skipped == 0 && width_of(near) <= MOST_COLUMNS;
    let shown = last_columns(before, if fits { MOST_COLUMNS } else { COLUMNS_BEFORE });
    let is_cut = skipped > 0 || shown.len() < before.len();
    let room = MOST_COLUMNS.saturating_sub(width_of(shown));
    let marked = first_columns(marked, room);
    let following = first_columns(behind, room.saturating_sub(width_of(marked)));
    let mut text = String::new(alloc);
    write_cut(&mut text, is_cut)?;
    write_shown(&mut text, shown)?;
    write_shown(&mut text, marked)?;
    write_shown(&mut text, following)?;
    let is_whole = marked.len().saturating_add(following.len()) == rest.len();
    write_cut(&mut text, !is_whole)?;
    Ok(Excerpt {
        text,
        indent: width_of(shown).saturating_add(if is_cut { CUT.len() } else { 0 }),
        width: width_of(marked).max(1),
    })
}

// Returns the line's characters after the first ones, which are skipped, as many as can be shown. So a long line with
// many errors takes little more than the time to find their columns.
fn characters_near(alloc: Global, line: &str, skipped: usize) -> Result<Vec<char>, AllocError> {
    let mut near = Vec::new(alloc);
    let counted = line
        .trim_end()
        .chars()
        .filter(|next| *next != BYTE_ORDER_MARK);
    for next in counted.skip(skipped).take(MOST_CHARACTERS) {
        near.push(next)?;
    }
    Ok(near)
}

// Writes what stands for the rest of a line, if it is cut.
fn write_cut(text: &mut String, is_cut: bool) -> Result<(), AllocError> {
    if is_cut {
        text.push_str(CUT)?;
    }
    Ok(())
}

// Writes the characters as a terminal can show them: a tab as spaces, and none that changes what comes after it.
fn write_shown(text: &mut String, characters: &[char]) -> Result<(), AllocError> {
    for next in characters {
        if *next == '\t' {
            for _ in 0..TAB {
                text.push(' ')?;
            }
        } else {
            text.push(visible(*next))?;
        }
    }
    Ok(())
}

/// Returns the character, or for one that can't be seen a sign that stands for it. No control character is returned.
pub fn visible(character: char) -> char
    ensures low { 32 ≤ result }
    ensures high { (result < 127) ⊎ (160 ≤ result) }
{
    match character {
        // The signs have the order of what they stand for.
        '\0'..='\u{1F}' => char::from_u32(u32::from(character) + 0x2400).unwrap_or('\u{FFFD}'),
        '\u{7F}' => '\u{2421}',
        '\u{80}'..='\u{9F}'
        | '\u{AD}'
        | '\u{61C}'
        | '\u{200B}'..='\u{200F}'
        | '\u{2028}'..='\u{202E}'
        | '\u{2060}'..='\u{206F}'
        | '\u{FEFF}'
        | '\u{FFF9}'..='\u{FFFB}'
        | '\u{E0000}'..='\u{E007F}' => '\u{FFFD}',
        _ => character,
    }
}

// Returns the columns that the character takes.
fn width(character: char) -> usize {
    if character == '\t' {
        TAB
    } else {
        visible(character).width().unwrap_or(1)
    }
}

// Returns the columns that the characters take.
fn width_of(characters: &[char]) -> usize {
    let mut columns: usize = 0;
    for next in characters {
        columns = columns.saturating_add(width(*next));
    }
    columns
}

// Returns the first characters, as many as these columns have room for.
fn first_columns(characters: &[char], columns: usize) -> &[char] {
    let mut taken: usize = 0;
    for (index, next) in characters.iter().enumerate() {
        taken = taken.saturating_add(width(*next));
        if taken > columns {
            return characters.get(..index).unwrap_or(characters);
        }
    }
    characters
}

// Returns the last characters, as many as these columns have room for.
fn last_columns(characters: &[char], columns: usize) -> &[char] {
    let mut taken: usize = 0;
    for (index, next) in characters.iter().enumerate().rev() {
        taken = taken.saturating_add(width(*next));
        if taken > columns {
            return characters.get(index.saturating_add(1)..).unwrap_or(&[]);
        }
    }
    characters
}
