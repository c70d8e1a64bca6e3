//! How far a token or an expression reaches on its line.
//!
//! A program keeps where an expression begins, and not where it ends. What was read without an error is read again
//! here, by its brackets alone.

use crate::report::Extent;

/// Returns how many characters of the text, which is the rest of a line, are of what begins there.
pub fn extent_length(text: &[char], extent: Extent) -> usize {
    match extent {
        Extent::Token => token_length(text),
        Extent::Expression => expression_length(text),
    }
}

// Returns the length of the expression with which the text begins. A field or an item begins behind its dot.
fn expression_length(text: &[char]) -> usize {
    let marks = text
        .iter()
        .take_while(|next| matches!(**next, '&' | '*' | ' ' | '\t'))
        .count();
    let length = marks.saturating_add(operand_length(after(text, marks)));
    if marks == 0 {
        return length;
    }
    length.saturating_add(selections_length(after(text, length)))
}

// Returns the length of a literal, a variable, a call, a value of a data type, a tuple or a block.
fn operand_length(text: &[char]) -> usize {
    match text.first() {
        Some('(' | '{') => group_length(text),
        Some(first) if is_of_word(*first) => {
            let word = word_length(text);
            let name = word.saturating_add(space_length(after(text, word)));
            let rest = after(text, name);
            match rest.first() {
                Some('(' | '{') => name.saturating_add(group_length(rest)),
                _ => word,
            }
        }
        _ => token_length(text),
    }
}

// Returns the length of what is between a bracket and the one that closes it, with both. A group that isn't closed on
// its line reaches to the line's end.
fn group_length(text: &[char]) -> usize {
    let mut depth: usize = 0;
    let mut skipped: usize = 0;
    for (index, next) in text.iter().enumerate() {
        if index < skipped {
            continue;
        }
        match *next {
            '(' | '{' => depth = depth.saturating_add(1),
            ')' | '}' => depth = depth.saturating_sub(1),
            '"' | '\'' => skipped = index.saturating_add(token_length(after(text, index))),
            '/' if after(text, index).starts_with(&['/', '/']) => {
                return trimmed_length(text, index);
            }
            _ => {}
        }
        if depth == 0 {
            return index.saturating_add(1);
        }
    }
    trimmed_length(text, text.len())
}

// Returns the length of the fields and items that are selected of the value before the text.
fn selections_length(text: &[char]) -> usize {
    let mut length: usize = 0;
    for _ in 0..text.len() {
        let dot = length.saturating_add(space_length(after(text, length)));
        if text.get(dot) != Some(&'.') {
            return length;
        }
        let name = dot.saturating_add(1);
        let name = name.saturating_add(space_length(after(text, name)));
        let word = word_length(after(text, name));
        if word == 0 {
            return length;
        }
        length = name.saturating_add(word);
    }
    length
}

// Returns the length of the token with which the text begins, or 1 if it begins with none.
fn token_length(text: &[char]) -> usize {
    match text {
        ['-', '>', ..] => 2,
        ['"', ..] => quoted_length(text),
        ['\'', '\\', ..] | ['\'', _, '\'', ..] => quoted_length(text),
        _ => word_length(text).max(1),
    }
}

// Returns the length of the literal in quotes with which the text begins. One that isn't closed reaches to the line's
// end.
fn quoted_length(text: &[char]) -> usize {
    let quote = text.first();
    let mut is_escaped = false;
    for (index, next) in text.iter().enumerate().skip(1) {
        if is_escaped {
            is_escaped = false;
        } else if *next == '\\' {
            is_escaped = true;
        } else if Some(next) == quote {
            return index.saturating_add(1);
        }
    }
    trimmed_length(text, text.len())
}

// Returns the length of the name or number with which the text begins.
fn word_length(text: &[char]) -> usize {
    text.iter().take_while(|next| is_of_word(**next)).count()
}

// Returns the length of the white space with which the text begins.
fn space_length(text: &[char]) -> usize {
    text.iter().take_while(|next| is_space(**next)).count()
}

// Returns the length of the first characters without the white space at their end.
fn trimmed_length(text: &[char], length: usize) -> usize {
    let mut trimmed: usize = 0;
    for (index, next) in text.iter().take(length).enumerate() {
        if !is_space(*next) {
            trimmed = index.saturating_add(1);
        }
    }
    trimmed
}

// Returns what comes after this many characters.
fn after(text: &[char], length: usize) -> &[char] {
    text.get(length..).unwrap_or(&[])
}

// Returns whether the character may be in a name.
fn is_of_word(character: char) -> bool {
    character.is_ascii_alphanumeric() || character == '_'
}

// Returns whether the character is white space on a line.
fn is_space(character: char) -> bool {
    character.is_ascii_whitespace()
}
