//! The names of a source, numbered.

use std::alloc::{AllocError, Global};
use std::collections::HashMap;
use std::string::String;

/// The names that were read, numbered from 0 in the order in which they first occur.
#[derive(Drop)]
pub struct Names<'a> {
    alloc: Global,
    texts: Vec<String>,
    numbers: HashMap<&'a str, usize>,
}

impl<'a> Names<'a> {
    /// Returns an empty table of names.
    pub fn new(alloc: Global) -> Names<'a> {
        Names {
            alloc,
            texts: Vec::new(alloc),
            numbers: HashMap::new(alloc),
        }
    }

    /// Returns the number of the name. A new name gets a new number.
    pub fn number(&mut self, text: &'a str) -> Result<usize, AllocError> {
        if let Some(number) = self.numbers.get(text) {
            return Ok(*number);
        }
        let number = self.texts.len();
        self.texts.push(String::from_str(self.alloc, text)?)?;
        self.numbers.insert(text, number)?;
        Ok(number)
    }

    /// Returns the names in the order of their numbers.
    pub fn into_texts(self) -> Vec<String> {
        self.texts
    }
}
