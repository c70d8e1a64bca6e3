//! Symbols.

ghost use Rattle.std.specs.Prelude.{◌<◌, MatchOption};
ghost use Rattle.tt_interner.specs.Rows.{text_row, IsNew};
ghost use Rattle.tt_interner.specs.Stored.{IsAt, Adds, Builds};

use super::Interner;
use crate::handle::InternedText;
use crate::tables::{add_text, key_at};
use tt_index::Refusal;
use tt_kinds::{Symbol, Table};

impl Interner {
    // Returns the symbol of this text, if it is stored.
    fn find_symbol(&self, text: &str) -> Option<Symbol>
        ensures { MatchOption result (IsNew (text_row text.now) self.now.rows) (λ symbol. IsAt self.now.rows
            (text_row text.now)
            symbol.number) }
    {
        match self.symbols.get_index_of(text) {
            Some(number) => Some(Symbol::from_number(number as u32)),
            None => None,
        }
    }

    // Stores a new text.
    fn add_symbol(&mut self, text: &str) -> Result<Symbol, Refusal>
        requires { IsNew (text_row text.now) self.old.rows }
        ensures { Adds result (λ symbol. symbol.number) self.old self.new (text_row text.now) }
    {
        let number = add_text(
            &mut self.order,
            self.limit,
            Table::Symbols,
            &mut self.symbols,
            text,
        )?;
        Ok(Symbol::from_number(number))
    }

    /// Returns the symbol of this text.
    ///
    /// Refused with `TableFull` if the text is new and the table has as many rows as it may have, and with `Memory`.
    pub fn symbol(&mut self, text: &str) -> Result<Symbol, Refusal>
        ensures { Builds result (λ symbol. symbol.number) self.old self.new (text_row text.now) }
    {
        self.are_rows();
        match self.find_symbol(text) {
            Some(symbol) => Ok(symbol),
            None => self.add_symbol(text),
        }
    }
}

impl InternedText for Symbol {
    ghost text_number = { λ symbol. symbol.number };

    fn as_str<'a>(self, cx: &'a Interner) -> &'a str {
        key_at(&cx.symbols, self.number()).as_str()
    }
}
