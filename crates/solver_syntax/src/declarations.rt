//! Data types and traits: their names, and how many type parameters they have.

ghost use Rattle.std.specs.Prelude.{◌≤◌};
ghost use Rattle.checker_syntax.specs.Tokens.{tokens_left};

use crate::script::Declaration;
use crate::words::{ItemKind, item_kind, read_params, read_type_name};
use checker_syntax::message::wrong;
use checker_syntax::syntax_error::SyntaxError;
use checker_syntax::token::TokenKind;
use checker_syntax::tokens::Tokens;
use std::alloc::{AllocError, Global};
use std::collections::HashMap;

/// The data types and the traits, and their numbers by the numbers of their names.
#[derive(Drop)]
pub struct Names {
    data: Vec<Declaration>,
    traits: Vec<Declaration>,
    data_numbers: HashMap<usize, usize>,
    trait_numbers: HashMap<usize, usize>,
}

/// The number of a data type or of a trait, and how many type parameters it has.
#[derive(Clone, Copy, Debug, PartialEq, Eq)]
pub struct Named {
    pub number: usize,
    pub params: usize,
}

impl Names {
    /// Returns no names.
    pub fn new(alloc: Global) -> Names {
        Names {
            data: Vec::new(alloc),
            traits: Vec::new(alloc),
            data_numbers: HashMap::new(alloc),
            trait_numbers: HashMap::new(alloc),
        }
    }

    /// Returns the data type of this name.
    pub fn data(&self, name: usize) -> Option<Named> {
        let number = *self.data_numbers.get(&name)?;
        let params = self.data.get(number)?.params;
        Some(Named { number, params })
    }

    /// Returns the trait of this name.
    pub fn trait_of(&self, name: usize) -> Option<Named> {
        let number = *self.trait_numbers.get(&name)?;
        let params = self.traits.get(number)?.params;
        Some(Named { number, params })
    }

    /// Returns the data types and the traits in the order of their numbers.
    pub fn into_lists(self) -> (Vec<Declaration>, Vec<Declaration>) {
        (self.data, self.traits)
    }

    // Adds a data type, and returns whether it is the first with its name.
    fn declare_data(&mut self, declaration: Declaration) -> Result<bool, AllocError> {
        let number = self.data.len();
        self.data.push(declaration)?;
        Ok(
            self.data_numbers
                .insert(declaration.name, number)?
                .is_none(),
        )
    }

    // Adds a trait, and returns whether it is the first with its name.
    fn declare_trait(&mut self, declaration: Declaration) -> Result<bool, AllocError> {
        let number = self.traits.len();
        self.traits.push(declaration)?;
        Ok(
            self.trait_numbers
                .insert(declaration.name, number)?
                .is_none(),
        )
    }
}

/// Declares the data types and the traits. No item is inside of another, so each of their words begins one, and the
/// tokens between are passed over.
pub fn read_declarations(
    alloc: Global,
    tokens: &mut Tokens,
    names: &mut Names,
) -> Result<(), SyntaxError> {
    while let Some(token) = tokens.next() {
        match item_kind(tokens, token) {
            Some(ItemKind::Struct) => read_declaration(alloc, tokens, names, false)?,
            Some(ItemKind::Trait) => read_declaration(alloc, tokens, names, true)?,
            _ => {}
        }
    }
    Ok(())
}

// Declares the data type or the trait after its word.
fn read_declaration(
    alloc: Global,
    tokens: &mut Tokens,
    names: &mut Names,
    is_trait: bool,
) -> Result<(), SyntaxError>
    ensures { tokens_left tokens.new ≤ tokens_left tokens.old }
{
    let token = tokens.peek();
    let declared = read_type_name(alloc, tokens, "a name")?;
    let params = read_params(alloc, tokens)?.len();
    tokens.expect(TokenKind::Semicolon)?;
    let declaration = Declaration {
        name: declared.name,
        params,
    };
    let (is_first, what) = if is_trait {
        (names.declare_trait(declaration)?, "trait")
    } else {
        (names.declare_data(declaration)?, "type")
    };
    if is_first {
        return Ok(());
    }
    let name = tokens.text(token);
    let text = format!(in alloc; "the {what} `{name}` is declared twice");
    Err(wrong(token.place, text))
}
