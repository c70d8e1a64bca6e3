//! Expressions, built from parts that were read.

ghost use Rattle.std.specs.Prelude.{◌≤◌};
ghost use Rattle.checker_syntax.specs.Tokens.{tokens_left};

use crate::bodies::{BodyReader, FieldValue, Variable};
use crate::items::DataName;
use crate::message::wrong;
use crate::program::{Expression, Field, Place, Span};
use crate::syntax_error::SyntaxError;
use crate::token::{Token, TokenKind};
use std::alloc::AllocError;

impl<'a> BodyReader<'a> {
    // Begins a body in which the arguments have these names.
    pub(super) fn declare_arguments(&mut self, names: &[usize]) -> Result<(), AllocError> {
        self.scope.clear();
        for (argument, name) in names.iter().enumerate() {
            self.scope.push(Variable {
                name: *name,
                value: Expression::Argument(argument),
            })?;
        }
        Ok(())
    }

    // Adds a `let` statement, whose variable is in scope from here on.
    pub(super) fn declare_local(
        &mut self,
        name: usize,
        value: usize,
        ty: Option<usize>,
        place: Place,
    ) -> Result<(), SyntaxError>
        ensures { tokens_left self.new.types.tokens ≤ tokens_left self.old.types.tokens }
    {
        let statement = self.push(Expression::Let(value, ty), place)?;
        self.scope.push(Variable {
            name,
            value: Expression::Local(statement),
        })?;
        Ok(())
    }

    // Adds the expression at the place, and returns its number.
    pub(super) fn push(
        &mut self,
        expression: Expression,
        place: Place,
    ) -> Result<usize, SyntaxError>
        ensures { tokens_left self.new.types.tokens ≤ tokens_left self.old.types.tokens }
    {
        let number = self.expressions.len();
        self.expressions.push(expression)?;
        self.places.push(place)?;
        Ok(number)
    }

    // Adds the tuple of these items.
    pub(super) fn tuple(&mut self, items: &[usize], place: Place) -> Result<usize, SyntaxError>
        ensures { tokens_left self.new.types.tokens ≤ tokens_left self.old.types.tokens }
    {
        let span = self.push_operands(items)?;
        self.push(Expression::Tuple(span), place)
    }

    // Adds the call of the function with these arguments.
    pub(super) fn call(
        &mut self,
        function: usize,
        arguments: &[usize],
        place: Place,
    ) -> Result<usize, SyntaxError>
        ensures { tokens_left self.new.types.tokens ≤ tokens_left self.old.types.tokens }
    {
        let span = self.push_operands(arguments)?;
        self.push(Expression::Call(function, span), place)
    }

    // Adds the value of the data type with these fields. The token is the data type's name.
    pub(super) fn data_value(
        &mut self,
        data: DataName,
        values: &[FieldValue],
        token: Token,
    ) -> Result<usize, SyntaxError>
        ensures { tokens_left self.new.types.tokens ≤ tokens_left self.old.types.tokens }
    {
        let operands = self.in_declared_order(data, values, token)?;
        let span = self.push_operands(operands.as_slice())?;
        self.push(Expression::Data(data.number, span), token.place)
    }

    // Returns the values of the data type's fields in the order of their declaration. A missing field is an error.
    fn in_declared_order(
        &self,
        data: DataName,
        values: &[FieldValue],
        token: Token,
    ) -> Result<Vec<usize>, SyntaxError> {
        let mut operands = Vec::new(self.alloc);
        for field in self.fields(data) {
            match values.iter().find(|value| value.name == field.name) {
                Some(given) => operands.push(given.value)?,
                None => return Err(self.missing_field(field.name, token)),
            }
        }
        Ok(operands)
    }

    // Returns the function that is called.
    pub(super) fn function(&self, name: usize, token: Token) -> Result<usize, SyntaxError> {
        match self.items.function(name) {
            Some(function) => Ok(function),
            None => Err(self.unknown("function", token)),
        }
    }

    // Returns the data type whose value is written.
    pub(super) fn data_name(&self, name: usize, token: Token) -> Result<DataName, SyntaxError> {
        match self.items.data(name) {
            Some(data) => Ok(data),
            None => Err(self.no_struct(name, token)),
        }
    }

    // Returns the error that the token isn't the name of a struct.
    fn no_struct(&self, name: usize, token: Token) -> SyntaxError {
        if !self.types.has_no_fields(name, token) {
            return self.unknown("type", token);
        }
        let text = self.types.tokens.text(token);
        wrong(
            token.place,
            format!(in self.alloc; "the type `{text}` is no struct"),
        )
    }

    // Returns an error if the token is an integer above the greatest one.
    pub(super) fn check_integer(&self, token: Token) -> Result<(), SyntaxError> {
        let text = self.types.tokens.text(token);
        if token.kind != TokenKind::Int || is_integer(text) {
            return Ok(());
        }
        let message = format!(in self.alloc;
            "`{text}` is above {GREATEST_INTEGER}, the greatest `i32`"
        );
        Err(wrong(token.place, message))
    }

    // Adds a use of the innermost variable of this name.
    pub(super) fn variable(&mut self, name: usize, token: Token) -> Result<usize, SyntaxError>
        ensures { tokens_left self.new.types.tokens ≤ tokens_left self.old.types.tokens }
    {
        let found = self
            .scope
            .iter()
            .rev()
            .find(|variable| variable.name == name)
            .map(|variable| variable.value);
        match found {
            Some(value) => self.push(value, token.place),
            None => Err(self.unknown("value", token)),
        }
    }

    // Reads what comes after the dot, and adds the field or item of the value.
    pub(super) fn selection(&mut self, value: usize) -> Result<usize, SyntaxError>
        ensures { tokens_left self.new.types.tokens ≤ tokens_left self.old.types.tokens }
    {
        let token = self.types.tokens.peek();
        match token.kind {
            TokenKind::Name(name) => {
                self.types.tokens.advance();
                self.push(Expression::Field(value, name), token.place)
            }
            TokenKind::Int => {
                let item = self.item_number(token)?;
                self.types.tokens.advance();
                self.push(Expression::Item(value, item), token.place)
            }
            _ => Err(
                self.types
                    .tokens
                    .expected("a field's name or an item's number"),
            ),
        }
    }

    // Returns an error if the data type doesn't have this field, or if the field is given already.
    pub(super) fn check_field(
        &self,
        data: DataName,
        name: usize,
        values: &[FieldValue],
        token: Token,
    ) -> Result<(), SyntaxError> {
        let text = self.types.tokens.text(token);
        if !self.fields(data).iter().any(|field| field.name == name) {
            let ty = self.data_text(data);
            let message = format!(in self.alloc; "unknown field `{text}` of `{ty}`");
            return Err(wrong(token.place, message));
        }
        if values.iter().any(|value| value.name == name) {
            let message = format!(in self.alloc; "the field `{text}` is given twice");
            return Err(wrong(token.place, message));
        }
        Ok(())
    }

    // Adds the numbers to the operands, and returns where they are.
    fn push_operands(&mut self, numbers: &[usize]) -> Result<Span, AllocError>
        ensures { tokens_left self.new.types.tokens ≤ tokens_left self.old.types.tokens }
    {
        let start = self.operands.len();
        self.operands.extend_from_slice(numbers)?;
        Ok(Span {
            start,
            end: self.operands.len(),
        })
    }

    // Returns the number of an item, which is written without `_` and without leading zeros.
    fn item_number(&self, token: Token) -> Result<usize, SyntaxError> {
        let text = self.types.tokens.text(token);
        let is_plain = text == "0" || !text.starts_with('0');
        match text.parse::<usize>() {
            Ok(number) if is_plain => Ok(number),
            _ => {
                let message = format!(in self.alloc; "`{text}` isn't the number of an item");
                Err(wrong(token.place, message))
            }
        }
    }

    // Returns the fields of the data type.
    fn fields(&self, data: DataName) -> &'a [Field] {
        match self.data.get(data.number) {
            Some(data) => data.fields.as_slice(),
            None => &[],
        }
    }

    // Returns the name of the data type.
    fn data_text(&self, data: DataName) -> &'a str {
        match self.data.get(data.number) {
            Some(data) => self.text(data.name),
            None => "",
        }
    }

    // Returns the name of this number.
    fn text(&self, name: usize) -> &'a str {
        match self.names.get(name) {
            Some(text) => text.as_str(),
            None => "",
        }
    }

    // Returns the error that the field isn't given in the value of the type whose name is this token.
    fn missing_field(&self, field: usize, token: Token) -> SyntaxError {
        let field = self.text(field);
        let ty = self.types.tokens.text(token);
        wrong(
            token.place,
            format!(in self.alloc; "missing field `{field}` of `{ty}`"),
        )
    }

    // Returns the error that no `what` has the token's name.
    fn unknown(&self, what: &str, token: Token) -> SyntaxError {
        let name = self.types.tokens.text(token);
        wrong(
            token.place,
            format!(in self.alloc; "unknown {what} `{name}`"),
        )
    }
}

// The greatest `i32`.
const GREATEST_INTEGER: u32 = i32::MAX as u32;

// Returns whether the number with these digits is at most the greatest integer. `_` between the digits means nothing.
fn is_integer(text: &str) -> bool {
    let mut number = 0u32;
    for character in text.chars() {
        if let Some(digit) = character.to_digit(10) {
            number = number.saturating_mul(10).saturating_add(digit);
        }
    }
    number <= GREATEST_INTEGER
}
