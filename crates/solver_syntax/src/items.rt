//! Implementations and goals.

ghost use Rattle.std.specs.Prelude.{◌≤◌};
ghost use Rattle.checker_syntax.specs.Tokens.{tokens_left};

use crate::script::{Bound, Goal, Group, Implementation};
use crate::types::Reader;
use crate::words::{ItemKind, eat_word, item_kind, read_name, read_params};
use checker_syntax::message::wrong;
use checker_syntax::program::Place;
use checker_syntax::syntax_error::SyntaxError;
use checker_syntax::token::TokenKind;
use std::alloc::Global;

// A trait's number and its type arguments.
#[derive(Drop)]
struct TraitUse {
    number: usize,
    args: Vec<usize>,
}

/// Reads the items. The data types and the traits are declared already.
pub fn read_items(
    alloc: Global,
    reader: &mut Reader,
) -> Result<(Vec<Implementation>, Vec<Group>), SyntaxError> {
    let mut implementations = Vec::new(alloc);
    let mut groups = Vec::new(alloc);
    let mut rest = reader.tokens.rest();
    while let Some(token) = reader.tokens.next() {
        match item_kind(&reader.tokens, token) {
            Some(ItemKind::Struct | ItemKind::Trait) => skip_declaration(reader),
            Some(ItemKind::Impl) => {
                implementations.push(read_implementation(alloc, reader, token.place)?)?;
            }
            Some(ItemKind::Goals) => groups.push(read_group(alloc, reader)?)?,
            None => {
                reader.tokens.go_to(rest);
                return Err(
                    reader
                        .tokens
                        .expected("`struct`, `trait`, `impl` or `goals`"),
                );
            }
        }
        rest = reader.tokens.rest();
    }
    Ok((implementations, groups))
}

// Passes over the rest of a declaration.
fn skip_declaration(reader: &mut Reader)
    ensures { tokens_left reader.new.tokens ≤ tokens_left reader.old.tokens }
{
    while let Some(token) = reader.tokens.next() {
        if token.kind == TokenKind::Semicolon {
            return;
        }
    }
}

// Reads the rest of an implementation, whose word is at the place.
fn read_implementation(
    alloc: Global,
    reader: &mut Reader,
    place: Place,
) -> Result<Implementation, SyntaxError>
    ensures { tokens_left reader.new.tokens ≤ tokens_left reader.old.tokens }
{
    let params = read_params(alloc, &mut reader.tokens)?;
    let count = params.len();
    reader.begin_item(params);
    let earlier = reader.count();
    let of = read_trait(reader)?;
    if !eat_word(&mut reader.tokens, "for") {
        return Err(reader.tokens.expected("`for`"));
    }
    let ty = reader.read_type()?;
    if let Some(param) = reader.unused_param(earlier) {
        let text = format!(in alloc;
            "the type parameter is neither in the trait's arguments nor in the type"
        );
        return Err(wrong(param.place, text));
    }
    let head = bound(alloc, reader, place, ty, of)?;
    let conditions = read_bounds(alloc, reader)?;
    reader.tokens.expect(TokenKind::Semicolon)?;
    Ok(Implementation {
        params: count,
        head,
        conditions,
    })
}

// Reads the rest of goals.
fn read_group(alloc: Global, reader: &mut Reader) -> Result<Group, SyntaxError>
    ensures { tokens_left reader.new.tokens ≤ tokens_left reader.old.tokens }
{
    let params = read_params(alloc, &mut reader.tokens)?;
    reader.begin_item(params);
    let assumptions = read_bounds(alloc, reader)?;
    reader.tokens.expect(TokenKind::OpenBrace)?;
    let mut goals = Vec::new(alloc);
    'goals: while !reader.tokens.eat(TokenKind::CloseBrace) {
        reader.begin_goal();
        let bound = read_bound(alloc, reader)?;
        let variables = reader.end_goal();
        goals.push(Goal { bound, variables })?;
        if !reader.tokens.eat(TokenKind::Semicolon) {
            return Err(reader.tokens.expected("`;`"));
        }
    }
    Ok(Group { assumptions, goals })
}

// Reads `where` and what follows it, if it comes next.
fn read_bounds(alloc: Global, reader: &mut Reader) -> Result<Vec<Bound>, SyntaxError>
    ensures { tokens_left reader.new.tokens ≤ tokens_left reader.old.tokens }
{
    let mut bounds = Vec::new(alloc);
    if !eat_word(&mut reader.tokens, "where") {
        return Ok(bounds);
    }
    'bounds: while !ends_bounds(reader.tokens.peek().kind) {
        bounds.push(read_bound(alloc, reader)?)?;
        if !reader.tokens.eat(TokenKind::Comma) {
            break;
        }
    }
    Ok(bounds)
}

// Returns whether such a token may come after the bounds of an item.
fn ends_bounds(kind: TokenKind) -> bool {
    matches!(kind, TokenKind::Semicolon | TokenKind::OpenBrace)
}

// Reads `Type: Trait<..>`.
fn read_bound(alloc: Global, reader: &mut Reader) -> Result<Bound, SyntaxError>
    ensures { tokens_left reader.new.tokens ≤ tokens_left reader.old.tokens }
{
    let place = reader.tokens.peek().place;
    let ty = reader.read_type()?;
    reader.tokens.expect(TokenKind::Colon)?;
    let of = read_trait(reader)?;
    bound(alloc, reader, place, ty, of)
}

// Reads a trait with its type arguments.
fn read_trait(reader: &mut Reader) -> Result<TraitUse, SyntaxError>
    ensures { tokens_left reader.new.tokens ≤ tokens_left reader.old.tokens }
{
    let token = reader.tokens.peek();
    let name = read_name(&mut reader.tokens, "a trait")?;
    let Some(named) = reader.names.trait_of(name) else {
        let name = reader.tokens.text(token);
        let text = format!(in reader.alloc; "unknown trait `{name}`");
        return Err(wrong(token.place, text));
    };
    let args = reader.arguments()?;
    reader.check_count(token, named.params, args.len())?;
    Ok(TraitUse {
        number: named.number,
        args,
    })
}

// Returns that the type of this number implements the trait.
fn bound(
    alloc: Global,
    reader: &mut Reader,
    place: Place,
    ty: usize,
    of: TraitUse,
) -> Result<Bound, SyntaxError>
    ensures { tokens_left reader.new.tokens ≤ tokens_left reader.old.tokens }
{
    let mut args = Vec::new(alloc);
    args.push(ty)?;
    args.extend_from_slice(of.args.as_slice())?;
    Ok(Bound {
        place,
        number: of.number,
        args: reader.push_parts(args.as_slice())?,
    })
}
