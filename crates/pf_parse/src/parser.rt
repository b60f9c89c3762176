//! Queries read from texts.

ghost use Rattle.std.specs.Prelude.{◌≡◌, ◌<◌, ◌≤◌, length, map, None, Ok, Err, IfErr, IfOk};
ghost use Rattle.std.specs.List.{All};
ghost use Rattle.pf_lex.specs.Seen.{IsTokenOf, token_of};
ghost use Rattle.pf_model.specs.Parsing.{Parses, most_bytes};
ghost use Rattle.pf_model.specs.Tokens.{AreTokens};
ghost use Rattle.pf_model.specs.Trees.{Tree, size, tree_of};
ghost use Rattle.pf_parse.specs.Refusals.{IsAnswered, IsRefused};
ghost use Rattle.pf_parse.specs.Reading.{run, start};
ghost use Rattle.pf_parse.specs.Scans.{deep_at};
ghost use Rattle.pf_parse.specs.Shown.{lexemes_of};
ghost use Rattle.pf_parse.specs.declared.error.ParseError.TheVariants.{TooLong};

use crate::error::{ParseError, lexed};
use crate::held::Measured;
use crate::reader::read;
use crate::scans::{place_at, too_deep_at, too_large_at, unknown_at};
use pf_lex::{Token, tokens};
use pf_model::Expr;
use std::alloc::Global;

/// What a text whose tokens are read to their end answers: `held` is its tree, none where this is too tall, or where one of
/// the refusals before that comes.
#[tactic(auto, using(crate::proofs::Parsed::parsed, crate::proofs::Sizes::read_small, crate::proofs::Parsed::refused_unknown, crate::proofs::Parsed::refused_late, crate::proofs::Parsed::refused_tall))]
fn answer(text: &str, tokens: &[Token], held: Option<Measured>) -> Result<Expr, ParseError>
    requires short { length text.now ≤ most_bytes }
    requires tokens { AreTokens text.now (map (token_of text.now) tokens.now) }
    requires parts { All (IsTokenOf text.now) tokens.now }
    requires shallow { deep_at 0 tokens.now ≡ None }
    requires read { run start (lexemes_of text.now tokens.now) ≡ Ok held }
    ensures parses { IfOk result (λ e. Parses text.now (tree_of e)) }
    ensures small { IfOk result (λ e. size (tree_of e) ≤ most_bytes) }
    ensures refuses { IfErr result (IsRefused text.now) }
{
    if let Some(at) = unknown_at(text, tokens) {
        return Err(ParseError::UnknownName { at });
    }
    if let Some(at) = too_large_at(tokens) {
        return Err(ParseError::TimeTooLarge { at });
    }
    match held {
        Some(measured) => Ok(Box::into_inner(measured.expr)),
        None => Err(ParseError::TooTall),
    }
}

#[tactic(auto, using(crate::proofs::Parsed::refused_deep, crate::proofs::Parsed::refused_unexpected))]
fn parse_tokens(alloc: Global, text: &str, tokens: &[Token]) -> Result<Expr, ParseError>
    requires short { length text.now ≤ most_bytes }
    requires tokens { AreTokens text.now (map (token_of text.now) tokens.now) }
    requires parts { All (IsTokenOf text.now) tokens.now }
    ensures parses { IfOk result (λ e. Parses text.now (tree_of e)) }
    ensures small { IfOk result (λ e. size (tree_of e) ≤ most_bytes) }
    ensures refuses { IfErr result (IsRefused text.now) }
{
    if let Some(at) = too_deep_at(tokens) {
        return Err(ParseError::TooDeep { at });
    }
    match read(alloc, text, tokens)? {
        Ok(held) => answer(text, tokens, held),
        Err(number) => {
            let at = place_at(text, tokens, number);
            Err(ParseError::Unexpected { at })
        }
    }
}

fn parse_text(alloc: Global, text: &str) -> Result<Expr, ParseError>
    ensures parses { IfOk result (λ e. Parses text.now (tree_of e)) }
    ensures small { IfOk result (λ e. size (tree_of e) ≤ most_bytes) }
    ensures refuses { IfErr result (IsRefused text.now) }
    ensures long { most_bytes < length text.now → result ≡ Err TooLong }
{
    match tokens(alloc, text) {
        Ok(tokens) => parse_tokens(alloc, text, &tokens),
        Err(error) => Err(lexed(error)),
    }
}

/// The tree of a query's text, of at most 65,536 nodes, or the first refusal in the order of `ParseError`: `a + b * 2` is the
/// sum of the selector `a` and the product of the selector `b` and 2, and `a + * 2` is refused as `Unexpected` at 4.
pub fn parse(alloc: Global, text: &str) -> Result<Expr, ParseError>
    ensures parses { IfOk result (λ e. Parses text.now (tree_of e)) }
    ensures small { IfOk result (λ e. size (tree_of e) ≤ most_bytes) }
    ensures refuses { IfErr result (IsRefused text.now) }
    ensures exact { (t : Tree) → Parses text.now t → IsAnswered t result }
    ensures long { most_bytes < length text.now → result ≡ Err TooLong }
{
    parse_text(alloc, text)
}
