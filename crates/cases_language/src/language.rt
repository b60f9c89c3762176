//! Rows of tokens, canonical texts, kinds, queries, what they are bound to, and errors.

ghost use Rattle.std.specs.Prelude.{◌≡◌, ◌≤◌, true};
ghost use Rattle.pf_model.specs.Parsing.{most_bytes};
ghost use Rattle.pf_lex.specs.Seen.{IsTokenOf};
ghost use Rattle.pf_model.specs.Built.{is_evaluated};
ghost use Rattle.pf_model.specs.Trees.{height, size, tree_of};
ghost use Rattle.pf_print.specs.OwnTexts.{HasText};

use cases_rows::output::Output;
use pf_lex::{LexError, Token, TokenSort, string_value, token_text, tokens};
use pf_match::Patterns;
use pf_model::{Expr, Kind};
use pf_parse::{ParseError, parse};
use pf_print::print;
use pf_types::{QueryError, TypeError, bind, check, error_text, read_query};
use std::alloc::Global;

/// Writes what is found of a row, and says whether its form is one of these.
pub fn answer(out: &mut Output, form: &str, given: &str) -> bool {
    match form {
        // `TEXT => TOKENS`, or the text of the refusal.
        "tokens" => listed_tokens(out, given),
        // `TEXT => COUNT`, how many tokens there are, or the text of the refusal.
        "token count" => token_count(out, given),
        // `TEXT => CANONICAL`, the canonical text of what is read, or the text of the refusal.
        "canonical" => canonical(out, given),
        // `TEXT => KIND`, or the text of the first fault.
        "kind" => kind(out, given),
        // `TEXT => lawful`, or the text of the first error.
        "query" => query(out, given),
        // `QUERY => lawful`, or the text of the first refused pattern or empty selector.
        "bind" => bound(out, given),
        // `SELECTOR => true` where no pattern is compiled for it, and `false` else.
        "compared" => compared(out, given),
        // `ERROR => TEXT`.
        "error" => error(out, given),
        _ => return false,
    }
    true
}

/// Appends the text of a refusal.
pub fn push_refusal(out: &mut Output, error: &QueryError) {
    if matches!(error, QueryError::OutOfMemory) {
        out.lose();
    } else {
        out.made(&error_text(out.alloc(), error));
    }
}

/// The refusal of a text that has no tokens.
fn without_tokens(error: LexError) -> QueryError {
    match error {
        LexError::TooLong => QueryError::Parse(ParseError::TooLong),
        LexError::BadToken { at } => QueryError::Parse(ParseError::BadToken { at }),
        LexError::OutOfMemory => QueryError::OutOfMemory,
    }
}

/// Appends a token's sort or its sign, and its places.
fn push_place(out: &mut Output, sort: &str, token: &Token) {
    out.text(sort);
    out.text(" ");
    out.show(token.from);
    out.text("-");
    out.show(token.to);
}

/// Appends the value of a string.
fn push_string(out: &mut Output, text: &str, token: &Token)
    requires { IsTokenOf text.now token.now }
{
    push_place(out, "string", token);
    out.text(" ");
    out.made(&string_value(out.alloc(), text, token));
}

/// Appends a token's sort or its sign, its places and its value.
fn push_token(out: &mut Output, text: &str, token: &Token)
    requires { IsTokenOf text.now token.now }
{
    match token.sort {
        TokenSort::Word => push_place(out, "word", token),
        TokenSort::Number(value) => {
            push_place(out, "number", token);
            out.text(" ");
            out.show(value.micros());
        }
        TokenSort::Duration(Some(millis)) => {
            push_place(out, "duration", token);
            out.text(" ");
            out.show(millis);
        }
        TokenSort::Duration(None) => push_place(out, "late duration", token),
        TokenSort::String => push_string(out, text, token),
        TokenSort::Mark(_) => push_place(out, token_text(text, token), token),
    }
}

/// The tokens with semicolons between them.
fn listed_tokens(out: &mut Output, text: &str) {
    match &tokens(out.alloc(), text) {
        Ok(found) => {
            for token in found {
                if !out.is_empty() {
                    out.text("; ");
                }
                push_token(out, text, token);
            }
        }
        Err(error) => push_refusal(out, &without_tokens(*error)),
    }
}

fn token_count(out: &mut Output, text: &str) {
    match &tokens(out.alloc(), text) {
        Ok(found) => out.show(found.len()),
        Err(error) => push_refusal(out, &without_tokens(*error)),
    }
}

fn canonical(out: &mut Output, text: &str) {
    match &parse(out.alloc(), text) {
        Ok(tree) => out.made(&print(out.alloc(), tree)),
        Err(error) => push_refusal(out, &QueryError::from(*error)),
    }
}

fn kind_of(alloc: Global, text: &str) -> Result<Kind, QueryError> {
    let tree = parse(alloc, text)?;
    Ok(check(&tree)?)
}

fn kind(out: &mut Output, text: &str) {
    match kind_of(out.alloc(), text) {
        Ok(kind) => out.show(format_args!("{kind:?}")),
        Err(error) => push_refusal(out, &error),
    }
}

fn query(out: &mut Output, text: &str) {
    match &read_query(out.alloc(), text) {
        Ok(_) => out.text("lawful"),
        Err(error) => push_refusal(out, error),
    }
}

fn push_bound(out: &mut Output, tree: Expr)
    requires written { HasText (tree_of tree) }
    requires small { size (tree_of tree) ≤ most_bytes }
    requires low { height (tree_of tree) ≤ 64 }
    requires evaluated { is_evaluated (tree_of tree) ≡ true }
{
    let mut patterns = Patterns::new(out.alloc());
    match &bind(out.alloc(), &mut patterns, tree) {
        Ok(_) => out.text("lawful"),
        Err(error) => push_refusal(out, &QueryError::from(*error)),
    }
}

fn bound(out: &mut Output, text: &str) {
    match read_query(out.alloc(), text) {
        Ok(tree) => push_bound(out, tree),
        Err(error) => push_refusal(out, &error),
    }
}

fn compared(out: &mut Output, text: &str) {
    match &read_query(out.alloc(), text) {
        Ok(Expr::Select { selector, .. }) => out.show(selector.is_compared()),
        Ok(_) => out.refuse(),
        Err(error) => push_refusal(out, error),
    }
}

/// An error of each kind.
const ERRORS: [QueryError; 17] = [
    QueryError::Parse(ParseError::TooLong),
    QueryError::Parse(ParseError::BadToken { at: 0 }),
    QueryError::Parse(ParseError::TooDeep { at: 64 }),
    QueryError::Parse(ParseError::Unexpected { at: 65_536 }),
    QueryError::Parse(ParseError::UnknownName { at: 7 }),
    QueryError::Parse(ParseError::TimeTooLarge { at: 10 }),
    QueryError::Parse(ParseError::TooTall),
    QueryError::Parse(ParseError::OutOfMemory),
    QueryError::Typing(TypeError::ArgCount { at: 3 }),
    QueryError::Typing(TypeError::Wrong {
        at: 0,
        wanted: Kind::Range,
        found: Kind::Scalar,
    }),
    QueryError::Typing(TypeError::BadName { at: 12 }),
    QueryError::Typing(TypeError::BoolNeeded { at: 1 }),
    QueryError::Typing(TypeError::BadMatching { at: u32::MAX }),
    QueryError::Typing(TypeError::SubqueryTooFine { at: 5 }),
    QueryError::Pattern { which: 0 },
    QueryError::Empty { which: 21 },
    QueryError::OutOfMemory,
];

/// Whether an error is written so for debugging.
fn is_named(out: &mut Output, error: QueryError, name: &str) -> bool {
    let mut written = Output::new(out.alloc());
    written.show(format_args!("{error:?}"));
    out.share(&written);
    written.as_slice() == name.as_bytes()
}

/// The text of the error that is written so for debugging.
fn error(out: &mut Output, name: &str) {
    for error in ERRORS {
        if is_named(out, error, name) {
            return out.made(&error_text(out.alloc(), &error));
        }
    }
    out.refuse();
}
