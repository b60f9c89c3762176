//! The queries and the selectors of a script.

ghost use Rattle.std.specs.Prelude.{◌≡◌, ◌≢◌, ◌≤◌, ℕ, true, IfOk, List, MatchOption, None, OnOk, Some, false, is_some};
ghost use Rattle.std.specs.BTreeMap.{get_by_text};
ghost use Rattle.pf_match.specs.Tables.{Agrees, AreTooBig, Stays};
ghost use Rattle.pf_model.specs.Parsing.{most_bytes};
ghost use Rattle.pf_model.specs.Built.{is_evaluated};
ghost use Rattle.pf_model.specs.Lists.{Each};
ghost use Rattle.pf_model.specs.Queries.{IsQuery, bind_fault, is_plain_selector, is_unmodified};
ghost use Rattle.pf_model.specs.Trees.{height, instant, size, tree_of};
ghost use Rattle.pf_print.specs.OwnTexts.{HasText};
ghost use Rattle.pf_script.specs.Lines.{lines_of, numbered_of};
ghost use Rattle.pf_client.specs.Queries.{AreReadAs, AreReadBy, IsKeptFor, IsLineRead, IsQueryRead, IsReadAs, IsTextRead, SelectsAs};
ghost use Rattle.pf_types.specs.Errors.{query_fault};

use pf_base::{OutOfMemory, Text};
use pf_match::Patterns;
use pf_model::{Expr, MatchError, Matchers, Mods, Selector};
use pf_parse::ParseError;
use pf_script::{Line, NumberedLine, Script};
use pf_types::{BindError, BoundQuery, QueryError, bind, read_query};
use std::alloc::Global;
use std::collections::BTreeMap;
use std::sync::Arc;

/// What a text is read as where a query stands.
#[derive(Drop)]
pub enum QueryRead {
    Lawful(Arc<BoundQuery>),
    Refused(QueryError),
}

/// What a text is read as where a deletion's selector stands.
#[derive(Drop)]
pub enum SelectorRead {
    Built(Arc<Matchers>),
    Refused,
}

/// What a text is read as.
#[derive(Drop)]
pub struct TextRead {
    pub query: QueryRead,
    pub selector: SelectorRead,
}

/// What texts are read as, by text.
pub type Queries = BTreeMap<String, TextRead>;

/// Whether an error says more than that memory ran out.
fn is_fault(error: &QueryError) -> bool
    ensures { result ≡ is_some (query_fault error.now) }
{
    match error {
        QueryError::OutOfMemory | QueryError::Parse(ParseError::OutOfMemory) => false,
        _ => true,
    }
}

fn is_unmodified(mods: &Mods) -> bool
    ensures { result ≡ is_unmodified mods.now }
{
    mods.at.is_none() && mods.offset == 0
}

/// The selector of an instant selector without modifiers.
#[tactic(auto, using(crate::proofs::TextReads::number_other, crate::proofs::TextReads::text_other, crate::proofs::TextReads::unary_other, crate::proofs::TextReads::binary_other, crate::proofs::TextReads::call_other, crate::proofs::TextReads::aggregate_other, crate::proofs::TextReads::subquery_other, crate::proofs::TextReads::select_other, crate::proofs::TextReads::select_plain))]
fn plain_selector(expr: &Expr) -> Option<&Selector>
    ensures { MatchOption result (is_plain_selector (tree_of expr.now) ≡ false) (λ s. tree_of expr.now ≡ instant s.now) }
{
    match expr {
        Expr::Select {
            selector,
            range,
            mods,
        } => {
            if range.is_none() && is_unmodified(mods) {
                Some(selector)
            } else {
                None
            }
        }
        Expr::Number { .. } => None,
        Expr::Text { .. } => None,
        Expr::Unary { .. } => None,
        Expr::Binary { .. } => None,
        Expr::Call { .. } => None,
        Expr::Aggregate { .. } => None,
        Expr::Subquery { .. } => None,
    }
}

/// What a tree is read as, as a deletion's selector. One whose pattern is refused is none.
#[tactic(auto, using(crate::proofs::TextReads::other_refused, crate::proofs::TextReads::plain_selects, crate::proofs::TextReads::pattern_refused, crate::proofs::TextReads::empty_refused))]
fn read_selector(
    alloc: Global,
    patterns: &mut Patterns,
    expr: &Expr,
) -> Result<SelectorRead, OutOfMemory>
    ensures right { IfOk result (λ s. (refs : List (List ℕ)) → Agrees patterns.new refs → SelectsAs refs (tree_of expr.now) s) }
    ensures still { Stays patterns.old patterns.new }
{
    let Some(selector) = plain_selector(expr) else {
        return Ok(SelectorRead::Refused);
    };
    match Matchers::build_with(patterns, selector) {
        Ok(matchers) => Ok(SelectorRead::Built(Arc::new(alloc, matchers)?)),
        Err(MatchError::BadPattern) => Ok(SelectorRead::Refused),
        Err(MatchError::EmptySelector) => Ok(SelectorRead::Refused),
        Err(MatchError::OutOfMemory) => Err(OutOfMemory),
    }
}

/// What a query with its matchers and patterns is read as.
#[tactic(auto, using(crate::proofs::TextReads::lawful_right))]
fn read_bound(alloc: Global, query: BoundQuery) -> Result<QueryRead, OutOfMemory>
    ensures { IfOk result (λ q. (refs : List (List ℕ)) → bind_fault refs query ≡ None → (text : List ℕ) → IsQuery text query → IsQueryRead refs text q) }
{
    Ok(QueryRead::Lawful(Arc::new(alloc, query)?))
}

/// What a query whose kinds are lawful is read as.
#[tactic(auto, using(crate::proofs::TextReads::bound_right, crate::proofs::TextReads::refused_pattern_right, crate::proofs::TextReads::empty_selector_right))]
fn read_lawful(alloc: Global, patterns: &mut Patterns, expr: Expr) -> Result<QueryRead, OutOfMemory>
    requires written { HasText (tree_of expr) }
    requires small { size (tree_of expr) ≤ most_bytes }
    requires low { height (tree_of expr) ≤ 64 }
    requires evaluated { is_evaluated (tree_of expr) ≡ true }
    ensures right { IfOk result (λ q. (refs : List (List ℕ)) → Agrees patterns.new refs → (text : List ℕ) → IsQuery text (tree_of expr) → IsQueryRead refs text q) }
    ensures still { Stays patterns.old patterns.new }
{
    match bind(alloc, patterns, expr) {
        Ok(query) => read_bound(alloc, query),
        Err(BindError::Pattern { which }) => {
            Ok(QueryRead::Refused(QueryError::Pattern { which }))
        }
        Err(BindError::Empty { which }) => Ok(QueryRead::Refused(QueryError::Empty { which })),
        Err(BindError::OutOfMemory) => Err(OutOfMemory),
    }
}

/// What a tree whose kinds are lawful is read as, as a query and as a deletion's selector.
#[tactic(auto, using(crate::proofs::TextReads::lawful_read))]
fn read_tree(alloc: Global, patterns: &mut Patterns, expr: Expr) -> Result<TextRead, OutOfMemory>
    requires written { HasText (tree_of expr) }
    requires small { size (tree_of expr) ≤ most_bytes }
    requires low { height (tree_of expr) ≤ 64 }
    requires evaluated { is_evaluated (tree_of expr) ≡ true }
    ensures right { IfOk result (λ r. (refs : List (List ℕ)) → Agrees patterns.new refs → (text : List ℕ) → IsQuery text (tree_of expr) → IsReadAs refs text r) }
    ensures still { Stays patterns.old patterns.new }
{
    let selector = read_selector(alloc, patterns, &expr)?;
    let query = read_lawful(alloc, patterns, expr)?;
    Ok(TextRead { query, selector })
}

/// Reads a text as a query and as a selector, where the patterns that were read before keep their fates.
fn read_text_with(
    alloc: Global,
    patterns: &mut Patterns,
    text: &str,
) -> Result<TextRead, OutOfMemory>
    ensures right { IfOk result (λ r. (refs : List (List ℕ)) → Agrees patterns.new refs → IsReadAs refs text.now r) }
    ensures still { Stays patterns.old patterns.new }
{
    match read_query(alloc, text) {
        Ok(expr) => read_tree(alloc, patterns, expr),
        Err(error) => {
            if is_fault(&error) {
                Ok(TextRead {
                    query: QueryRead::Refused(error),
                    selector: SelectorRead::Refused,
                })
            } else {
                Err(OutOfMemory)
            }
        }
    }
}

/// Reads a text as a query and as a selector.
pub fn read_text(alloc: Global, text: &str) -> Result<TextRead, OutOfMemory>
    ensures { IfOk result (λ r. (refs : List (List ℕ)) × (AreTooBig refs × IsReadAs refs text.now r)) }
{
    let mut patterns = Patterns::new(alloc);
    let read = read_text_with(alloc, &mut patterns, text)?;
    // What it says is all that is needed of it.
    patterns.refused();
    Ok(read)
}

/// What is kept of a text.
pub fn query_of<'a>(queries: &'a Queries, text: &str) -> Option<&'a TextRead>
    ensures { MatchOption result (get_by_text queries.now text.now ≡ None) (λ q. get_by_text queries.now text.now ≡ Some q.now) }
{
    queries.get(text)
}

/// Adds what a text is read as.
fn insert(
    alloc: Global,
    queries: &mut Queries,
    text: &str,
    read: TextRead,
) -> Result<(), OutOfMemory>
    ensures added { OnOk result (get_by_text queries.new text.now ≡ Some read) }
    ensures others { OnOk result ((other : List ℕ) → other ≢ text.now → get_by_text queries.new other ≡ get_by_text queries.old other) }
{
    queries.insert(String::from_str(alloc, text)?, read)?;
    Ok(())
}

/// Reads a text, where it was not read before.
fn read_one(
    alloc: Global,
    patterns: &mut Patterns,
    queries: &mut Queries,
    text: &Text,
) -> Result<(), OutOfMemory>
    ensures read { OnOk result (IsTextRead queries.old text.now queries.new) }
    ensures right { OnOk result ((refs : List (List ℕ)) → Agrees patterns.new refs → AreReadBy refs queries.old → AreReadBy refs queries.new) }
    ensures still { Stays patterns.old patterns.new }
{
    if let Some(_known) = query_of(queries, text.as_str()) {
        return Ok(());
    }
    let read = read_text_with(alloc, patterns, text.as_str())?;
    insert(alloc, queries, text.as_str(), read)?;
    Ok(())
}

/// Reads the query or the selector of a line.
fn read_line(
    alloc: Global,
    patterns: &mut Patterns,
    queries: &mut Queries,
    line: &NumberedLine,
) -> Result<(), OutOfMemory>
    ensures read { OnOk result (IsLineRead queries.old (numbered_of line.now).line queries.new) }
    ensures right { OnOk result ((refs : List (List ℕ)) → Agrees patterns.new refs → AreReadBy refs queries.old → AreReadBy refs queries.new) }
    ensures still { Stays patterns.old patterns.new }
{
    match &line.line {
        Line::Ask { query, .. } | Line::Instant { query, .. } => {
            read_one(alloc, patterns, queries, query)
        }
        Line::Delete { selector, .. } => read_one(alloc, patterns, queries, selector),
        _ => Ok(()),
    }
}

/// Reads each query and each selector of a script, once. The same pattern has one fate in all of them.
pub fn read_queries(alloc: Global, script: &Script) -> Result<Queries, OutOfMemory>
    ensures { IfOk result (λ q. AreReadAs q × Each (λ l. IsKeptFor q l.line) (lines_of script.now)) }
{
    let mut patterns = Patterns::new(alloc);
    let mut queries = BTreeMap::new(alloc);
    for line in &script.lines {
        read_line(alloc, &mut patterns, &mut queries, line)?;
    }
    // What it says is all that is needed of it.
    patterns.refused();
    Ok(queries)
}
