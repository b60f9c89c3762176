//! `label_replace` and `label_join`.

ghost use Rattle.std.specs.Prelude.{◌≡◌, ◌++◌, true, string_bytes, IfOk, OnOk};
ghost use Rattle.std.specs.Option.{option_copied};
ghost use Rattle.pf_base.specs.LabelSets.{Pairs, value_of};
ghost use Rattle.pf_match.specs.Meaning.{expand};
ghost use Rattle.pf_math.specs.Arguments.{expansion};
ghost use Rattle.pf_math.specs.Relabelling.{IsOfEachLabels, begins_with_name, has_lawful_target, is_relabelling, joined_labels, joined_values, joins, labels_by, relabels, replaced, replaces};

use pf_base::{Labels, OutOfMemory, Text};
use pf_match::{Pattern, PatternExpander};
use pf_model::InstantFn;
use std::alloc::Global;
use std::marker::Model;

/// `label_replace` with its texts read. Its caches grow as it is used, so it belongs to one thread.
#[derive(Drop)]
pub struct LabelReplacement<'a> {
    target: &'a str,
    source: &'a str,
    expander: PatternExpander<'a>,
}

impl<'a> Model for LabelReplacement<'a> {
    ghost use Rattle.std.specs.Prelude.{◌≡◌, true};
    ghost use Rattle.pf_base.specs.LabelSets.{is_label_name};
    ghost use Rattle.pf_math.specs.LabelTexts.{ReplacementData};

    ghost Value = { ReplacementData };

    ghost view = { λ r. record { target = r.target.now; source = r.source.now; pattern = r.expander.0; template = r.expander.1 } };

    ghost invariant = { λ r. is_label_name r.target.now ≡ true };
}

/// `label_join` with its texts.
#[derive(Drop)]
pub struct LabelJoin<'a> {
    alloc: Global,
    target: &'a str,
    separator: &'a str,
    sources: &'a [Text],
}

impl<'a> Model for LabelJoin<'a> {
    ghost use Rattle.std.specs.Prelude.{◌≡◌, true};
    ghost use Rattle.pf_base.specs.LabelSets.{is_label_name};
    ghost use Rattle.pf_math.specs.LabelTexts.{JoinData};

    ghost Value = { JoinData };

    ghost view = { λ j. record { target = j.target.now; separator = j.separator.now; sources = j.sources.now } };

    ghost invariant = { λ j. is_label_name j.target.now ≡ true };
}

/// What `label_replace` or `label_join` does to label sets, one after another.
#[derive(Drop)]
pub enum Relabelling<'a> {
    Replace(LabelReplacement<'a>),
    Join(LabelJoin<'a>),
    /// Nothing: the texts are too few, or there is no pattern.
    Keep,
}

/// Pushes the separator and the value of a source. Pushes a part of it, or nothing, on an error.
fn push_joined(
    out: &mut String,
    separator: &str,
    labels: &Labels,
    source: &Text,
) -> Result<(), OutOfMemory>
    ensures { OnOk result (string_bytes out.new ≡ string_bytes out.old ++ (separator.now ++ value_of labels.now source.now)) }
{
    out.push_str(separator)?;
    out.push_str(labels.get(source.as_str()))?;
    Ok(())
}

/// The values of the sources with the separator between them.
fn joined_values(
    alloc: Global,
    separator: &str,
    sources: &[Text],
    labels: &Labels,
) -> Result<String, OutOfMemory>
    ensures { IfOk result (λ s. string_bytes s ≡ joined_values separator.now sources.now labels.now) }
{
    let mut out = String::new(alloc);
    let Some((first, rest)) = sources.split_first() else {
        return Ok(out);
    };
    out.push_str(labels.get(first.as_str()))?;
    for source in rest {
        push_joined(&mut out, separator, labels, source)?;
    }
    Ok(out)
}

impl<'a> LabelReplacement<'a> {
    /// The labels with the target's value set to what the template stands for, where the pattern matches the whole value of
    /// the source.
    fn labels(&mut self, labels: &Labels) -> Result<Labels, OutOfMemory>
        ensures value { IfOk result (λ l. l ≡ replaces self.old labels.now) }
        ensures same { self.new ≡ self.old }
    {
        let found = self.expander.expand(labels.get(self.source))?;
        match &found {
            Some(value) => labels.with(self.target, value.as_str()),
            None => Ok(labels.clone()?),
        }
    }
}

impl<'a> LabelJoin<'a> {
    /// The labels with the target's value set to the values of the sources.
    fn labels(&self, labels: &Labels) -> Result<Labels, OutOfMemory>
        ensures { IfOk result (λ l. l ≡ joins self.now labels.now) }
    {
        let value = joined_values(self.alloc, self.separator, self.sources, labels)?;
        labels.with(self.target, value.as_str())
    }
}

fn replacement<'a>(texts: &'a [Text], pattern: &'a Pattern) -> Result<Relabelling<'a>, OutOfMemory>
    requires { begins_with_name texts.now ≡ true }
    ensures { IfOk result (λ r. (ls : Pairs) → relabels r ls ≡ replaced (expand pattern.now) texts.now ls) }
{
    match texts {
        [target, template, source, ..] => Ok(Relabelling::Replace(LabelReplacement {
            target: target.as_str(),
            source: source.as_str(),
            expander: pattern.expander(template.as_str())?,
        })),
        _ => Ok(Relabelling::Keep),
    }
}

fn join<'a>(alloc: Global, texts: &'a [Text]) -> Relabelling<'a>
    requires { begins_with_name texts.now ≡ true }
    ensures { (ls : Pairs) → relabels result ls ≡ joined_labels texts.now ls }
{
    match texts {
        [target, separator, sources @ ..] => Relabelling::Join(LabelJoin {
            alloc,
            target: target.as_str(),
            separator: separator.as_str(),
            sources,
        }),
        _ => Relabelling::Keep,
    }
}

impl<'a> Relabelling<'a> {
    /// What a function does to label sets, by its texts in order and the pattern of `label_replace`, read from the fourth of
    /// them. Other functions change none, and neither does `label_replace` with fewer than three texts or without a
    /// pattern, nor `label_join` with fewer than two texts.
    pub fn of(
        alloc: Global,
        f: InstantFn,
        texts: &'a [Text],
        pattern: Option<&'a Pattern>,
    ) -> Result<Relabelling<'a>, OutOfMemory>
        requires target { has_lawful_target f texts.now ≡ true }
        ensures labels { IfOk result (λ r. (ls : Pairs) → relabels r ls ≡ labels_by f (expansion (option_copied pattern.entry)) texts.now ls) }
        ensures law { is_relabelling f ≡ true → IsOfEachLabels f }
    {
        match (f, pattern) {
            (InstantFn::LabelReplace, Some(pattern)) => replacement(texts, pattern),
            (InstantFn::LabelJoin, _) => Ok(join(alloc, texts)),
            _ => Ok(Relabelling::Keep),
        }
    }

    /// What it makes of a label set. An empty value takes the target out. The result may have any number of labels.
    pub fn labels(&mut self, labels: &Labels) -> Result<Labels, OutOfMemory>
        ensures value { IfOk result (λ l. l ≡ relabels self.old labels.now) }
        ensures same { self.new ≡ self.old }
    {
        match self {
            Relabelling::Replace(replacement) => replacement.labels(labels),
            Relabelling::Join(join) => join.labels(labels),
            Relabelling::Keep => Ok(labels.clone()?),
        }
    }
}

/// `label_replace` or `label_join` on one label set; the other functions leave it as it is. Where the pattern doesn't match
/// the whole value of the source nothing changes, and an empty value takes the target out. For many label sets take a
/// `Relabelling`, which tells how the texts and the pattern are read. Prometheus, Query functions.
pub fn relabelled(
    alloc: Global,
    f: InstantFn,
    texts: &[Text],
    pattern: Option<&Pattern>,
    labels: &Labels,
) -> Result<Labels, OutOfMemory>
    requires target { has_lawful_target f texts.now ≡ true }
    ensures { IfOk result (λ l. l ≡ labels_by f (expansion (option_copied pattern.entry)) texts.now labels.now) }
{
    let mut relabelling = Relabelling::of(alloc, f, texts, pattern)?;
    relabelling.labels(labels)
}
