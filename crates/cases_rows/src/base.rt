//! Rows of numbers, values, durations, tenants' names and label sets.

use crate::output::{Output, cut};
use pf_base::{
    DurationError, Grid, GridError, Labels, LabelsError, OutOfMemory, Read, Sample, Tenant,
    TenantError, Text, Value, is_label_name, read_duration, read_value,
};
use std::alloc::Global;

/// Writes what is found of a row of bytes, and says whether its form is one of these.
pub fn answer_bytes(out: &mut Output, form: &str, given: &[u8]) -> bool {
    match form {
        // `TEXT => MICROS`, what a number of an exposition file reads as, or `not a number`, or `bad number`.
        "number" => number(out, given),
        // `TEXT => MILLISECONDS`, or `bad form`, or `too large`.
        "duration" => duration(out, given),
        _ => return false,
    }
    true
}

/// Writes what is found of a row of text, and says whether its form is one of these.
pub fn answer(out: &mut Output, form: &str, given: &str) -> bool {
    match form {
        // `MICROS => TEXT`, the text of a value.
        "value" => value(out, given),
        // `MICROS SIGN MICROS => MICROS`, or `none` where the right one is zero and divides.
        "arithmetic" => arithmetic(out, given),
        // `NAME => NAME`, or `bad tenant`.
        "tenant" => tenant(out, given),
        // `NAME NAME => true`, whether two tenants are equal.
        "same tenant" => same_tenant(out, given),
        // `VERB LABELS ARGUMENT => ANSWER`, calls of label sets that are written `a=1,b=2`, and `-` without labels.
        "labels" => labels(out, given),
        _ => return false,
    }
    true
}

/// Appends what a number's text says.
fn push_read(out: &mut Output, read: Read) {
    match read {
        Read::Number(value) => out.show(value.micros()),
        Read::NotANumber => out.text("not a number"),
    }
}

fn number(out: &mut Output, given: &[u8]) {
    match read_value(given) {
        Ok(read) => push_read(out, read),
        Err(_) => out.text("bad number"),
    }
}

/// The value of a text of micros.
fn value_of(out: &mut Output, micros: &str) -> Value {
    Value::new(out.number(micros))
}

fn value(out: &mut Output, given: &str) {
    let value = value_of(out, given);
    out.value(value);
}

/// What an operator's sign makes of two values.
fn computed(out: &mut Output, left: Value, sign: &str, right: Value) -> Option<Value> {
    match sign {
        "+" => Some(left.add(right)),
        "-" => Some(left.sub(right)),
        "*" => Some(left.mul(right)),
        "/" => left.div(right),
        "%" => left.rem(right),
        _ => {
            out.refuse();
            None
        }
    }
}

fn arithmetic(out: &mut Output, given: &str) {
    let (left, rest) = cut(given);
    let (sign, right) = cut(rest);
    let left = value_of(out, left);
    let right = value_of(out, right);
    match computed(out, left, sign, right) {
        Some(value) => out.show(value.micros()),
        None => out.text("none"),
    }
}

fn duration(out: &mut Output, given: &[u8]) {
    match read_duration(given) {
        Ok(millis) => out.show(millis),
        Err(DurationError::BadForm) => out.text("bad form"),
        Err(DurationError::TooLarge) => out.text("too large"),
    }
}

/// The grid of three numbers, a start, an end and a step, or of a single time.
pub fn grid_of(out: &mut Output, text: &str) -> Result<Grid, GridError> {
    let (start, rest) = cut(text);
    let start = out.number(start);
    if rest.is_empty() {
        return Grid::single(start);
    }
    let (end, step) = cut(rest);
    Grid::aligned(start, out.number(end), out.number(step))
}

/// The sample of a text `TIME:MICROS`.
pub fn sample_of(out: &mut Output, text: &str) -> Sample {
    let (time, micros) = text.split_once(':').unwrap_or((text, ""));
    Sample {
        time: out.number(time),
        value: value_of(out, micros),
    }
}

fn tenant(out: &mut Output, given: &str) {
    match &Tenant::read(out.alloc(), given) {
        Ok(tenant) => out.text(tenant.as_str()),
        Err(TenantError::BadTenant) => out.text("bad tenant"),
        Err(TenantError::OutOfMemory) => out.lose(),
    }
}

/// Compares a copy of the one tenant with the other.
fn compare_tenants(out: &mut Output, left: &Tenant, right: &Tenant) {
    let copy: Result<_, _> = left.clone();
    if let Some(copy) = &out.or_lose(copy) {
        out.show(*copy == *right);
    }
}

fn compare_with(out: &mut Output, left: &Tenant, right: &str) {
    let right = Tenant::read(out.alloc(), right);
    if let Some(right) = &out.or_refuse(right) {
        compare_tenants(out, left, right);
    }
}

fn same_tenant(out: &mut Output, given: &str) {
    let (left, right) = cut(given);
    let left = Tenant::read(out.alloc(), left);
    if let Some(left) = &out.or_refuse(left) {
        compare_with(out, left, right);
    }
}

fn pair_of(alloc: Global, name: &str, value: &str) -> Result<(Text, Text), OutOfMemory> {
    Ok((Text::of(alloc, name)?, Text::of(alloc, value)?))
}

/// The pairs that a text lists, as in `b=2,a=1`.
fn pairs_of(out: &mut Output, list: &str) -> Vec<(Text, Text)> {
    let mut pairs = Vec::new(out.alloc());
    for part in list.split(',') {
        if let Some((name, value)) = part.split_once('=') {
            out.add(&mut pairs, pair_of(out.alloc(), name, value));
        }
    }
    pairs
}

/// The label set that a text lists.
pub fn labels_of(out: &mut Output, list: &str) -> Option<Labels> {
    let pairs = pairs_of(out, list);
    let built = Labels::build(out.alloc(), pairs);
    out.or_refuse(built)
}

/// Appends the pairs of a label set, listed as they are given.
pub fn push_labels(out: &mut Output, labels: &Labels) {
    for i in 0..labels.count() {
        if i > 0 {
            out.text(",");
        }
        out.text(labels.name(i));
        out.text("=");
        out.text(labels.value(i));
    }
}

/// Appends a label set that was built, or why there is none.
fn push_built(out: &mut Output, built: &Result<Labels, LabelsError>) {
    match built {
        Ok(labels) => push_labels(out, labels),
        Err(LabelsError::BadName { name }) => {
            out.text("bad name ");
            out.text(name.as_str());
        }
        Err(LabelsError::Repeated { name }) => {
            out.text("repeated ");
            out.text(name.as_str());
        }
        Err(LabelsError::TooMany) => out.text("too many"),
        Err(LabelsError::OutOfMemory) => out.lose(),
    }
}

fn build(out: &mut Output, list: &str) {
    let pairs = pairs_of(out, list);
    push_built(out, &Labels::build(out.alloc(), pairs));
}

/// Appends a label set that was made of another one.
fn push_made(out: &mut Output, made: &Result<Labels, OutOfMemory>) {
    match made {
        Ok(labels) => push_labels(out, labels),
        Err(_) => out.lose(),
    }
}

/// The texts between the signs of this kind.
pub fn texts_of(out: &mut Output, list: &str, sign: char) -> Vec<Text> {
    let mut texts = Vec::new(out.alloc());
    for text in list.split(sign) {
        out.add(&mut texts, Text::of(out.alloc(), text));
    }
    texts
}

fn keep(out: &mut Output, labels: &Labels, list: &str) {
    let names = texts_of(out, list, ',');
    push_made(out, &labels.keep(&names));
}

fn leave_out(out: &mut Output, labels: &Labels, list: &str) {
    let names = texts_of(out, list, ',');
    push_made(out, &labels.leave_out(&names));
}

/// Tells these labels with a name's value set, as in `a=1`.
fn with(out: &mut Output, labels: &Labels, pair: &str) {
    let (name, value) = pair.split_once('=').unwrap_or(("", ""));
    if is_label_name(name) {
        push_made(out, &labels.with(name, value));
    } else {
        out.refuse();
    }
}

/// Tells whether a copy of a label set equals it.
fn is_copy_same(out: &mut Output, labels: &Labels) -> bool {
    let copy: Result<_, _> = labels.clone();
    match &out.or_lose(copy) {
        Some(copy) => *copy == *labels,
        None => false,
    }
}

/// Tells how two label sets compare, by all that compares them.
fn compare_labels(out: &mut Output, left: &Labels, right: &Labels) {
    let order = left.cmp(right);
    let is_equal = *left == *right;
    if !is_copy_same(out, left) {
        out.text("a copy differs");
    } else if left.partial_cmp(right) != Some(order) {
        out.text("two orders");
    } else {
        out.show(format_args!("{order:?} {is_equal}"));
    }
}

fn compare(out: &mut Output, left: &Labels, list: &str) {
    if let Some(right) = &labels_of(out, list) {
        compare_labels(out, left, right);
    }
}

fn shard(out: &mut Output, labels: &Labels, count: &str) {
    let count = out.number::<u32>(count);
    if count == 0 {
        out.refuse();
    } else {
        out.show(labels.shard(count));
    }
}

/// A value that threads may share and hand on.
fn shared<T: Send + Sync>(value: &T) -> &T {
    value
}

/// Makes a call of a label set.
fn call(out: &mut Output, labels: &Labels, verb: &str, argument: &str) {
    match verb {
        "get" => out.text(shared(labels).get(argument)),
        "without_name" => push_made(out, &labels.without_name()),
        "keep" => keep(out, labels, argument),
        "leave_out" => leave_out(out, labels, argument),
        "with" => with(out, labels, argument),
        "compare" => compare(out, labels, argument),
        "shard" => shard(out, labels, argument),
        _ => out.refuse(),
    }
}

/// Answers `build LABELS`, `get LABELS NAME`, `without_name LABELS`, `keep LABELS NAMES`, `leave_out LABELS NAMES`,
/// `with LABELS NAME=VALUE`, `compare LABELS LABELS` and `shard LABELS COUNT`. The empty label set is `-`.
fn labels(out: &mut Output, given: &str) {
    let (verb, rest) = cut(given);
    if verb == "build" {
        return build(out, rest);
    }
    let (list, argument) = cut(rest);
    if let Some(labels) = &labels_of(out, list) {
        call(out, labels, verb, argument);
    }
}
