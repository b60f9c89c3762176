//! Label sets made of others.

ghost use Rattle.std.specs.Prelude.{◌≡◌, ◌<◌, ◌≤◌, ◌^◌, ◌++◌, ◌∷◌, true, not, length, filter, slice_range, IfOk};
ghost use Rattle.std.specs.Str.{bytes_eq};
ghost use Rattle.pf_base.specs.LabelSets.{is_label_name};
ghost use Rattle.pf_base.specs.LabelOrder.{labels_eq, pair_cmp};
ghost use Rattle.pf_base.specs.LabelChanges.{metric_name, others, stands_in, kept, left_out, with_value};
ghost use Rattle.pf_base.specs.LabelWalk.{place};
ghost use Rattle.pf_base.specs.Sorting.{ins};

use crate::labels::packed::PackedPairs;
use crate::labels::{Labels, METRIC_NAME};
use crate::memory::OutOfMemory;
use crate::text::Text;

/// Which labels are chosen, by their names.
trait Choice {
    ghost use Rattle.std.specs.Prelude.{List, ℕ, Bool};

    ghost is_chosen: { Self → List ℕ → Bool };

    fn chooses(&self, name: &str) -> bool
        ensures { result ≡ is_chosen self.now name.now };
}

/// All but one.
#[derive(Clone, Copy)]
struct Others<'a> {
    name: &'a str,
}

/// These alone.
#[derive(Clone, Copy)]
struct Among<'a> {
    names: &'a [Text],
}

/// All but these.
#[derive(Clone, Copy)]
struct NotAmong<'a> {
    names: &'a [Text],
}

/// All but these and the metric name.
#[derive(Clone, Copy)]
struct Unnamed<'a> {
    names: &'a [Text],
}

impl Choice for Others<'_> {
    ghost is_chosen = { λ c name. not (bytes_eq name c.name.now) };

    fn chooses(&self, name: &str) -> bool {
        name != self.name
    }
}

impl Choice for Among<'_> {
    ghost is_chosen = { λ c name. stands_in c.names.now name };

    fn chooses(&self, name: &str) -> bool {
        is_one_of(name, self.names)
    }
}

impl Choice for NotAmong<'_> {
    ghost is_chosen = { λ c name. not (stands_in c.names.now name) };

    fn chooses(&self, name: &str) -> bool {
        !is_one_of(name, self.names)
    }
}

impl Choice for Unnamed<'_> {
    ghost is_chosen = { λ c name. not (stands_in (metric_name ∷ c.names.now) name) };

    fn chooses(&self, name: &str) -> bool {
        METRIC_NAME != name && !is_one_of(name, self.names)
    }
}

fn is_one_of(name: &str, names: &[Text]) -> bool
    ensures { result ≡ stands_in names.now name.now }
{
    names.iter().any(|n| n.as_str() == name)
}

/// How many pairs are chosen, and the bytes of their names and values: `usize::MAX` where they are more.
#[derive(Clone, Copy)]
struct Size {
    pairs: usize,
    bytes: usize,
}

fn size_of_chosen<C: Choice>(pairs: &PackedPairs, choice: &C) -> Size
    ensures { result.pairs ≡ length (filter (λ p. C.is_chosen choice.now p.0) pairs.now) }
{
    let mut size = Size { pairs: 0, bytes: 0 };
    for i in 0..pairs.count() {
        if choice.chooses(pairs.name(i)) {
            size.pairs += 1;
            size.bytes = size
                .bytes
                .saturating_add(pairs.name(i).len())
                .saturating_add(pairs.value(i).len());
        }
    }
    size
}

/// The pairs found, and those chosen of the others from one place up to another.
fn with_chosen<C: Choice>(
    mut found: PackedPairs,
    pairs: &PackedPairs,
    start: usize,
    end: usize,
    choice: &C,
) -> Result<PackedPairs, OutOfMemory>
    requires rising { start ≤ end }
    requires bound { end ≤ length pairs.now }
    requires few { length found < 2 ^ 32 }
    ensures pairs { IfOk result (λ p. p ≡ found ++ filter (λ p. C.is_chosen choice.now p.0) (slice_range pairs.now start end)) }
    ensures few { IfOk result (λ p. length p < 2 ^ 32) }
{
    for i in start..end {
        if choice.chooses(pairs.name(i)) {
            found = found.with_pair(pairs.name(i), pairs.value(i))?;
        }
    }
    Ok(found)
}

/// The chosen labels. Where all are chosen, they are shared.
fn chosen<C: Choice>(labels: &Labels, choice: &C) -> Result<Labels, OutOfMemory>
    ensures { IfOk result (λ l. l ≡ filter (λ p. C.is_chosen choice.now p.0) labels.now) }
{
    let size = size_of_chosen(&labels.pairs, choice);
    let count = labels.pairs.count();
    if size.pairs == count {
        return Ok(labels.clone()?);
    }
    let empty = PackedPairs::with_capacity(labels.pairs.allocator(), size.pairs, size.bytes)?;
    Labels::of(with_chosen(empty, &labels.pairs, 0, count, choice)?)
}

/// Whether the chosen pairs are those of a key.
fn are_chosen<C: Choice>(pairs: &PackedPairs, choice: &C, key: &PackedPairs) -> bool
    ensures { result ≡ labels_eq (filter (λ p. C.is_chosen choice.now p.0) pairs.now) key.now }
{
    let mut met = 0;
    for i in 0..pairs.count() {
        if choice.chooses(pairs.name(i)) {
            if met == key.count() || !pairs.equals_at(i, key, met) {
                return false;
            }
            met += 1;
        }
    }
    met == key.count()
}

/// The place at which a name belongs among the pairs of other names.
fn place_of(pairs: &PackedPairs, name: &str) -> usize
    ensures place { result ≡ place name.now pairs.now }
    ensures bound { result ≤ length pairs.now }
{
    for i in 0..pairs.count() {
        if name < pairs.name(i) {
            return i;
        }
    }
    pairs.count()
}

/// The pairs of other names with this pair in its place.
fn put(pairs: &PackedPairs, name: &str, value: &str) -> Result<PackedPairs, OutOfMemory>
    ensures pairs { IfOk result (λ p. p ≡ ins pair_cmp (name.now, value.now) (others name.now pairs.now)) }
    ensures few { IfOk result (λ p. length p < 2 ^ 32) }
{
    let choice = Others { name };
    let size = size_of_chosen(pairs, &choice);
    let place = place_of(pairs, name);
    let empty = PackedPairs::with_capacity(
        pairs.allocator(),
        size.pairs.saturating_add(1),
        size.bytes
            .saturating_add(name.len())
            .saturating_add(value.len()),
    )?;
    let below = with_chosen(empty, pairs, 0, place, &choice)?;
    let joined = below.with_pair(name, value)?;
    with_chosen(joined, pairs, place, pairs.count(), &choice)
}

impl Labels {
    /// These labels without the metric name.
    pub fn without_name(&self) -> Result<Labels, OutOfMemory>
        ensures { IfOk result (λ l. l ≡ others metric_name self.now) }
    {
        chosen(self, &Others { name: METRIC_NAME })
    }

    /// The labels of these names.
    pub fn keep(&self, names: &[Text]) -> Result<Labels, OutOfMemory>
        ensures { IfOk result (λ l. l ≡ kept names.now self.now) }
    {
        chosen(self, &Among { names })
    }

    /// The labels of all names but these.
    pub fn leave_out(&self, names: &[Text]) -> Result<Labels, OutOfMemory>
        ensures { IfOk result (λ l. l ≡ left_out names.now self.now) }
    {
        chosen(self, &NotAmong { names })
    }

    /// The labels of all names but these and the metric name.
    pub fn leave_out_with_name(&self, names: &[Text]) -> Result<Labels, OutOfMemory>
        ensures { IfOk result (λ l. l ≡ left_out (metric_name ∷ names.now) self.now) }
    {
        chosen(self, &Unnamed { names })
    }

    /// Whether the labels of these names are those of a key. Nothing is copied.
    pub fn keeps(&self, names: &[Text], key: &Labels) -> bool
        ensures { result ≡ labels_eq (kept names.now self.now) key.now }
    {
        are_chosen(&self.pairs, &Among { names }, &key.pairs)
    }

    /// Whether the labels of all names but these and the metric name are those of a key. Nothing is copied.
    pub fn leaves(&self, names: &[Text], key: &Labels) -> bool
        ensures { result ≡ labels_eq (left_out (metric_name ∷ names.now) self.now) key.now }
    {
        are_chosen(&self.pairs, &Unnamed { names }, &key.pairs)
    }

    /// These labels with the name's value set to this one, or without the name where the value is empty.
    pub fn with(&self, name: &str, value: &str) -> Result<Labels, OutOfMemory>
        requires { is_label_name name.now ≡ true }
        ensures { IfOk result (λ l. l ≡ with_value name.now value.now self.now) }
    {
        if value.is_empty() {
            return chosen(self, &Others { name });
        }
        Labels::of(put(&self.pairs, name, value)?)
    }
}
