//! Series by their ids and by the pairs of their labels.

ghost use Rattle.std.specs.Prelude.{◌≡◌, ℕ, ◌<◌, ◌^◌, ◌++◌, ◌∷◌, [], None, IfOk, List, length, slice_index_or, true, cond, ◌&&◌};
ghost use Rattle.std.specs.Str.{bytes_eq};
ghost use Rattle.std.specs.List.{All};
ghost use Rattle.pf_base.specs.LabelSets.{IsLabels};
ghost use Rattle.pf_block.specs.SeriesIds.{id_of, ids_with, has_pair};
ghost use Rattle.pf_block.specs.Snaps.{are_apart};
ghost use Rattle.pf_block.specs.Indexes.{listed, listed_by};
ghost use Rattle.pf_block.specs.LabelOrders.{ids_by_label};
ghost use Rattle.std.specs.BTreeMap.{get_by_text, values};

use pf_base::{Labels, OutOfMemory};
use std::alloc::Global;
use std::collections::BTreeMap;
use std::marker::Model;

/// For each value of a name the ids of the series that have it.
type Values = BTreeMap<String, Vec<u32>>;

/// The labels of the series by id, the id of each label set, and the ids for each pair of a name and a value.
#[derive(Drop)]
pub struct Index {
    labels: Vec<Labels>,
    ids: BTreeMap<Labels, u32>,
    names: BTreeMap<String, Values>,
}

impl Model for Index {
    ghost use Rattle.std.specs.Prelude.{List};
    ghost use Rattle.pf_base.specs.LabelSets.{Pairs};

    ghost Value = { List Pairs };

    ghost use Rattle.pf_block.specs.Indexes.{IsIndex};

    ghost view = { λ i. i.labels.items };

    ghost invariant = { λ i. IsIndex i.labels.items i.ids i.names };
}

/// A further id at the end of the list of a value.
fn note_value(alloc: Global, values: &mut Values, value: &str, id: u32) -> Result<(), OutOfMemory>
    ensures { IfOk result (λ _. (q : List ℕ) → listed_by (get_by_text values.new q) ≡ listed_by (get_by_text values.old q) ++ cond (bytes_eq value.now q) (id ∷ []) []) }
{
    if let Some(known) = values.get_mut(value) {
        known.push(id)?;
        return Ok(());
    }
    let mut ids = Vec::new(alloc);
    ids.push(id)?;
    values.insert(String::from_str(alloc, value)?, ids)?;
    Ok(())
}

/// A further id at the end of the list of a pair.
fn note(
    alloc: Global,
    names: &mut BTreeMap<String, Values>,
    name: &str,
    value: &str,
    id: u32,
) -> Result<(), OutOfMemory>
    ensures { IfOk result (λ _. (q r : List ℕ) → listed names.new q r ≡ listed names.old q r ++ cond (bytes_eq name.now q && bytes_eq value.now r) (id ∷ []) []) }
{
    if let Some(values) = names.get_mut(name) {
        note_value(alloc, values, value, id)?;
        return Ok(());
    }
    let mut values = BTreeMap::new(alloc);
    note_value(alloc, &mut values, value, id)?;
    names.insert(String::from_str(alloc, name)?, values)?;
    Ok(())
}

/// A further id at the end of the list of each pair of a label set.
fn note_all(
    alloc: Global,
    names: &mut BTreeMap<String, Values>,
    labels: &Labels,
    id: u32,
) -> Result<(), OutOfMemory>
    ensures listed { IfOk result (λ _. (q r : List ℕ) → listed names.new q r ≡ listed names.old q r ++ cond (has_pair q r labels.now) (id ∷ []) []) }
    ensures lawful { IsLabels labels.now }
{
    for i in 0..labels.count() {
        note(alloc, names, labels.name(i), labels.value(i), id)?;
    }
    Ok(())
}

/// The values of a map in the order of its keys.
fn values(alloc: Global, map: &BTreeMap<Labels, u32>) -> Result<Vec<u32>, OutOfMemory>
    ensures { IfOk result (λ v. v.items ≡ values map.now) }
{
    let mut list = Vec::with_capacity(alloc, map.len())?;
    for value in map.values() {
        list.push(*value)?;
    }
    Ok(list)
}

impl Index {
    /// No series.
    pub fn new(alloc: Global) -> Index
        ensures { result ≡ [] }
    {
        Index {
            labels: Vec::new(alloc),
            ids: BTreeMap::new(alloc),
            names: BTreeMap::new(alloc),
        }
    }

    /// With a further series at the end. Where there is no further id below 2^32, this is told as want of memory.
    pub fn with(self, labels: Labels) -> Result<Index, OutOfMemory>
        requires { id_of labels self ≡ None }
        ensures value { IfOk result (λ i. i ≡ self ++ labels ∷ []) }
        ensures apart { IfOk result (λ i. are_apart i ≡ true) }
        ensures few { IfOk result (λ i. length i < 2 ^ 32) }
    {
        let Index {
            labels: mut all,
            mut ids,
            mut names,
        } = self;
        if all.len() >= u32::MAX as usize {
            return Err(OutOfMemory);
        }
        let id = all.len() as u32;
        note_all(*all.allocator(), &mut names, &labels, id)?;
        ids.insert(labels.clone()?, id)?;
        all.push(labels)?;
        Ok(Index {
            labels: all,
            ids,
            names,
        })
    }

    /// With the series of another index at the end.
    pub fn with_all(self, others: &Index) -> Result<Index, OutOfMemory>
        requires { are_apart (self ++ others.now) ≡ true }
        ensures { IfOk result (λ i. i ≡ self ++ others.now) }
    {
        let mut index = self;
        for labels in &others.labels {
            index = index.with(labels.clone()?)?;
        }
        Ok(index)
    }

    /// A copy.
    pub fn copied(&self) -> Result<Index, OutOfMemory>
        ensures { IfOk result (λ i. i ≡ self.now) }
    {
        let _labels = &self.labels;
        let index = Index::new(*self.labels.allocator());
        let copy = index.with_all(self)?;
        Ok(copy)
    }

    /// The ids of the series in label order: the map from label sets to ids has them so.
    pub fn by_label(&self) -> Result<Vec<u32>, OutOfMemory>
        ensures { IfOk result (λ v. v.items ≡ ids_by_label self.now) }
    {
        values(*self.labels.allocator(), &self.ids)
    }

    /// The number of series, fewer than 2^32.
    pub fn count(&self) -> u32
        ensures value { result ≡ length self.now }
        ensures few { length self.now < 2 ^ 32 }
        ensures apart { are_apart self.now ≡ true }
        ensures lawful { All IsLabels self.now }
    {
        self.labels.len() as u32
    }

    /// The labels of a series.
    pub fn labels(&self, id: u32) -> &Labels
        requires { id < length self.now }
        ensures { result.now ≡ slice_index_or self.now id [] }
    {
        &self.labels[id as usize]
    }

    /// The series with these labels.
    pub fn find(&self, labels: &Labels) -> Option<u32>
        ensures { result ≡ id_of labels.now self.now }
    {
        self.ids.get(labels).copied()
    }

    /// The ids of the series that have a pair, by rising id.
    pub fn postings(&self, name: &str, value: &str) -> &[u32]
        ensures { result.now ≡ ids_with name.now value.now self.now }
    {
        let Some(values) = self.names.get(name) else {
            return &[];
        };
        match values.get(value) {
            Some(ids) => ids,
            None => &[],
        }
    }
}
