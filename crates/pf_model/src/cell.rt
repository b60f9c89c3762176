//! What a query is at one step.

use pf_base::{Labels, Value};
use std::marker::Model;

/// An element of a vector: a label set and its value.
#[derive(Drop)]
pub struct Element {
    pub labels: Labels,
    pub value: Value,
}

/// A vector's elements in label order. A scalar is an element without labels, or none where it has no value.
#[derive(Drop)]
pub struct Cell {
    pub elements: Vec<Element>,
}

impl Model for Cell {
    ghost use Rattle.std.specs.Prelude.{List};
    ghost use Rattle.pf_model.specs.declared.cell.Element.{Element};

    ghost Value = { List Element };

    ghost view = { λ c. c.elements.items };
}

/// Why a query has no value at a step.
#[derive(Clone, Copy, Debug)]
pub enum ErrorKind {
    /// Two elements have equal labels.
    DoubleLabels,
    /// Two elements of the one side have equal keys.
    DoubleOnOneSide,
    /// Two elements of each side have equal keys.
    ManyToMany,
    /// Two pairs have equal result labels.
    GroupingNotUnique,
}

/// What a query is at one step: its elements, or an error.
#[derive(Drop)]
pub enum StepCell {
    Good(Cell),
    Bad(ErrorKind),
}
