//! Matrices and their rows.

use pf_base::{Labels, Sample};
use std::marker::Model;

/// A series of a matrix: its label set and its points by time.
#[derive(Drop)]
pub struct MatrixRow {
    pub labels: Labels,
    pub points: Vec<Sample>,
}

impl Model for MatrixRow {
    ghost use Rattle.pf_model.specs.Direct.{MatrixRow as RowData};

    ghost Value = { RowData };

    ghost view = { λ r. record { labels = r.labels; points = r.points.items } };
}

/// Rows in label order, none without points.
#[derive(Drop)]
pub struct Matrix {
    pub rows: Vec<MatrixRow>,
}

impl Model for Matrix {
    ghost use Rattle.std.specs.Prelude.{List};
    ghost use Rattle.pf_model.specs.Direct.{MatrixRow as RowData};

    ghost Value = { List RowData };

    ghost view = { λ m. m.rows.items };
}
