//! The JSON of vectors and scalars.

ghost use Rattle.std.specs.Prelude.{◌≡◌, ◌++◌, ◌∷◌, codes, OnOk, take, vec_len};
ghost use Rattle.pf_model.specs.Json.{point_text};
ghost use Rattle.pf_model.specs.Lists.{comma_before, comma_joined};
ghost use Rattle.pf_journal.specs.Bodies.{element_text, scalar_points, scalar_text, vector_text};

use crate::json_text::{push_metric, push_points};
use pf_base::{Labels, OutOfMemory, Sample};
use pf_matrix::MatrixRow;
use std::alloc::Global;

/// Appends the member of the one value of an element, and a brace.
fn push_one_value(out: &mut Vec<u8>, points: &[Sample]) -> Result<(), OutOfMemory>
    ensures ok { OnOk result (out.new.items
        ≡ out.old.items ++ (codes ",\"value\":" ++ (comma_joined point_text points.now ++ codes "}"))) }
    ensures kept { take (vec_len out.old) out.new.items ≡ out.old.items }
{
    out.extend_from_slice(b",\"value\":")?;
    push_points(out, points)?;
    out.push(b'}')?;
    Ok(())
}

fn push_labelled(
    alloc: Global,
    out: &mut Vec<u8>,
    labels: &Labels,
    points: &[Sample],
) -> Result<(), OutOfMemory>
    ensures ok { OnOk result (out.new.items
        ≡ out.old.items ++ element_text (record { labels = labels.now; points = points.now })) }
    ensures kept { take (vec_len out.old) out.new.items ≡ out.old.items }
{
    push_metric(alloc, out, labels)?;
    push_one_value(out, points)
}

fn push_element(alloc: Global, out: &mut Vec<u8>, row: &MatrixRow) -> Result<(), OutOfMemory>
    ensures ok { OnOk result (out.new.items ≡ out.old.items ++ element_text row.now) }
    ensures kept { take (vec_len out.old) out.new.items ≡ out.old.items }
{
    push_labelled(alloc, out, &row.labels, &row.points)
}

fn push_next_element(alloc: Global, out: &mut Vec<u8>, row: &MatrixRow) -> Result<(), OutOfMemory>
    ensures ok { OnOk result (out.new.items ≡ out.old.items ++ 44 ∷ element_text row.now) }
    ensures kept { take (vec_len out.old) out.new.items ≡ out.old.items }
{
    out.push(b',')?;
    push_element(alloc, out, row)
}

/// Appends elements, each behind a comma.
fn push_more_elements(
    alloc: Global,
    out: &mut Vec<u8>,
    rows: &[MatrixRow],
) -> Result<(), OutOfMemory>
    ensures ok { OnOk result (out.new.items ≡ out.old.items ++ comma_before element_text rows.now) }
    ensures kept { take (vec_len out.old) out.new.items ≡ out.old.items }
{
    for row in rows {
        push_next_element(alloc, out, row)?;
    }
    Ok(())
}

fn push_elements(alloc: Global, out: &mut Vec<u8>, rows: &[MatrixRow]) -> Result<(), OutOfMemory>
    ensures ok { OnOk result (out.new.items ≡ out.old.items ++ comma_joined element_text rows.now) }
    ensures kept { take (vec_len out.old) out.new.items ≡ out.old.items }
{
    let Some((first, others)) = rows.split_first() else {
        return Ok(());
    };
    push_element(alloc, out, first)?;
    push_more_elements(alloc, out, others)
}

/// Appends the body of a vector: its elements are rows with one point.
pub fn push_vector(alloc: Global, out: &mut Vec<u8>, rows: &[MatrixRow]) -> Result<(), OutOfMemory>
    ensures ok { OnOk result (out.new.items ≡ out.old.items ++ vector_text rows.now) }
    ensures kept { take (vec_len out.old) out.new.items ≡ out.old.items }
{
    out.extend_from_slice(
        b"{\"status\":\"success\",\"data\":{\"resultType\":\"vector\",\"result\":[",
    )?;
    push_elements(alloc, out, rows)?;
    out.extend_from_slice(b"]}}")?;
    Ok(())
}

/// Appends the points of the first row, and an empty list where there is none.
fn push_scalar_points(out: &mut Vec<u8>, rows: &[MatrixRow]) -> Result<(), OutOfMemory>
    ensures ok { OnOk result (out.new.items ≡ out.old.items ++ scalar_points rows.now) }
    ensures kept { take (vec_len out.old) out.new.items ≡ out.old.items }
{
    match rows.first() {
        Some(row) => push_points(out, &row.points),
        None => {
            out.extend_from_slice(b"[]")?;
            Ok(())
        }
    }
}

/// Appends the body of a scalar: its row has one point, and there is none without a value.
pub fn push_scalar(out: &mut Vec<u8>, rows: &[MatrixRow]) -> Result<(), OutOfMemory>
    ensures ok { OnOk result (out.new.items ≡ out.old.items ++ scalar_text rows.now) }
    ensures kept { take (vec_len out.old) out.new.items ≡ out.old.items }
{
    out.extend_from_slice(
        b"{\"status\":\"success\",\"data\":{\"resultType\":\"scalar\",\"result\":",
    )?;
    push_scalar_points(out, rows)?;
    out.extend_from_slice(b"}}")?;
    Ok(())
}
