//! The JSON of a matrix.

ghost use Rattle.std.specs.Prelude.{◌≡◌, ◌++◌, ◌∷◌, codes, decimal, IfOk, OnOk, take, vec_len};
ghost use Rattle.pf_model.specs.Json.{labels_text, matrix_text, point_text, row_text};
ghost use Rattle.pf_model.specs.Lists.{comma_before, comma_joined};

use crate::heads::{Head, heads_of};
use crate::points::push_points_by;
use itoa::Buffer;
use json::Writer;
use pf_base::{Labels, OutOfMemory, Sample};
use pf_matrix::MatrixRow;
use std::alloc::Global;

/// Appends a number's decimal digits.
pub fn push_number(out: &mut Vec<u8>, number: u64) -> Result<(), OutOfMemory>
    ensures ok { OnOk result (out.new.items ≡ out.old.items ++ decimal number) }
    ensures kept { take (vec_len out.old) out.new.items ≡ out.old.items }
{
    let mut buffer = Buffer::new();
    out.extend_from_slice(buffer.format(number).as_bytes())?;
    Ok(())
}

pub fn push_points(out: &mut Vec<u8>, points: &[Sample]) -> Result<(), OutOfMemory>
    ensures ok { OnOk result (out.new.items ≡ out.old.items ++ comma_joined point_text points.now) }
    ensures kept { take (vec_len out.old) out.new.items ≡ out.old.items }
{
    push_points_by(&[], out, points)
}

/// The room that a label set as an object is given at first.
const OBJECT: usize = 128;

/// A label set as an object.
fn labels_json(alloc: Global, labels: &Labels) -> Result<Vec<u8>, OutOfMemory>
    ensures { IfOk result (λ t. t.items ≡ labels_text labels.now) }
{
    let mut writer = Writer::new(Vec::with_capacity(alloc, OBJECT)?);
    writer.begin_object()?;
    for i in 0..labels.count() {
        writer.key(labels.name(i))?;
        writer.string(labels.value(i))?;
    }
    writer.end_object()?;
    Ok(writer.into_inner())
}

fn push_labels(alloc: Global, out: &mut Vec<u8>, labels: &Labels) -> Result<(), OutOfMemory>
    ensures ok { OnOk result (out.new.items ≡ out.old.items ++ labels_text labels.now) }
    ensures kept { take (vec_len out.old) out.new.items ≡ out.old.items }
{
    let object = labels_json(alloc, labels)?;
    out.extend_from_slice(&object)?;
    Ok(())
}

pub fn push_metric(alloc: Global, out: &mut Vec<u8>, labels: &Labels) -> Result<(), OutOfMemory>
    ensures ok { OnOk result (out.new.items
        ≡ out.old.items ++ (codes "{\"metric\":" ++ labels_text labels.now)) }
    ensures kept { take (vec_len out.old) out.new.items ≡ out.old.items }
{
    out.extend_from_slice(b"{\"metric\":")?;
    push_labels(alloc, out, labels)
}

fn push_values(heads: &[Head], out: &mut Vec<u8>, points: &[Sample]) -> Result<(), OutOfMemory>
    ensures ok { OnOk result (out.new.items
        ≡ out.old.items ++ (codes ",\"values\":[" ++ (comma_joined point_text points.now ++ codes "]}"))) }
    ensures kept { take (vec_len out.old) out.new.items ≡ out.old.items }
{
    out.extend_from_slice(b",\"values\":[")?;
    push_points_by(heads, out, points)?;
    out.extend_from_slice(b"]}")?;
    Ok(())
}

fn push_series(
    alloc: Global,
    heads: &[Head],
    out: &mut Vec<u8>,
    labels: &Labels,
    points: &[Sample],
) -> Result<(), OutOfMemory>
    ensures ok { OnOk result (out.new.items
        ≡ out.old.items ++ row_text (record { labels = labels.now; points = points.now })) }
    ensures kept { take (vec_len out.old) out.new.items ≡ out.old.items }
{
    push_metric(alloc, out, labels)?;
    push_values(heads, out, points)
}

fn push_row(
    alloc: Global,
    heads: &[Head],
    out: &mut Vec<u8>,
    row: &MatrixRow,
) -> Result<(), OutOfMemory>
    ensures ok { OnOk result (out.new.items ≡ out.old.items ++ row_text row.now) }
    ensures kept { take (vec_len out.old) out.new.items ≡ out.old.items }
{
    push_series(alloc, heads, out, &row.labels, &row.points)
}

fn push_next_row(
    alloc: Global,
    heads: &[Head],
    out: &mut Vec<u8>,
    row: &MatrixRow,
) -> Result<(), OutOfMemory>
    ensures ok { OnOk result (out.new.items ≡ out.old.items ++ 44 ∷ row_text row.now) }
    ensures kept { take (vec_len out.old) out.new.items ≡ out.old.items }
{
    out.push(b',')?;
    push_row(alloc, heads, out, row)
}

/// Appends rows, each behind a comma.
fn push_more_rows(
    alloc: Global,
    heads: &[Head],
    out: &mut Vec<u8>,
    rows: &[MatrixRow],
) -> Result<(), OutOfMemory>
    ensures ok { OnOk result (out.new.items ≡ out.old.items ++ comma_before row_text rows.now) }
    ensures kept { take (vec_len out.old) out.new.items ≡ out.old.items }
{
    for row in rows {
        push_next_row(alloc, heads, out, row)?;
    }
    Ok(())
}

/// The most points of a row.
fn longest(rows: &[MatrixRow]) -> usize {
    let mut most = 0;
    for row in rows {
        most = row.points.len().max(most);
    }
    most
}

/// The heads that rows share: those of the first row of the greatest length, and none where there is one row.
fn shared_heads(alloc: Global, rows: &[MatrixRow]) -> Result<Vec<Head>, OutOfMemory> {
    let most = longest(rows);
    for row in rows {
        if rows.len() > 1 && row.points.len() == most {
            return heads_of(alloc, &row.points);
        }
    }
    Ok(Vec::new(alloc))
}

fn push_rows(alloc: Global, out: &mut Vec<u8>, rows: &[MatrixRow]) -> Result<(), OutOfMemory>
    ensures ok { OnOk result (out.new.items ≡ out.old.items ++ comma_joined row_text rows.now) }
    ensures kept { take (vec_len out.old) out.new.items ≡ out.old.items }
{
    let Some((first, others)) = rows.split_first() else {
        return Ok(());
    };
    let heads = shared_heads(alloc, rows)?;
    push_row(alloc, &heads, out, first)?;
    push_more_rows(alloc, &heads, out, others)
}

/// Appends the body of a successful answer with these rows.
pub fn push_matrix(alloc: Global, out: &mut Vec<u8>, rows: &[MatrixRow]) -> Result<(), OutOfMemory>
    ensures ok { OnOk result (out.new.items ≡ out.old.items ++ matrix_text rows.now) }
    ensures kept { take (vec_len out.old) out.new.items ≡ out.old.items }
{
    out.extend_from_slice(
        b"{\"status\":\"success\",\"data\":{\"resultType\":\"matrix\",\"result\":[",
    )?;
    push_rows(alloc, out, rows)?;
    out.extend_from_slice(b"]}}")?;
    Ok(())
}
