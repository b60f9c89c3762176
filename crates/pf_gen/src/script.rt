//! The script.

ghost use Rattle.std.specs.Prelude.{◌≡◌, ◌++◌, ◌*◌, ◌<◌, ◌≤◌, string_bytes, IfOk, OnOk};
ghost use Rattle.pf_gen.specs.Draws.{behind};
ghost use Rattle.pf_gen.specs.Sessions.{all_below, answer_line, ask_front, ask_line, drawn_lines, ingest_line, numbered_lines, query_lines, query_text, script_text, times_text};

use crate::draws::Draws;
use crate::texts::{push, push_number};
use pf_base::OutOfMemory;
use std::alloc::Global;

/// How many tenants there are, and how many queries.
pub const TENANTS: u64 = 4;

const QUERIES: u64 = 100;

fn push_ingest(out: &mut String, tenant: u64) -> Result<(), OutOfMemory>
    ensures { OnOk result (string_bytes out.new ≡ string_bytes out.old ++ ingest_line tenant) }
{
    push(out, "ingest t")?;
    push_number(out, tenant)?;
    push(out, " g")?;
    push_number(out, tenant)?;
    push(out, "\n")
}

fn query_text(query: u64) -> &'static str
    ensures { result.now ≡ query_text query }
{
    match query {
        0 => "sum(m)",
        1 => "sum by (i) (rate(m[5m]))",
        2 => "max(m) - min(m)",
        3 => "avg_over_time(m{i=\"7\"}[10m])",
        _ => "topk(3, m)",
    }
}

fn push_times(out: &mut String, start: u64) -> Result<(), OutOfMemory>
    requires { start ≤ 21540000 }
    ensures { OnOk result (string_bytes out.new ≡ string_bytes out.old ++ times_text start) }
{
    push_number(out, start)?;
    push(out, " ")?;
    push_number(out, start + 21_600_000)?;
    push(out, " 60000 ")
}

fn push_front(out: &mut String, number: u64) -> Result<(), OutOfMemory>
    ensures { OnOk result (string_bytes out.new ≡ string_bytes out.old ++ ask_front number) }
{
    push(out, "ask q")?;
    push_number(out, number)?;
    push(out, " t")?;
    push_number(out, number % TENANTS)?;
    push(out, " ")
}

fn push_ask(out: &mut String, number: u64, query: u64, start: u64) -> Result<(), OutOfMemory>
    requires { start ≤ 21540000 }
    ensures { OnOk result (string_bytes out.new ≡ string_bytes out.old ++ ask_line number query start) }
{
    push_front(out, number)?;
    push_times(out, start)?;
    push(out, query_text(query))?;
    push(out, "\n")
}

fn push_answer(out: &mut String, number: u64) -> Result<(), OutOfMemory>
    ensures { OnOk result (string_bytes out.new ≡ string_bytes out.old ++ answer_line number) }
{
    push(out, "answer q")?;
    push_number(out, number)?;
    push(out, "\n")
}

fn push_query(out: &mut String, number: u64, query: u64, start: u64) -> Result<(), OutOfMemory>
    requires { start ≤ 21540000 }
    ensures { OnOk result (string_bytes out.new ≡ string_bytes out.old ++ query_lines number query start) }
{
    push_ask(out, number, query, start)?;
    push_answer(out, number)
}

/// Appends the lines of a query by two draws.
#[tactic(auto, using(crate::proofs::Counting::behind_none, crate::proofs::Counting::behind_first, crate::proofs::Counting::behind_second))]
fn push_drawn(out: &mut String, draws: &mut Draws, number: u64) -> Result<(), OutOfMemory>
    ensures text { OnOk result (string_bytes out.new ≡ string_bytes out.old ++ drawn_lines draws.old.state number) }
    ensures state { OnOk result (draws.new.state ≡ behind 2 draws.old.state) }
{
    let query = draws.draw() % 5;
    let start = draws.draw() % 360 * 60_000;
    push_query(out, number, query, start)
}

fn push_ingests(out: &mut String) -> Result<(), OutOfMemory>
    ensures { OnOk result (string_bytes out.new ≡ string_bytes out.old ++ all_below ingest_line 4) }
{
    for tenant in 0..TENANTS {
        push_ingest(out, tenant)?;
    }
    Ok(())
}

fn push_queries(out: &mut String, draws: &mut Draws) -> Result<(), OutOfMemory>
    ensures { OnOk result (string_bytes out.new ≡ string_bytes out.old ++ all_below (numbered_lines draws.old.state) 100) }
{
    for number in 0..QUERIES {
        push_drawn(out, draws, number)?;
    }
    Ok(())
}

/// The script that takes the pages in, and asks and answers the queries.
pub fn script_of(alloc: Global, draws: &mut Draws) -> Result<String, OutOfMemory>
    ensures { IfOk result (λ s. string_bytes s ≡ script_text draws.old.state) }
{
    let mut script = String::new(alloc);
    push_ingests(&mut script)?;
    push_queries(&mut script, draws)?;
    Ok(script)
}
