//! Pages of samples.

ghost use Rattle.std.specs.Prelude.{◌≡◌, ◌++◌, ◌*◌, ◌≤◌, ◌<◌, string_bytes, IfOk, OnOk};
ghost use Rattle.pf_gen.specs.Draws.{behind};
ghost use Rattle.pf_gen.specs.Sessions.{page_text, sample_line, series_text};

use crate::draws::Draws;
use crate::texts::{push, push_number};
use pf_base::OutOfMemory;
use std::alloc::Global;

/// How many series a page has, and how many samples each of them.
const SERIES: u64 = 100;

const MINUTES: u64 = 721;

fn push_sample(out: &mut String, series: u64, value: u64, minute: u64) -> Result<(), OutOfMemory>
    requires { minute ≤ 720 }
    ensures { OnOk result (string_bytes out.new ≡ string_bytes out.old ++ sample_line series value minute) }
{
    push(out, "m{i=\"")?;
    push_number(out, series)?;
    push(out, "\"} ")?;
    push_number(out, value)?;
    push(out, " ")?;
    push_number(out, minute * 60_000)?;
    push(out, "\n")
}

/// Appends the samples of a series.
fn push_series(out: &mut String, draws: &mut Draws, series: u64) -> Result<(), OutOfMemory>
    ensures text { OnOk result (string_bytes out.new ≡ string_bytes out.old ++ series_text draws.old.state series) }
    ensures state { OnOk result (draws.new.state ≡ behind 721 draws.old.state) }
{
    for minute in 0..MINUTES {
        let value = draws.draw() % 1000;
        push_sample(out, series, value, minute)?;
    }
    Ok(())
}

/// The page of a tenant.
#[tactic(auto, using(crate::proofs::Counting::behind_group, crate::proofs::Counting::behind_none, crate::proofs::Counting::no_text, crate::proofs::Counting::one_more))]
pub fn page_of(alloc: Global, draws: &mut Draws) -> Result<String, OutOfMemory>
    ensures text { IfOk result (λ s. string_bytes s ≡ page_text draws.old.state) }
    ensures state { IfOk result (λ _. draws.new.state ≡ behind 72100 draws.old.state) }
{
    let mut page = String::new(alloc);
    for series in 0..SERIES {
        push_series(&mut page, draws, series)?;
    }
    Ok(page)
}
