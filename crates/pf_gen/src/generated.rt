//! The session of a seed.

ghost use Rattle.std.specs.Prelude.{◌≡◌, IfOk, map};
ghost use Rattle.pf_gen.specs.Draws.{behind};
ghost use Rattle.pf_gen.specs.Sessions.{name_of, page_of, pages_below, session};

use crate::draws::Draws;
use crate::pages::page_of;
use crate::script::{TENANTS, script_of};
use crate::texts::{push, push_number};
use pf_base::{OutOfMemory, Text};
use std::alloc::Global;
use std::marker::Model;

/// A generated session: its pages by name, in the order in which the script takes them in, and its script.
#[derive(Drop)]
pub struct Generated {
    pub files: Vec<(Text, Vec<u8>)>,
    pub script: Text,
}

impl Model for Generated {
    ghost use Rattle.std.specs.Prelude.{map};
    ghost use Rattle.pf_gen.specs.Sessions.{Session};

    ghost Value = { Session };

    ghost view = { λ g. record { files = map (λ f. (f.0, f.1.items)) g.files.items; script = g.script } };
}

fn name_of(alloc: Global, tenant: u64) -> Result<Text, OutOfMemory>
    ensures { IfOk result (λ t. t ≡ name_of tenant) }
{
    let mut name = String::new(alloc);
    push(&mut name, "g")?;
    push_number(&mut name, tenant)?;
    Ok(Text::take(name))
}

/// The page of a tenant, by its name.
fn page_by(alloc: Global, draws: &mut Draws, tenant: u64) -> Result<(Text, Vec<u8>), OutOfMemory>
    ensures page { IfOk result (λ p. (p.0, p.1.items) ≡ page_of draws.old.state tenant) }
    ensures state { IfOk result (λ _. draws.new.state ≡ behind 72100 draws.old.state) }
{
    let name = name_of(alloc, tenant)?;
    let page = page_of(alloc, draws)?;
    Ok((name, page.into_bytes()))
}

#[tactic(auto, using(crate::proofs::Counting::behind_group, crate::proofs::Counting::behind_none, crate::proofs::Counting::no_page, crate::proofs::Counting::one_page))]
fn pages_of(alloc: Global, draws: &mut Draws) -> Result<Vec<(Text, Vec<u8>)>, OutOfMemory>
    ensures pages { IfOk result (λ v. map (λ f. (f.0, f.1.items)) v.items ≡ pages_below draws.old.state 4) }
    ensures state { IfOk result (λ _. draws.new.state ≡ behind 288400 draws.old.state) }
{
    let mut pages = Vec::new(alloc);
    for tenant in 0..TENANTS {
        pages.push(page_by(alloc, draws, tenant)?)?;
    }
    Ok(pages)
}

/// The session of a seed: four tenants' pages of 100 series with 721 samples each, and a script that takes them in and asks and
/// answers a hundred queries of six hours. The same on every machine. This project's own.
pub fn session(alloc: Global, seed: u64) -> Result<Generated, OutOfMemory>
    ensures { IfOk result (λ g. g ≡ session seed) }
{
    let mut draws = Draws { state: seed };
    let files = pages_of(alloc, &mut draws)?;
    let script = script_of(alloc, &mut draws)?;
    Ok(Generated {
        files,
        script: Text::take(script),
    })
}
