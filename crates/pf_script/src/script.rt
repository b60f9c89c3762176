//! What is read of a script.

ghost use Rattle.std.specs.Prelude.{◌≡◌};
ghost use Rattle.std.specs.List.{list_any};
ghost use Rattle.pf_journal.specs.Scripts.{is_step, is_stepped};
ghost use Rattle.pf_script.specs.Lines.{line_of, lines_of};

use pf_base::{Tenant, Text};

/// A line of a script. Times are in milliseconds. A line that names an ID has the number of the line that asked under it,
/// `asked`, beside the ID.
#[derive(Drop)]
pub enum Line {
    /// Take in a file for a tenant; samples without a time have this one.
    Ingest {
        tenant: Tenant,
        file: Text,
        time: u64,
    },
    /// Delete a tenant's samples that a selector accepts. `selector` is its text as it stands in the script, not read and not
    /// empty, without the blanks at its end.
    Delete {
        tenant: Tenant,
        from: u64,
        to: u64,
        selector: Text,
    },
    /// Ask a query of a tenant. `query` is its text as it stands in the script, not read and not empty, without the blanks at
    /// its end.
    Ask {
        id: Text,
        tenant: Tenant,
        start: u64,
        end: u64,
        step: u64,
        query: Text,
    },
    /// Ask an instant query of a tenant.
    Instant {
        id: Text,
        tenant: Tenant,
        time: u64,
        query: Text,
    },
    /// Cancel what was asked under this ID, for a tenant.
    Cancel {
        id: Text,
        asked: u32,
        tenant: Tenant,
    },
    /// Answer what was asked under this ID.
    Answer {
        id: Text,
        asked: u32,
    },
    /// Plan the jobs of what was asked under this ID: a step line.
    Plan {
        id: Text,
        asked: u32,
    },
    /// Keep what was evaluated of what was asked under this ID: a step line.
    Keep {
        id: Text,
        asked: u32,
    },
    /// Let a worker, from 0 to 15, take a job: a step line.
    Take {
        worker: u32,
    },
    /// Let a worker be done with its job: a step line.
    Done {
        worker: u32,
    },
}

/// A line with its number in the script, from 1. Empty lines and comments count.
#[derive(Drop)]
pub struct NumberedLine {
    pub number: u32,
    pub line: Line,
}

/// The lines of a script in order, without empty lines and comments.
#[derive(Drop)]
pub struct Script {
    pub lines: Vec<NumberedLine>,
}

fn is_step(line: &Line) -> bool
    ensures { result ≡ is_step (line_of line.now) }
{
    matches!(
        line,
        Line::Plan { .. } | Line::Keep { .. } | Line::Take { .. } | Line::Done { .. }
    )
}

fn any_is_step(lines: &[NumberedLine]) -> bool
    ensures { result ≡ list_any (λ l. is_step (line_of l.line)) lines.now }
{
    lines.iter().any(|line| is_step(&line.line))
}

impl Script {
    /// Whether a line is a step line.
    #[tactic(auto, using(crate::proofs::StepLines::stepped_is))]
    pub fn is_stepped(&self) -> bool
        ensures { result ≡ is_stepped (lines_of self.now) }
    {
        any_is_step(&self.lines)
    }
}
