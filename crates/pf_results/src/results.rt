//! The cache.

ghost use Rattle.std.specs.Prelude.{◌≡◌, ℕ, ◌+◌, ◌≤◌, ◌++◌, not, [], IfOk, IfSome, OnErr, OnOk, filter, length, take};
ghost use Rattle.lru.specs.LruCache.{lru_cache};
ghost use Rattle.pf_base.specs.Grids.{points};
ghost use Rattle.pf_base.specs.Limits.{most_steps};
ghost use Rattle.pf_extent.specs.Done.{AreWhole, steps_in};
ghost use Rattle.pf_extent.specs.Steps.{AreSpaced};
ghost use Rattle.pf_model.specs.Canonical.{canonical};
ghost use Rattle.pf_model.specs.Lists.{Each};
ghost use Rattle.pf_model.specs.Log.{Rules};
ghost use Rattle.pf_model.specs.Trees.{tree_of};
ghost use Rattle.pf_print.specs.OwnTexts.{HasText};
ghost use Rattle.pf_split.specs.Pieces.{pieces_of};
ghost use Rattle.pf_results.specs.Entries.{kept_under, put_under};
ghost use Rattle.pf_results.specs.Keeping.{KeepsOthers, extents_of, fixed_count, is_fixed, kept_list};
ghost use Rattle.pf_results.specs.Pieces.{AreEvaluated, AreOfOneQuery, IsDoneAt, fixed_over, kept_over, missing_over, served_over, touched_over};
ghost use Rattle.pf_results.specs.Runs.{CanBeAsked, lengths, runs_of};
ghost use Rattle.pf_results.specs.Serving.{is_served, served_steps, steps_of};
ghost use Rattle.pf_results.specs.Truth.{AreTrue, IsAsker, IsEvaluated, IsValue, Logs};
ghost use Rattle.pf_results.specs.Woven.{AreWoven, AreWovenIn};

use crate::frozen::{Addition, add};
use crate::serving::{Found, find};
use pf_base::{Grid, OutOfMemory};
use pf_cache::Bounded;
use pf_columns::Cells;
use pf_extent::{Asker, DoneCells, Key, List};
use pf_journal::{kept_cells, kept_steps};
use pf_model::Expr;
use pf_print::have_own_texts;
use pf_split::pieces;
use std::alloc::Global;
use std::marker::Model;

/// A list of extents under each of a bounded number of keys, the key used last first. The steps of a key's extents are at the
/// key's distance.
#[derive(Drop)]
pub struct Results {
    cache: Bounded<Key, List>,
}

impl Model for Results {
    ghost use Rattle.lru.specs.LruCache.{LruCache};
    ghost use Rattle.pf_extent.specs.Steps.{Extents};
    ghost use Rattle.pf_extent.specs.declared.key.Key.{Key};
    ghost use Rattle.pf_results.specs.Entries.{results_code};
    ghost use Rattle.pf_results.specs.Truth.{AreAllSpaced};

    ghost Value = { LruCache Key Extents };

    ghost coded = { results_code };

    ghost view = { λ r. r.cache };

    ghost invariant = { λ r. AreAllSpaced r.cache.entries };
}

impl Results {
    /// Nothing is kept yet; there is room for the lists of so many keys.
    pub fn open(alloc: Global, keys: u32) -> Result<Results, OutOfMemory>
        requires { 1 ≤ keys }
        ensures { IfOk result (λ r. r ≡ lru_cache [] keys) }
    {
        Ok(Results {
            cache: Bounded::open(alloc, keys)?,
        })
    }

    /// Adds the steps of a run by what is kept under a key.
    fn found(
        &self,
        alloc: Global,
        key: &Key,
        expr: &Expr,
        asker: &Asker,
        run: Grid,
        found: Found,
    ) -> Result<Found, OutOfMemory>
        requires query { CanBeAsked (tree_of expr.now) }
        requires some { 1 ≤ run.step }
        requires step { run.step ≡ key.now.step }
        requires whole { AreWhole found.cached.items }
        ensures cached { IfOk result (λ f. steps_of f.cached.items ≡ steps_of found.cached.items ++ served_steps (kept_under key.now self.now) (tree_of expr.now) asker.now (points run)) }
        ensures whole { IfOk result (λ f. AreWhole f.cached.items) }
        ensures runs { IfOk result (λ f. f.runs.items ≡ found.runs.items ++ runs_of run.step (λ t. not (is_served (kept_under key.now self.now) (tree_of expr.now) asker.now t)) (points run)) }
        ensures all { IfOk result (λ f. steps_in f.cached.items + lengths f.runs.items ≡ steps_in found.cached.items + lengths found.runs.items + run.len) }
        ensures woven { IfOk result (λ f. AreWovenIn run found.cached.items found.runs.items f.cached.items f.runs.items) }
    {
        match self.cache.peek(key) {
            Some(list) => find(list, expr, asker, run, found),
            None => find(&List::empty(alloc), expr, asker, run, found),
        }
    }

    /// What is kept under a key once the fixed steps of a run are added.
    fn added(
        &self,
        alloc: Global,
        key: &Key,
        expr: &Expr,
        asker: &Asker,
        run: Grid,
        cells: &Cells,
    ) -> Result<Addition, OutOfMemory>
        requires query { CanBeAsked (tree_of expr.now) }
        requires some { 1 ≤ run.step }
        requires step { run.step ≡ key.now.step }
        requires whole { length cells.now ≡ run.len }
        ensures list { IfOk result (λ a. a.list ≡ kept_list (kept_under key.now self.now) (extents_of (tree_of expr.now) asker.now run cells.now (points run))) }
        ensures steps { IfOk result (λ a. a.steps ≡ fixed_count (tree_of expr.now) asker.now run) }
        ensures few { IfOk result (λ a. a.steps ≤ run.len) }
        ensures known { IfOk result (λ a. IfSome a.list (KeepsOthers (tree_of expr.now) asker.now run cells.now (kept_under key.now self.now))) }
        ensures spaced { IfOk result (λ a. IfSome a.list (AreSpaced run.step)) }
    {
        match self.cache.peek(key) {
            Some(list) => add(alloc, list, expr, asker, run, cells),
            None => add(alloc, &List::empty(alloc), expr, asker, run, cells),
        }
    }

    /// What an asker can use of the steps of a query, piece by piece of its grid, by intervals of a length in milliseconds: the
    /// cells of the steps that serve, which are shared, and the longest runs of the others in each piece. Only the key's interval
    /// is changed, and no key is used by it.
    pub fn find_all(
        &self,
        alloc: Global,
        key: &mut Key,
        expr: &Expr,
        asker: &Asker,
        grid: &Grid,
        interval: u64,
    ) -> Result<Found, OutOfMemory>
        requires query { CanBeAsked (tree_of expr.now) }
        requires some { 1 ≤ grid.now.step }
        requires step { key.old.step ≡ grid.now.step }
        requires cut { 1000 ≤ interval }
        ensures key { AreOfOneQuery key.old key.new }
        ensures woven { IfOk result (λ f. AreWoven (pieces_of interval grid.now.step (points grid.now)) f.cached.items f.runs.items) }
        ensures whole { IfOk result (λ f. AreWhole f.cached.items) }
        ensures cached { IfOk result (λ f. steps_of f.cached.items ≡ served_over self.now key.old (tree_of expr.now) asker.now (pieces_of interval grid.now.step (points grid.now))) }
        ensures runs { IfOk result (λ f. f.runs.items ≡ missing_over self.now key.old (tree_of expr.now) asker.now (pieces_of interval grid.now.step (points grid.now))) }
        ensures all { IfOk result (λ f. steps_in f.cached.items + lengths f.runs.items ≡ grid.now.len) }

        // What is kept being true, the cells are what the query is over the asker's samples.
        ensures values { (rules : Rules) (logs : Logs) → AreTrue rules interval logs self.now.entries → IsAsker rules (logs key.old.tenant) asker.now → HasText (tree_of expr.now) → canonical (tree_of expr.now) ≡ key.old.text → IfOk result (λ f. Each (IsValue rules (logs key.old.tenant) asker.now (tree_of expr.now)) (steps_of f.cached.items)) }

        // Nor are they more than the steps that are fixed for the asker.
        ensures few { (rules : Rules) (logs : Logs) → AreTrue rules interval logs self.now.entries → IsAsker rules (logs key.old.tenant) asker.now → HasText (tree_of expr.now) → canonical (tree_of expr.now) ≡ key.old.text → IfOk result (λ f. steps_in f.cached.items ≤ length (filter (is_fixed (tree_of expr.now) asker.now) (points grid.now))) }
    {
        kept_cells();
        kept_steps();
        let mut found = Found {
            cached: Vec::new(alloc),
            runs: Vec::new(alloc),
        };
        for piece in pieces(grid, interval) {
            key.interval = piece.interval;
            found = self.found(alloc, key, expr, asker, piece.run, found)?;
        }
        Ok(found)
    }

    /// The keys of a grid's pieces are the ones used last from then on, in order. Of the key given only the interval is changed.
    /// It takes no memory.
    pub fn touch_all(&mut self, key: &mut Key, grid: &Grid, interval: u64)
        requires { 1000 ≤ interval }
        ensures used { self.new ≡ touched_over key.old (pieces_of interval grid.now.step (points grid.now)) self.old }
        ensures key { AreOfOneQuery key.old key.new }

        // What is kept being true, it stays true.
        ensures kept { (rules : Rules) (logs : Logs) → AreTrue rules interval logs self.old.entries → AreTrue rules interval logs self.new.entries }
    {
        for piece in pieces(grid, interval) {
            key.interval = piece.interval;
            self.cache.touch(key);
        }
    }

    /// Keeps a list under a key, where there is one.
    fn set(&mut self, key: &Key, list: Option<List>) -> Result<(), OutOfMemory>
        requires { IfSome list (AreSpaced key.now.step) }
        ensures ok { OnOk result (self.new ≡ put_under key.now list self.old) }
        ensures err { OnErr result (self.new ≡ self.old) }
    {
        let Some(list) = list else {
            return Ok(());
        };
        let own = key.clone()?;
        self.cache.set(own, list)
    }

    /// Keeps the fixed steps of a run of a query that was evaluated, all in a key's interval: their longest runs become extents, of
    /// the asker's pin and generation, which are combined with the key's list one by one; the list is set once. It tells how many
    /// steps it kept. A key of whose steps none is fixed isn't touched. A refused call changes nothing.
    fn keep(
        &mut self,
        alloc: Global,
        key: &Key,
        expr: &Expr,
        asker: &Asker,
        run: Grid,
        cells: &Cells,
    ) -> Result<u32, OutOfMemory>
        requires query { CanBeAsked (tree_of expr.now) }
        requires some { 1 ≤ run.step }
        requires step { run.step ≡ key.now.step }
        requires whole { length cells.now ≡ run.len }
        ensures ok { OnOk result (self.new ≡ put_under key.now (kept_list (kept_under key.now self.old) (extents_of (tree_of expr.now) asker.now run cells.now (points run))) self.old) }
        ensures count { IfOk result (λ n. n ≡ fixed_count (tree_of expr.now) asker.now run) }
        ensures few { IfOk result (λ n. n ≤ run.len) }
        ensures err { OnErr result (self.new ≡ self.old) }

        // What is kept being true, it stays true where the cells are what the query is.
        ensures kept { (rules : Rules) (interval : ℕ) (logs : Logs) → AreTrue rules interval logs self.old.entries → HasText (tree_of expr.now) → canonical (tree_of expr.now) ≡ key.now.text → IsEvaluated rules interval (logs key.now.tenant) key.now asker.now (tree_of expr.now) run cells.now → AreTrue rules interval logs self.new.entries }
    {
        have_own_texts();
        let Addition { list, steps } = self.added(alloc, key, expr, asker, run, cells)?;
        self.set(key, list)?;
        Ok(steps)
    }

    /// Keeps the fixed steps of evaluated cells, each of one interval of a length in milliseconds: their longest runs become
    /// extents, of the asker's pin and generation, which are combined with the list of the interval's key, one by one; a key's list
    /// is set once for each of the cells, and a key of whose steps none is fixed isn't touched. It tells how many steps it kept. Of
    /// the key given only the interval is changed. Where memory runs out, the first ones are kept and the others not.
    pub fn keep_all(
        &mut self,
        alloc: Global,
        key: &mut Key,
        expr: &Expr,
        asker: &Asker,
        interval: u64,
        cells: &[DoneCells],
    ) -> Result<u32, OutOfMemory>
        requires query { CanBeAsked (tree_of expr.now) }
        requires some { 1 ≤ key.old.step }
        requires cut { 1 ≤ interval }
        requires each { Each (IsDoneAt key.old.step) cells.now }
        requires few { steps_in cells.now ≤ most_steps + 1 }
        ensures key { AreOfOneQuery key.old key.new }
        ensures ok { OnOk result (self.new ≡ kept_over key.old (tree_of expr.now) asker.now interval cells.now self.old) }
        ensures err { OnErr result ((count : ℕ) × (self.new ≡ kept_over key.old (tree_of expr.now) asker.now interval (take count cells.now) self.old)) }
        ensures count { IfOk result (λ n. n ≡ fixed_over (tree_of expr.now) asker.now cells.now) }

        // What is kept being true, it stays true where the cells are what the query is.
        ensures kept { (rules : Rules) (logs : Logs) → AreTrue rules interval logs self.old.entries → HasText (tree_of expr.now) → canonical (tree_of expr.now) ≡ key.old.text → AreEvaluated rules interval logs key.old asker.now (tree_of expr.now) cells.now → AreTrue rules interval logs self.new.entries }
    {
        let mut steps = 0;
        for done in cells {
            key.interval = done.run.start() / interval;
            steps += self.keep(alloc, key, expr, asker, done.run, &done.cells)?;
        }
        Ok(steps)
    }
}
