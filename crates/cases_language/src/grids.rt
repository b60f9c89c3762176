//! Rows of grids.

use cases_rows::base::grid_of;
use cases_rows::output::Output;
use pf_types::grid_text;

/// `START END STEP => FIRST LAST STEPS`, or `TIME => FIRST LAST STEPS`; or the text of the refusal.
pub fn grid(out: &mut Output, given: &str) {
    match grid_of(out, given) {
        Ok(grid) => {
            out.show(grid.at(0));
            out.text(" ");
            out.show(grid.at(grid.len() - 1));
            out.text(" ");
            out.show(grid.len());
        }
        Err(error) => out.made(&grid_text(out.alloc(), error)),
    }
}
