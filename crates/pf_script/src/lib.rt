//! Scripts: the lines that a client runs.
//!
//! What the layers above use: `read_script` reads a whole script into its numbered lines, exactly where all its lines are of
//! a form, and else tells the first that is not. A line that cancels, answers, plans or keeps names an ask above it, and none
//! that answers, plans or keeps stands behind the answer. `number_of` reads a number as lines have them.
#![tactic(auto)]

mod fault;
mod ids;
mod lines;
mod read;
mod script;
mod words;

pub use fault::ScriptError;
pub use read::read_script;
pub use script::{Line, NumberedLine, Script};
pub use words::number_of;
