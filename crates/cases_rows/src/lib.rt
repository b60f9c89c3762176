//! What all rows of cases share: the text that is found, the escapes of case files and the parts that stand above rows; and the
//! rows of the lowest crates.
#![tactic(auto)]

pub mod base;
pub mod escapes;
pub mod output;
pub mod outside;
pub mod setting;
