//! What a call has beside its vector.

use pf_base::{Labels, Text, Value};
use pf_match::Pattern;
use std::marker::Model;
use std::sync::Arc;

/// What a call of an instant function has beside its vector, in the order of its arguments.
#[derive(Drop)]
pub struct Args {
    /// The evaluation's time in milliseconds.
    pub time: i64,
    /// The scalars. One may have no value.
    pub scalars: Vec<Option<Value>>,
    /// The texts: those of `label_replace` are the target, the replacement, the source and the pattern, those of
    /// `label_join` the target, the separator and the sources.
    pub texts: Vec<Text>,
    /// The pattern of `label_replace`, read from its fourth text.
    pub pattern: Option<Arc<Pattern>>,
    /// The labels that `absent` gives.
    pub absent: Labels,
}

impl Model for Args {
    ghost use Rattle.std.specs.Prelude.{option_map};
    ghost use Rattle.std.specs.Arc.{arc_value};
    ghost use Rattle.pf_math.specs.Arguments.{ArgsData};

    ghost Value = { ArgsData };

    ghost view = { λ a. record { time = a.time; scalars = a.scalars.items; texts = a.texts.items; pattern = option_map arc_value a.pattern; absent = a.absent } };
}
