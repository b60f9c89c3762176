//! What is open, the last opened first.

ghost use Rattle.std.specs.Prelude.{◌≡◌, ◌∷◌, [], OnErr, OnOk, List};
ghost use Rattle.pf_parse.specs.Stacks.{Popped, PoppedTaker, takes};

use crate::mode::Frame;
use crate::words::level_of;
use pf_base::OutOfMemory;
use std::alloc::Global;
use std::marker::Model;

#[derive(Drop)]
pub struct Stack {
    frames: Vec<Frame>,
}

impl Model for Stack {
    ghost use Rattle.std.specs.Prelude.{List, reverse};
    ghost use Rattle.std.specs.Coded.{coded_list};
    ghost use Rattle.pf_parse.specs.contracts.mode.Frame as frame;
    ghost use Rattle.pf_parse.specs.declared.mode.Frame.{Frame};

    ghost Value = { List Frame };

    ghost coded = { coded_list frame.the_row.coded };

    ghost view = { λ s. reverse s.frames.items };
}

impl Stack {
    pub fn new(alloc: Global) -> Stack
        ensures { result ≡ [] }
    {
        Stack {
            frames: Vec::new(alloc),
        }
    }

    #[tactic(auto, using(crate::proofs::Tops::top))]
    pub fn push(&mut self, frame: Frame) -> Result<(), OutOfMemory>
        ensures ok { OnOk result (self.new ≡ frame ∷ self.old) }
        ensures err { OnErr result (self.new ≡ self.old) }
    {
        Ok(self.frames.push(frame)?)
    }

    #[tactic(auto, using(crate::proofs::Tops::top))]
    pub fn pop(&mut self) -> Option<Frame>
        ensures { Popped self.old self.new result }
    {
        self.frames.pop()
    }

    /// Whether the top takes the operand before it where something of this level follows.
    fn takes(&self, level: u64) -> bool
        ensures { result ≡ takes level self.now }
    {
        match self.frames.last() {
            Some(Frame::Signed { .. }) => true,
            Some(Frame::Left { op, .. }) => level_of(op.sign) <= level,
            _ => false,
        }
    }

    /// Takes the top off where it takes the operand before it.
    pub fn pop_taker(&mut self, level: u64) -> Option<Frame>
        ensures { PoppedTaker level self.old self.new result }
    {
        if self.takes(level) {
            return self.pop();
        }
        None
    }
}
