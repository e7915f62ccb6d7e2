//! The members that are written of each line.
ghost use Rattle.std.specs.Prelude.{◌<◌, length};
ghost use Rattle.filter.specs.Line.{BecomesBy};

use crate::line::line_of;
use crate::pointers::Member;
use json_lines::{Convert, Outcome};
use std::alloc::{AllocError, Global};

/// The members that are written of each line.
#[derive(Drop)]
pub struct Filter {
    /// At least one.
    pub members: Vec<Member>,
    ghost some: { 0 < length members.items },
}

impl Convert for Filter {
    ghost becomes = { λ filter. BecomesBy filter.members.items };

    fn convert(&self, alloc: Global, line: &[u8]) -> Result<Outcome, AllocError> {
        line_of(alloc, self.members.as_slice(), line)
    }
}
