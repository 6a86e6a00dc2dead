//! The words of each value that a line shows.

ghost use Rattle.report_text.specs.Lines as lines;

use crate::guards::push_numbers;
use crate::lines::Words;
use crate::replies::{
    ArcLine, FlowLine, GuardLine, MeanLine, NodeLine, PairLine, PotentialLine, SnapLine,
};
use crate::words::{push_name, push_number, push_signed, push_word, sort_word};
use std::alloc::AllocError;
use token_text::Text;

impl Words for Text {
    ghost words = { lines.name_words };

    fn push_words(&self, out: &mut Vec<u8>) -> Result<(), AllocError> {
        push_name(out, self)
    }
}

impl Words for u32 {
    ghost words = { lines.number_words };

    fn push_words(&self, out: &mut Vec<u8>) -> Result<(), AllocError> {
        push_number(out, u64::from(*self))
    }
}

impl Words for usize {
    ghost words = { lines.number_words };

    fn push_words(&self, out: &mut Vec<u8>) -> Result<(), AllocError> {
        push_number(out, *self as u64)
    }
}

impl Words for i64 {
    ghost words = { lines.signed_words };

    fn push_words(&self, out: &mut Vec<u8>) -> Result<(), AllocError> {
        push_signed(out, i128::from(*self))
    }
}

impl Words for i128 {
    ghost words = { lines.signed_words };

    fn push_words(&self, out: &mut Vec<u8>) -> Result<(), AllocError> {
        push_signed(out, *self)
    }
}

impl Words for NodeLine {
    ghost words = { lines.node_words };

    fn push_words(&self, out: &mut Vec<u8>) -> Result<(), AllocError> {
        push_number(out, u64::from(self.id))?;
        push_name(out, &self.name)
    }
}

impl Words for ArcLine {
    ghost words = { lines.arc_words };

    fn push_words(&self, out: &mut Vec<u8>) -> Result<(), AllocError> {
        push_number(out, u64::from(self.id))?;
        push_name(out, &self.name)?;
        push_name(out, &self.from)?;
        push_name(out, &self.to)
    }
}

impl Words for FlowLine {
    ghost words = { lines.flow_words };

    fn push_words(&self, out: &mut Vec<u8>) -> Result<(), AllocError> {
        push_name(out, &self.arc)?;
        push_signed(out, i128::from(self.flow))
    }
}

impl Words for PotentialLine {
    ghost words = { lines.potential_words };

    fn push_words(&self, out: &mut Vec<u8>) -> Result<(), AllocError> {
        push_name(out, &self.node)?;
        push_signed(out, i128::from(self.pi))
    }
}

impl Words for MeanLine {
    ghost words = { lines.mean_words };

    fn push_words(&self, out: &mut Vec<u8>) -> Result<(), AllocError> {
        push_name(out, &self.node)?;
        push_signed(out, self.pi)
    }
}

impl Words for PairLine {
    ghost words = { lines.pair_words };

    fn push_words(&self, out: &mut Vec<u8>) -> Result<(), AllocError> {
        push_name(out, &self.arc)?;
        push_name(out, &self.left)?;
        push_name(out, &self.right)
    }
}

impl Words for GuardLine {
    ghost words = { lines.guard_words };

    fn push_words(&self, out: &mut Vec<u8>) -> Result<(), AllocError> {
        push_name(out, &self.name)?;
        push_word(out, sort_word(self.sort))?;
        push_numbers(out, &self.numbers)
    }
}

impl Words for SnapLine {
    ghost words = { lines.snap_words };

    fn push_words(&self, out: &mut Vec<u8>) -> Result<(), AllocError> {
        match self {
            SnapLine::Valid { name, nodes, arcs } => {
                push_name(out, name)?;
                push_word(out, b"valid")?;
                push_number(out, u64::from(*nodes))?;
                push_number(out, u64::from(*arcs))
            }
            SnapLine::Stale { name } => {
                push_name(out, name)?;
                push_word(out, b"stale")
            }
        }
    }
}
