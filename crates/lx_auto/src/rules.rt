//! Rules: their unfolded expressions, split into blocks, and the data to follow their positions.

pub(crate) mod block;
pub(crate) mod block_steps;
pub(crate) mod blocks;
pub(crate) mod chunk;
pub(crate) mod chunking;
pub(crate) mod rule_numbers;
pub(crate) mod rule_part;
pub(crate) mod rule_steps;
pub(crate) mod rule_unfolding;
