//! What can go wrong.
use html_tree_builder::token::BuildFault;
use std::alloc::AllocError;
use std::io;

/// Why a page couldn't be read.
#[derive(Debug, Drop)]
pub enum InputFault {
    /// The input couldn't be read.
    Read(io::Error),
    /// An allocation failed.
    Memory,
}

impl From<AllocError> for InputFault {
    fn from(_error: AllocError) -> InputFault {
        InputFault::Memory
    }
}

// A parser that hasn't failed and hasn't seen the end fails with nothing else.
impl From<BuildFault> for InputFault {
    fn from(_fault: BuildFault) -> InputFault {
        InputFault::Memory
    }
}
