//! The errors of a run.
use h5_input::InputFault;
use html_tree_builder::serialize::SerializeFault;
use html_tree_builder::token::BuildFault;
use std::alloc::AllocError;
use std::io;

/// The error of a page.
#[derive(Debug, Drop)]
pub enum Fault {
    /// Reading it failed.
    Read(io::Error),
    /// Writing the output failed.
    Write(io::Error),
    /// An allocation failed.
    Memory,
}

impl From<AllocError> for Fault {
    fn from(_error: AllocError) -> Fault {
        Fault::Memory
    }
}

impl From<InputFault> for Fault {
    fn from(fault: InputFault) -> Fault {
        match fault {
            InputFault::Read(error) => Fault::Read(error),
            InputFault::Memory => Fault::Memory,
        }
    }
}

// A parser that hasn't failed has no other error.
impl From<BuildFault> for Fault {
    fn from(_fault: BuildFault) -> Fault {
        Fault::Memory
    }
}

// A serializer that writes to memory has no other error.
impl From<SerializeFault> for Fault {
    fn from(_fault: SerializeFault) -> Fault {
        Fault::Memory
    }
}
