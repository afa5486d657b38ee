//! Errors, their messages, and the exit status.
ghost use Rattle.std.specs.Prelude.{◌≡◌, IfOk, string_bytes};
ghost use Rattle.std.specs.IoError.{error_kind};
ghost use Rattle.h5_commands.specs.Faults.{IsBadLine, IsReadFault, message_of, read_fault, status_of, words_fault};

use std::alloc::{AllocError, AllocFailed, Global};
use std::io;

/// An error of a command.
#[derive(Debug, Drop, PartialEq, Eq)]
pub enum Fault {
    /// The arguments aren't a command.
    Usage,
    /// The input can't be read.
    Unreadable,
    /// The input is not UTF-8.
    NotUtf8,
    /// A line of the input is bad; with the message.
    BadLine(String),
    /// The output can't be written.
    Unwritable,
    /// An allocation failed.
    Memory,
}

impl Fault {
    /// The message on standard error.
    pub fn message(&self) -> &str
        ensures { result.now ≡ message_of self.now }
    {
        match self {
            Fault::Usage => "h5: usage: h5 tokens | h5 tree [context] | h5 html\n",
            Fault::Unreadable => "h5: cannot read\n",
            Fault::NotUtf8 => "h5: input is not UTF-8\n",
            Fault::BadLine(message) => message.as_str(),
            Fault::Unwritable => "h5: cannot write\n",
            Fault::Memory => "h5: out of memory\n",
        }
    }

    /// The exit status: 2 for bad arguments or a bad line, else 1.
    pub fn status(&self) -> u8
        ensures { result ≡ status_of self.now }
    {
        match self {
            Fault::Usage => 2,
            Fault::BadLine(_) => 2,
            Fault::Unreadable => 1,
            Fault::NotUtf8 => 1,
            Fault::Unwritable => 1,
            Fault::Memory => 1,
        }
    }
}

impl From<AllocError> for Fault {
    ghost use Rattle.h5_commands.specs.declared.fault.Fault.TheVariants.{Memory};

    ghost from_gives = { λ _ fault. fault ≡ Memory };

    fn from(_error: AllocError) -> Fault {
        Fault::Memory
    }
}

impl<T: Drop> From<AllocFailed<T>> for Fault {
    ghost use Rattle.h5_commands.specs.declared.fault.Fault.TheVariants.{Memory};

    ghost from_gives = { λ _ fault. fault ≡ Memory };

    fn from(_error: AllocFailed<T>) -> Fault {
        Fault::Memory
    }
}

/// The error of the bad line with this number.
pub fn bad_line(alloc: Global, line: u64) -> Result<Fault, AllocError>
    ensures { IfOk result (IsBadLine line) }
{
    Ok(Fault::BadLine(format!(in alloc; "h5: bad line {line}\n")?))
}

/// The error of a failed read: `Memory` exactly if the error's kind is `OutOfMemory`, and else `Unreadable`.
pub fn fault_of_read(error: &io::Error) -> Fault
    ensures which { result ≡ read_fault (error_kind error.now) }
    ensures reads { IsReadFault result }
{
    match error.kind() {
        io::ErrorKind::OutOfMemory => Fault::Memory,
        _ => Fault::Unreadable,
    }
}

/// The error of arguments that can't be read: `Memory` exactly if the error's kind is `OutOfMemory`, and else `Usage`, since arguments that
/// aren't text aren't a command.
pub fn fault_of_words(error: &io::Error) -> Fault
    ensures { result ≡ words_fault (error_kind error.now) }
{
    match error.kind() {
        io::ErrorKind::OutOfMemory => Fault::Memory,
        _ => Fault::Usage,
    }
}
