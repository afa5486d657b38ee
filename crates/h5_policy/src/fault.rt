//! What can be wrong with a policy.
use std::alloc::AllocError;
use std::fmt;

/// Why a text isn't a policy.
#[derive(Debug, Drop)]
pub enum PolicyFault {
    /// It isn't TOML. The number is the line, from 1.
    Toml(usize, toml::de::Error),
    /// It is TOML, but not a policy, for this reason.
    Wrong(String),
    /// It isn't a policy, for this reason. The number is the first line, from 1, that has what is wrong.
    WrongAt(usize, String),
    /// An allocation failed.
    Memory,
}

impl From<AllocError> for PolicyFault {
    fn from(_error: AllocError) -> PolicyFault {
        PolicyFault::Memory
    }
}

impl fmt::Display for PolicyFault {
    fn fmt<W: fmt::Write>(&self, f: &mut fmt::Formatter<W>) -> fmt::Result {
        match self {
            PolicyFault::Toml(line, error) => {
                let reason = error.message();
                write!(f, "line {line}: {reason}")
            }
            PolicyFault::WrongAt(line, reason) => write!(f, "line {line}: {reason}"),
            PolicyFault::Wrong(reason) => write!(f, "{reason}"),
            PolicyFault::Memory => write!(f, "out of memory"),
        }
    }
}
