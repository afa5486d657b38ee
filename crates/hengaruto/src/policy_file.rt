//! A policy with a name, or in a file.
use h5_policy::{PolicyFault, policy_named, policy_of};
use html_tree_builder::clean::AllowList;
use std::fs;
use std::io::Write;

// Writes to standard error why there is no policy; whether that succeeds doesn't matter.
fn refuse(rt: &HostRuntime, name: &str, fault: &PolicyFault) {
    let _written = writeln!(rt.stderr(), "hengaruto: {name}: {fault}");
}

// The policy in the file of this name.
fn policy_in_file(rt: &HostRuntime, name: &str) -> Option<AllowList> {
    let text = match fs::read(rt, name) {
        Ok(text) => text,
        Err(error) => {
            let _written = writeln!(rt.stderr(), "hengaruto: {name}: {error}");
            return None;
        }
    };
    match policy_of(rt.alloc(), text.as_slice()) {
        Ok(policy) => Some(policy),
        Err(fault) => {
            refuse(rt, name, &fault);
            None
        }
    }
}

/// The policy of this name, or the one in the file of this name. If there is none, returns `None` and writes the reason to standard error.
pub fn policy_in(rt: &HostRuntime, name: &str) -> Option<AllowList> {
    match policy_named(rt.alloc(), name) {
        Ok(Some(policy)) => Some(policy),
        Ok(None) => policy_in_file(rt, name),
        Err(fault) => {
            refuse(rt, name, &fault);
            None
        }
    }
}
