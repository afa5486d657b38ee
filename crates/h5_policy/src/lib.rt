//! Policies of the sanitizer as TOML: the keys that a policy file has, and what each sets in an `AllowList`.
//!
//! `policy` reads a policy key by key, `checks` compares the keys with each other, `named` has the policies with a name, and `fault` has what
//! can be wrong with a policy, and its line. The crate is based on `html_tree_builder`, whose `clean` has the policies. No contract says which
//! keys there are: that is tested. Begin with `src/policy.rt`.
#![tactic(auto)]

mod checks;
mod fault;
mod named;
mod policy;

pub use fault::PolicyFault;
pub use policy::{policy_named, policy_of};
