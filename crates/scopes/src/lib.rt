//! Scopes of nodes: which nodes die with a scope.
#![tactic(auto)]

mod member;
mod scopes;

pub use scopes::Scopes;
