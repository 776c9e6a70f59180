//! A script and the graph that is kept of it. Nothing here runs.
#![tactic(auto)]
