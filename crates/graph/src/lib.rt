//! Incremental graphs: nodes that are made, variables that are set, observers, and one call that brings what is
//! observed up to date.
//!
//! A program makes a graph over its functions, which the graph then owns. It makes nodes and observes some. It
//! stabilizes, asks observers, sets variables, and stabilizes again. Nodes, observers and functions may be added
//! between any two stabilizes. `into_functions` gives the functions back.
//!
//! A first program needs ten calls: `new`, `constant`, `var`, `map`, `observe`, `stabilize`, `value`, `set_var`,
//! `unobserve` and `into_functions`. Further nodes are `fold`, `if_`, `join`, `bind`, `freeze`, `expert`, `at`, `now`,
//! `after`, `every` and `steps`. `round` tells what the last stabilize called, and whom it told.
//!
//! Ids are plain numbers: a node is named by its `NodeId`, an observer by its `ObsId`. They have no mark of their graph.
//!
//! A refused call leaves the graph as it was, but for a refused `stabilize`, which breaks it. Each call says when it is
//! refused, in the order in which the causes are looked for. `Broken` comes first: an earlier stabilize was refused.
//! `Memory` comes last, where a call takes memory.
//!
//! Some calls have a second form for callers who know more, as that the graph is unbroken. It requires what the first form
//! looks for, and can't be refused for it:
//!
//! | call | second form |
//! |---|---|
//! | `set_var` | `assign` |
//! | `unobserve`, `watch` | `end_observer`, `watch_observer` |
//! | `mark`, `back_to` | `current_mark`, `take_back` |
//! | `link`, `unlink`, `make_stale` | `relink`, `take_off`, `renew` |
#![tactic(auto)]

mod fault;
mod graph;

pub use fault::{GraphFault, Kept, StabilizeFault};
pub use graph::{Graph, Mark, Round};
pub use map_nodes::Cutoff;
pub use observers::{Notice, Told};
pub use stabilizer::Refused;
