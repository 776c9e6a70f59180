//! Tests of the crates below the graph: worked cases from outside, and calls that want much memory. What their clauses say
//! whole, and what runs of graphs and of scripts show, isn't tried here. They stand apart from those crates, which the
//! gate would prove again for them.
#![tactic(auto)]

#[cfg(test)]
mod arena;
#[cfg(test)]
mod builder;
#[cfg(test)]
mod expert_lists;
#[cfg(test)]
mod last_calls;
#[cfg(test)]
mod links;
#[cfg(test)]
mod needed_graph;
#[cfg(test)]
mod nested_scopes;
#[cfg(test)]
mod observing;
#[cfg(test)]
mod point_maps;
#[cfg(test)]
mod rows_of_lists;
#[cfg(test)]
mod streams;
#[cfg(test)]
mod timing;
#[cfg(test)]
mod values;
#[cfg(test)]
mod worked;
