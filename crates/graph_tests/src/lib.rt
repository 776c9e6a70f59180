//! Tests of graphs: what is done to a graph in order, and what it answers. They stand apart from `graph`, which the gate
//! would prove a second time for them.
#![tactic(auto)]

#[cfg(test)]
mod bind_tables;
#[cfg(test)]
mod binding;
#[cfg(test)]
mod bodies;
#[cfg(test)]
mod boxed;
#[cfg(test)]
mod handing;
#[cfg(test)]
mod listing;
#[cfg(test)]
mod tables;
#[cfg(test)]
mod tests;
#[cfg(test)]
mod timing;
