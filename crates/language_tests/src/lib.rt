//! Tests of the language that no script can show: lines that no session hands on, forms that no script may have yet, plans
//! carried out, and bodies by hand. What scripts show stands in dialogues, which the built programs answer.
#![tactic(auto)]

#[cfg(test)]
mod bodies;
#[cfg(test)]
mod clock;
#[cfg(test)]
mod elaboration;
#[cfg(test)]
mod lines;
