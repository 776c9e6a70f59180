//! Tests of whole runs: worked scripts with their transcripts and with what each stabilize calls and builds, generated
//! scripts with their summaries, and runs that are cut off. They stand apart from the programs, which the gate would prove a second time for them.
#![tactic(auto)]

#[cfg(test)]
mod driver;
#[cfg(test)]
mod generated;
#[cfg(test)]
mod lists;
#[cfg(test)]
mod rows;
#[cfg(test)]
mod tests;
