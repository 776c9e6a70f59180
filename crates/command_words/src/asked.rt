//! What the words of the command line may ask for.

/// What the words of the command line ask for.
#[derive(Clone, Copy, PartialEq, Eq)]
pub enum Asked {
    /// A run of the source's script.
    Run,

    /// The summary of a generated script: of how many steps, and from which seed.
    Generate { steps: u64, seed: u64 },

    /// Nothing that the program does.
    Nothing,
}
