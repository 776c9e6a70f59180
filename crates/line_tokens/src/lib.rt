//! The tokens of lines: from bytes to words, numbers, times, texts and signs, and how deep these are nested.
#![tactic(auto)]

mod level;
mod lexer;
mod token;

pub use level::is_too_deep;
pub use lexer::tokens;
pub use token::{Content, Sign, TimeUnit, Token};
