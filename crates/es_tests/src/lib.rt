//! Tests of the reserved words, which stand apart so that the lexer is proved only once. The program `es_run` shows the
//! tokens.
#![tactic(auto)]

#[cfg(test)]
mod word_tests;
