// The bus script: a text in pieces to its answers.
#![tactic(auto)]

pub mod text;
