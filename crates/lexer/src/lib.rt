// The lexer: a phrase, as bytes, cut into lexemes.

#![tactic(auto)]

mod class;
pub mod find;
pub mod lex;
pub mod lexeme;
pub mod part;
pub mod reading;
mod run;
mod table;
mod word;
mod words;
