// The readers of date expressions: `DateExpr` of ast.rs.
#![tactic(auto)]

pub mod expr;
