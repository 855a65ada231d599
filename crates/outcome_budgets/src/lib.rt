//! What the outcomes of a program within one budget of steps say of those within a greater one: where each is done, they
//! are the same.
//!
//! There is no code here but laws. Read `specs/Budgets.antt`.
#![tactic(auto)]

pub mod laws;
