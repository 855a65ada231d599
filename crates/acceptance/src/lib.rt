//! What the passes make is accepted: laws over the definitions, for any atoms that are known, any stores that are
//! dead and any new loads before loops, not only those that the passes choose.
//!
//! Read `specs/Known` and `specs/Laws`. Each pass and the validator have an analysis of their own, and meet in
//! paths and levels, in statements changed in place and in sets of locations: that a validator accepts what a pass makes is as in Pnueli, Siegel and Singerman's
//! translation validation, but here it is proved beforehand.
#![tactic(auto)]

pub mod laws;
