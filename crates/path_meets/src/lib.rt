//! Meets over all paths, for facts of any finite chain and any monotone step: before a site, after a
//! site, at a function's end and at its beginning.
//!
//! The meet over all paths is Kildall's ("A unified approach to global program optimization", POPL
//! 1973), for steps that are monotone (Kam and Ullman, "Monotone data flow analysis frameworks", 1977).
//! They iterate; here a loop is the lowest of as many turns as the chain is high, since in such a chain
//! one more turn goes no lower. What a walk finds for a joint fact, such as the levels of all pairs, is
//! said key by key. Read `specs/Chain` and `specs/Laws`; `specs/Walks` is for bodies and proofs.
#![tactic(auto)]

pub mod laws;
