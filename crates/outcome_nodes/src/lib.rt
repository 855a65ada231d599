//! All outcomes of a program within a budget of steps: nodes, each of which stands for all states of runs that differ in
//! the numbers of their timestamps alone, and the moves between them.
//!
//! A list of nodes that has the first one, and with each node those that its moves lead to, shows the outcome of each
//! run that is complete for the budget, whatever its timestamps and its order; and where moves lead to each of its
//! nodes, it shows no other. An outcome is an ending, what each thread has printed, and where the run is done the last
//! value of each location.
//!
//! It is the stateless search of a weak memory model as herd7 (Alglave, Maranget, Tautschnig, "Herding Cats", TOPLAS 2014)
//! and GenMC (Kokologiannakis, Vafeiadis, CAV 2021) make it, over states in place of execution graphs. There is no code
//! here but laws. Read `specs/Nodes.antt` first, then `specs/Outcome.antt`, whose last definition is the law, and
//! `specs/Laws.antt` and `Reached.antt`, its halves. `specs/Standing.antt` has the node of a run.
#![tactic(auto)]

pub mod laws;
