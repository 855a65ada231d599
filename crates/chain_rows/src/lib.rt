//! Rows of the facts, the passes and the validator together. That each pass's output is accepted is a clause of `optimise`,
//! proved of every program; here the validator is asked, of programs of the generator. Tables of levels, effects and
//! the two kinds of tables beside each other are called here too, since no command calls them.
#![tactic(auto)]

#[cfg(test)]
mod facts;
#[cfg(test)]
mod pairs;
#[cfg(test)]
mod tables;
#[cfg(test)]
mod tidied;
