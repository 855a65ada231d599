//! What grows while loads are put in.
use il_syntax::Names;

/// A load that is put before a loop: its new register and its location.
#[derive(Clone, Copy)]
pub struct Extra {
    pub r: u32,
    pub x: u32,
}

/// The function so far: the names of its registers, and how many statements it has.
#[derive(Drop)]
pub struct Growth {
    pub registers: Names,
    pub statements: u32,
}

/// The function so far, and a number below which the name of each new register is taken.
#[derive(Drop)]
pub struct Growing {
    pub growth: Growth,
    pub from: u64,
}
