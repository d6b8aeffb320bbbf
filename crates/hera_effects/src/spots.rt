//! What is known at an address, and where an instruction goes on.

/// What is known of a machine at an address: the numbers of its operands and of its open walks, and its layers.
#[derive(Clone, Copy, PartialEq, Eq)]
pub struct Spot {
    pub operands: u32,
    pub walks: u32,
    pub layers: u32,
}

/// Where an instruction goes on: to two addresses at most, and what is known there. None where nothing will do.
#[derive(Clone, Copy)]
pub struct Ways {
    pub first: Option<u32>,
    pub second: Option<u32>,
    pub point: Option<Spot>,
}
