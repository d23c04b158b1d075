// The routing table: how calls are lent it, their answers, and the tests that every call makes first. specs/ says what a table is and what each call does
// to it.
#![tactic(auto)]

pub mod ready;

use refusal::Refusal;

/// A table that a call only reads: what each row costs, its way, and its waiting bits.
#[derive(Clone, Copy, Debug, PartialEq, Eq, Drop)]
pub struct Table<'a> {
    pub cost: &'a [u32],
    pub way: &'a [u16],
    pub waiting: &'a [u32],
}

/// A table that a call writes.
#[derive(Drop)]
pub struct TableMut<'a> {
    pub cost: &'a mut [u32],
    pub way: &'a mut [u16],
    pub waiting: &'a mut [u32],
}

/// A message: from whom to whom, about which destination and which stack's number.
#[derive(Clone, Copy, Debug, PartialEq, Eq, Drop)]
pub struct Message {
    pub sender: usize,
    pub receiver: usize,
    pub destination: usize,
    pub number: usize,
}

/// Deliveries done, the offers that rows took, and what ended the run, if it was refused.
#[derive(Clone, Copy, Debug, PartialEq, Eq, Drop)]
pub struct Ran<E = Refusal> {
    pub done: u32,
    pub offers: u64,
    pub refused: Option<E>,
}
