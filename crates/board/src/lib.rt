// What is due first: up to 256 ready reminders in the caller's own memory, and beside them the order of their moments.
#![tactic(auto)]

use calendar::moments::Moment;
use records::record::READY_SIZE;

pub mod calls;
mod holding;
mod instants;
mod rows;
mod slots;

// The reminders that a board has room for.
pub const BOARD_SLOTS: usize = 256;

// The bytes of their ready phrases.
pub const BOARD_READY_SIZE: usize = BOARD_SLOTS * READY_SIZE;

// A slot and its moment.
#[derive(Clone, Copy)]
pub struct Due {
    pub slot: u32,
    pub moment: Moment,
}
