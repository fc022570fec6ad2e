// What an app does with a board: made, added to, removed from, run again, and asked.
ghost use Rattle.std.specs.Prelude.{◌≡◌, List, ℕ, ◌/◌, length};
ghost use Rattle.std.proofs.lemmas.List.Edits.{sets};
ghost use Rattle.lexer.specs.Keywords.{words_in};
ghost use Rattle.ready.specs.Ready.{ready_of};
ghost use Rattle.board.specs.Rows.{slot_of};
ghost use Rattle.board.specs.Boards.{memory, at_entry, at_exit, memory_after, at_instant, due_at, make_of, add_of, remove_of, again_of, head_of, order_of, head_from, done_of, added_of};

use super::holding::{hold, order_anew};
use super::instants::at_instant;
use super::rows::{drop_slot, put_slots};
use super::slots::{count, free_slot, put_state};
use super::{BOARD_READY_SIZE, BOARD_SLOTS, Due};
use calendar::moments::Moment;
use lexer::reading::Reading;
use ready::make_ready;
use refusals::{Reason, Refusal};

// A board made empty at a now, or 8 and nothing written.
pub fn make(
    lengths: &mut [u32; BOARD_SLOTS],
    state: &mut [u32; 8],
    at: Moment,
) -> Result<(), Reason>
    ensures value { (ready keys : List ℕ) → result ≡ done_of (make_of (memory ready lengths.old keys state.old) at) }
    ensures state_after { (ready keys : List ℕ) → let m = memory ready lengths.old keys state.old in
        memory ready lengths.new keys state.new ≡ memory_after m (make_of m at) }
{
    if !at.valid() {
        return Err(Reason::InvalidMoment);
    }
    *lengths = [0; BOARD_SLOTS];
    put_state(state, at, 0);
    Ok(())
}

// One reminder more, made ready in a reading: its slot, or what making ready refuses, then 24, and nothing written.
pub fn add(
    reading: Reading,
    phrase: &[u8],
    ready: &mut [u8; BOARD_READY_SIZE],
    lengths: &mut [u32; BOARD_SLOTS],
    keys: &mut [u64; BOARD_SLOTS],
    state: &mut [u32; 8],
) -> Result<usize, Refusal>
    ensures value { result ≡ added_of (add_of (at_entry ready lengths keys state) (ready_of reading (words_in reading) phrase.now)) }
    ensures state_value { let m = at_entry ready lengths keys state in
        at_exit ready lengths keys state ≡ memory_after m (add_of m (ready_of reading (words_in reading) phrase.now)) }
{
    let plan = make_ready(reading, phrase)?;
    let slot = free_slot(lengths, state).ok_or(Reason::FullBoard)?;
    hold(plan, slot, ready, lengths, keys, state);
    Ok(slot)
}

// One reminder less, or 25 and nothing written.
pub fn remove(
    lengths: &mut [u32; BOARD_SLOTS],
    keys: &mut [u64; BOARD_SLOTS],
    state: &mut [u32; 8],
    slot: u32,
) -> Result<(), Reason>
    ensures value { (ready : List ℕ) → result ≡ done_of (remove_of (memory ready lengths.old keys.old state.old) slot) }
    ensures state_after { (ready : List ℕ) → let m = memory ready lengths.old keys.old state.old in
        memory ready lengths.new keys.new state.new ≡ memory_after m (remove_of m slot) }
{
    let s = slot as usize;
    if s >= BOARD_SLOTS || lengths[s] == 0 {
        return Err(Reason::EmptySlot);
    }
    let left = drop_slot(keys, count(state), slot as u64);
    lengths[s] = 0;
    state[7] = left as u32;
    Ok(())
}

// All reminders run again at another now, or 8 and nothing written.
pub fn again(
    ready: &[u8; BOARD_READY_SIZE],
    lengths: &[u32; BOARD_SLOTS],
    keys: &mut [u64; BOARD_SLOTS],
    state: &mut [u32; 8],
    at: Moment,
) -> Result<(), Reason>
    ensures value { result ≡ done_of (again_of (memory ready.now lengths.now keys.old state.old) at) }
    ensures state_after { let m = memory ready.now lengths.now keys.old state.old in
        memory ready.now lengths.now keys.new state.new ≡ memory_after m (again_of m at) }
{
    if !at.valid() {
        return Err(Reason::InvalidMoment);
    }
    let n = order_anew(ready, lengths, keys, at);
    put_state(state, at, n as u32);
    Ok(())
}

// What the first key says.
fn earliest(key: u64) -> Option<Due>
    ensures { head_from result ≡ due_at (slot_of key) (at_instant (key / 256)) }
{
    match at_instant(key / 256) {
        Ok(moment) => Some(Due {
            slot: (key % 256) as u32,
            moment,
        }),
        Err(_) => None,
    }
}

// The reminder that is due first.
pub fn head(keys: &[u64; BOARD_SLOTS], state: &[u32; 8]) -> Option<Due>
    ensures { (ready lengths : List ℕ) → head_from result ≡ head_of (memory ready lengths keys.now state.now) }
{
    if count(state) == 0 {
        return None;
    }
    earliest(keys[0])
}

// The slots in the order of their moments, at the front of a lent array; how many there are.
pub fn order(keys: &[u64; BOARD_SLOTS], state: &[u32; 8], slots: &mut [u32; BOARD_SLOTS]) -> usize
    ensures value { (ready lengths : List ℕ) → result ≡ length (order_of (memory ready lengths keys.now state.now)) }
    ensures slots_after { (ready lengths : List ℕ) → slots.new ≡ sets slots.old 0 (order_of (memory ready lengths keys.now state.now)) }
{
    put_slots(keys, count(state), slots)
}
