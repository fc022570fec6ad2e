// The slots, the now and the count in the caller's memory.
ghost use Rattle.std.specs.Prelude.{◌≡◌, List, ℕ, ◌≤◌, ◌<◌, Some, eqb, position};
ghost use Rattle.calendar.specs.Moments.{moment_in};
ghost use Rattle.board.specs.Boards.{board_slots, memory, count_in, state_of, key_at, slot_from, slot_for};

use super::instants::due;
use super::{BOARD_READY_SIZE, BOARD_SLOTS};
use calendar::moments::Moment;
use records::record::READY_SIZE;
use records::run::run_ready;

// The now.
pub(crate) fn now_of(state: &[u32; 8]) -> Moment
    ensures { result ≡ moment_in state.now }
{
    Moment {
        year: state[0],
        month: state[1],
        day: state[2],
        hour: state[3],
        minute: state[4],
        second: state[5],
        millisecond: state[6],
    }
}

// How many keys there are.
pub(crate) fn count(state: &[u32; 8]) -> usize
    ensures { (result ≡ count_in state.now) × (result ≤ board_slots) }
{
    (state[7] as usize).min(BOARD_SLOTS)
}

// A now and a count.
pub(crate) fn put_state(state: &mut [u32; 8], at: Moment, count: u32)
    ensures { state.new ≡ state_of at count }
{
    *state = [
        at.year,
        at.month,
        at.day,
        at.hour,
        at.minute,
        at.second,
        at.millisecond,
        count,
    ];
}

// The lowest place of a 0.
fn lowest_free(lengths: &[u32]) -> Option<usize>
    ensures { result ≡ position (λ n. eqb n 0) lengths.now }
{
    lengths.iter().position(|n| *n == 0)
}

// The slot for one reminder more, none for a full board.
pub(crate) fn free_slot(lengths: &[u32; BOARD_SLOTS], state: &[u32; 8]) -> Option<usize>
    ensures value { (ready keys : List ℕ) → slot_from result ≡ slot_for (memory ready lengths.now keys state.now) }
    ensures bounds { (s : ℕ) → result ≡ Some s → (s < board_slots) × (count_in state.now < board_slots) }
{
    if count(state) == BOARD_SLOTS {
        return None;
    }
    lowest_free(lengths)
}

// The key of a slot at a now.
pub(crate) fn key_at(
    ready: &[u8; BOARD_READY_SIZE],
    lengths: &[u32; BOARD_SLOTS],
    slot: usize,
    at: Moment,
) -> u64
    requires { slot < board_slots }
    ensures { (keys state : List ℕ) → result ≡ key_at (memory ready.now lengths.now keys state) at slot }
{
    let start = READY_SIZE * slot;
    let size = (lengths[slot] as usize).min(READY_SIZE);
    256 * due(run_ready(&ready[start..start + size], at)) + (slot as u64)
}
