// What apps call, as a static library for C and the languages that call C: each of `fuzzydate`'s calls under its own name.
#![tactic(auto)]

ghost use Rattle.std.specs.Prelude.{◌≡◌, List, ℕ, ◌*◌, length};
ghost use Rattle.std.proofs.lemmas.List.Edits.{sets};
ghost use Rattle.calendar.specs.Moments.{seven, moment_in};
ghost use Rattle.answer.specs.Answer.{placed};
ghost use Rattle.steps.specs.Running.{run_of};
ghost use Rattle.records.specs.Records.{decode_of};
ghost use Rattle.refusals.specs.Writings.{buffer_of};
ghost use Rattle.stamp.specs.Stamps.{stamp_of, written_of};
ghost use Rattle.shown.specs.Phrases.{shown_of};
ghost use Rattle.fuzzydate.specs.Called.{version, answer_in, ready_in, code, code_of, moment_after, ready_code, ready_after};
ghost use Rattle.fuzzydate.specs.Called.{stamp_in, nine, stamp_after, written_code};
ghost use Rattle.repeats.specs.Listing.{rows_after};
ghost use Rattle.zoned.specs.Local.{run_in_zone};
ghost use Rattle.board.specs.Boards.{memory, at_entry, at_exit, memory_after, make_of, add_of, remove_of, again_of, head_of, order_of};
ghost use Rattle.fuzzydate.specs.Called.{found_in, found_after, list_in, next_in, instant_from, read_in_zone, due_after, local_after};
ghost use Rattle.fuzzydate.specs.Called.{added_code, head_code, head_after};

use board::{BOARD_READY_SIZE, BOARD_SLOTS};
use calendar::moments::MOMENT_NUMBERS;
use records::record::READY_SIZE;

// How many numbers a stamp has, and what a zone's clocks show: a moment's, west and offset.
const STAMP_NUMBERS: usize = MOMENT_NUMBERS + 2;

// The version as one number: 1000000 for 1.0.0.
#[unsafe(no_mangle)]
pub extern "C" fn fuzzy_version() -> u32
    ensures { result ≡ version }
{
    fuzzydate::fuzzy_version()
}

// A phrase at a now, in reading 1 or 2: 0 and the moment's seven numbers, or a refusal and nothing written.
#[unsafe(no_mangle)]
pub extern "C" fn fuzzy_read(
    reading: u32,
    phrase: &[u8],
    at: &[u32; MOMENT_NUMBERS],
    moment: &mut [u32; MOMENT_NUMBERS],
) -> u64
    ensures value { result ≡ code_of (answer_in reading phrase.now (moment_in at.now)) }
    ensures moment_after { moment.new ≡ moment_after (answer_in reading phrase.now (moment_in at.now)) moment.old }
{
    fuzzydate::fuzzy_read(reading, phrase, at, moment)
}

// A phrase made ready in reading 1 or 2 without a now: the length of its records in bytes, and they from the start of the lent array on; or what reading
// refuses, and nothing written.
#[unsafe(no_mangle)]
pub extern "C" fn fuzzy_make_ready(reading: u32, phrase: &[u8], ready: &mut [u8; READY_SIZE]) -> u64
    ensures value { result ≡ ready_code (ready_in reading phrase.now) }
    ensures ready_after { ready.new ≡ ready_after (ready_in reading phrase.now) ready.old }
{
    fuzzydate::fuzzy_make_ready(reading, phrase, ready)
}

// A ready phrase at a now: 0 and the moment's seven numbers, or a refusal of 8 to 13 and nothing written.
#[unsafe(no_mangle)]
pub extern "C" fn fuzzy_run(
    ready: &[u8],
    at: &[u32; MOMENT_NUMBERS],
    moment: &mut [u32; MOMENT_NUMBERS],
) -> u64
    ensures value { result ≡ code_of (placed (run_of (decode_of ready.now) (moment_in at.now))) }
    ensures moment_after { moment.new ≡ moment_after (placed (run_of (decode_of ready.now) (moment_in at.now))) moment.old }
{
    fuzzydate::fuzzy_run(ready, at, moment)
}

// A text as an RFC 3339 stamp: 0 and the stamp's nine numbers, or 14 or 12 and nothing written.
#[unsafe(no_mangle)]
pub extern "C" fn fuzzy_read_stamp(text: &[u8], stamp: &mut [u32; STAMP_NUMBERS]) -> u64
    ensures value { result ≡ code_of (stamp_of text.now) }
    ensures stamp_after { stamp.new ≡ stamp_after (stamp_of text.now) stamp.old }
{
    fuzzydate::fuzzy_read_stamp(text, stamp)
}

// A stamp's nine numbers as text at the front of a lent one: its length in bytes, or 8, 14 or 17 and nothing written.
#[unsafe(no_mangle)]
pub extern "C" fn fuzzy_write_stamp(stamp: &[u32; STAMP_NUMBERS], text: &mut [u8]) -> u64
    ensures value { result ≡ written_code (written_of (stamp_in stamp.now) (length text.old)) }
    ensures text_after { text.new ≡ buffer_of text.old (written_of (stamp_in stamp.now) (length text.old)) }
{
    fuzzydate::fuzzy_write_stamp(stamp, text)
}

// A moment's seven numbers as a phrase at the front of a lent text: its length in bytes, or 8, 16 or 17 and nothing written.
#[unsafe(no_mangle)]
pub extern "C" fn fuzzy_write_phrase(moment: &[u32; MOMENT_NUMBERS], text: &mut [u8]) -> u64
    ensures value { result ≡ written_code (shown_of (moment_in moment.now) (length text.old)) }
    ensures text_after { text.new ≡ buffer_of text.old (shown_of (moment_in moment.now) (length text.old)) }
{
    fuzzydate::fuzzy_write_phrase(moment, text)
}

// A word in reading 1 or 2: 0, and its lexeme's code or 0, and how many rows of the table it was compared with; or 15 and nothing written.
#[unsafe(no_mangle)]
pub extern "C" fn fuzzy_find_word(reading: u32, word: &[u8], found: &mut [u32; 2]) -> u64
    ensures value { result ≡ code_of (found_in reading word.now) }
    ensures found_after { found.new ≡ found_after (found_in reading word.now) found.old }
{
    fuzzydate::fuzzy_find_word(reading, word, found)
}

// The occurrences of an RFC 5545 rule from a start on, rows of seven numbers from the front of a lent buffer on, as many as it has room for: their
// count, or 8, 18 or 19 and nothing written.
#[unsafe(no_mangle)]
pub extern "C" fn fuzzy_list_in(
    rule: &[u8],
    start: &[u32; MOMENT_NUMBERS],
    moments: &mut [u32],
) -> u64
    ensures value { result ≡ written_code (list_in rule.now (moment_in start.now) (length moments.old)) }
    ensures moments_after { let t = moment_in start.now in
        moments.new ≡ rows_after t moments.old (list_in rule.now t (length moments.old)) }
{
    fuzzydate::fuzzy_list_in(rule, start, moments)
}

// The first occurrence of an RFC 5545 rule, from a start on, at or after an asked moment: 0 and its seven numbers, or 8, 18, 19 or 20 and nothing
// written.
#[unsafe(no_mangle)]
pub extern "C" fn fuzzy_next(
    rule: &[u8],
    start: &[u32; MOMENT_NUMBERS],
    asked: &[u32; MOMENT_NUMBERS],
    moment: &mut [u32; MOMENT_NUMBERS],
) -> u64
    ensures value { result ≡ code_of (next_in rule.now (moment_in start.now) (moment_in asked.now)) }
    ensures moment_after { moment.new ≡ moment_after (next_in rule.now (moment_in start.now) (moment_in asked.now)) moment.old }
{
    fuzzydate::fuzzy_next(rule, start, asked, moment)
}

// A ready phrase at an instant of a zone's file: 0, the instant's second and what the clocks show, or 21 or what running refuses, and nothing written.
#[unsafe(no_mangle)]
pub extern "C" fn fuzzy_run_in_zone(
    ready: &[u8],
    zone: &[u8],
    second: u64,
    millisecond: u32,
    due: &mut [u64; 1],
    moment: &mut [u32; STAMP_NUMBERS],
) -> u64
    ensures value { result ≡ code_of (run_in_zone (decode_of ready.now) zone.now (instant_from second millisecond)) }
    ensures due_after { due.new ≡ due_after (run_in_zone (decode_of ready.now) zone.now (instant_from second millisecond)) due.old }
    ensures moment_after { moment.new ≡ local_after (run_in_zone (decode_of ready.now) zone.now (instant_from second millisecond)) moment.old }
{
    fuzzydate::fuzzy_run_in_zone(ready, zone, second, millisecond, due, moment)
}

// A phrase at an instant of a zone's file, in reading 1 or 2: made ready and run there.
#[unsafe(no_mangle)]
pub extern "C" fn fuzzy_read_in_zone(
    reading: u32,
    phrase: &[u8],
    zone: &[u8],
    second: u64,
    millisecond: u32,
    due: &mut [u64; 1],
    moment: &mut [u32; STAMP_NUMBERS],
) -> u64
    ensures value { result ≡ code_of (read_in_zone reading phrase.now zone.now (instant_from second millisecond)) }
    ensures due_after { due.new ≡ due_after (read_in_zone reading phrase.now zone.now (instant_from second millisecond)) due.old }
    ensures moment_after { moment.new ≡ local_after (read_in_zone reading phrase.now zone.now (instant_from second millisecond)) moment.old }
{
    fuzzydate::fuzzy_read_in_zone(reading, phrase, zone, second, millisecond, due, moment)
}

// A board made empty at a now: 0, or 8 and nothing written.
#[unsafe(no_mangle)]
pub extern "C" fn fuzzy_board_make_in(
    lengths: &mut [u32; BOARD_SLOTS],
    state: &mut [u32; 8],
    at: &[u32; MOMENT_NUMBERS],
) -> u64
    ensures value { (ready keys : List ℕ) → result ≡ code_of (make_of (memory ready lengths.old keys state.old) (moment_in at.now)) }
    ensures state_after { (ready keys : List ℕ) → let m = memory ready lengths.old keys state.old in
        memory ready lengths.new keys state.new ≡ memory_after m (make_of m (moment_in at.now)) }
{
    fuzzydate::fuzzy_board_make_in(lengths, state, at)
}

// One reminder more on a board, made ready in reading 1 or 2: its slot, or what reading refuses or 24, and nothing written.
#[unsafe(no_mangle)]
pub extern "C" fn fuzzy_board_add_in(
    ready: &mut [u8; BOARD_READY_SIZE],
    lengths: &mut [u32; BOARD_SLOTS],
    keys: &mut [u64; BOARD_SLOTS],
    state: &mut [u32; 8],
    reading: u32,
    phrase: &[u8],
) -> u64
    ensures value { result ≡ added_code (add_of (at_entry ready lengths keys state) (ready_in reading phrase.now)) }
    ensures state_value { let m = at_entry ready lengths keys state in
        at_exit ready lengths keys state ≡ memory_after m (add_of m (ready_in reading phrase.now)) }
{
    fuzzydate::fuzzy_board_add_in(ready, lengths, keys, state, reading, phrase)
}

// One reminder less on a board: 0, or 25 and nothing written.
#[unsafe(no_mangle)]
pub extern "C" fn fuzzy_board_remove_in(
    lengths: &mut [u32; BOARD_SLOTS],
    keys: &mut [u64; BOARD_SLOTS],
    state: &mut [u32; 8],
    slot: u32,
) -> u64
    ensures value { (ready : List ℕ) → result ≡ code_of (remove_of (memory ready lengths.old keys.old state.old) slot) }
    ensures state_after { (ready : List ℕ) → let m = memory ready lengths.old keys.old state.old in
        memory ready lengths.new keys.new state.new ≡ memory_after m (remove_of m slot) }
{
    fuzzydate::fuzzy_board_remove_in(lengths, keys, state, slot)
}

// All reminders of a board run again at another now: 0, or 8 and nothing written.
#[unsafe(no_mangle)]
pub extern "C" fn fuzzy_board_again_in(
    ready: &[u8; BOARD_READY_SIZE],
    lengths: &[u32; BOARD_SLOTS],
    keys: &mut [u64; BOARD_SLOTS],
    state: &mut [u32; 8],
    at: &[u32; MOMENT_NUMBERS],
) -> u64
    ensures value { result ≡ code_of (again_of (memory ready.now lengths.now keys.old state.old) (moment_in at.now)) }
    ensures state_after { let m = memory ready.now lengths.now keys.old state.old in
        memory ready.now lengths.now keys.new state.new ≡ memory_after m (again_of m (moment_in at.now)) }
{
    fuzzydate::fuzzy_board_again_in(ready, lengths, keys, state, at)
}

// The reminder of a board that is due first: its slot and its moment's seven numbers, or 26 and nothing written.
#[unsafe(no_mangle)]
pub extern "C" fn fuzzy_board_head_in(
    keys: &[u64; BOARD_SLOTS],
    state: &[u32; 8],
    moment: &mut [u32; MOMENT_NUMBERS],
) -> u64
    ensures value { (ready lengths : List ℕ) → result ≡ head_code (head_of (memory ready lengths keys.now state.now)) }
    ensures moment_after { (ready lengths : List ℕ) → moment.new ≡ head_after (head_of (memory ready lengths keys.now state.now)) moment.old }
{
    fuzzydate::fuzzy_board_head_in(keys, state, moment)
}

// The slots of a board in the order of their moments, at the front of a lent array: how many there are.
#[unsafe(no_mangle)]
pub extern "C" fn fuzzy_board_order_in(
    keys: &[u64; BOARD_SLOTS],
    state: &[u32; 8],
    slots: &mut [u32; BOARD_SLOTS],
) -> u64
    ensures value { (ready lengths : List ℕ) → result ≡ 4294967296 * length (order_of (memory ready lengths keys.now state.now)) }
    ensures slots_after { (ready lengths : List ℕ) → slots.new ≡ sets slots.old 0 (order_of (memory ready lengths keys.now state.now)) }
{
    fuzzydate::fuzzy_board_order_in(keys, state, slots)
}
