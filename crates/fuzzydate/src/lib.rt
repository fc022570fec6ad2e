// What apps call: phrases, nows, ready phrases, stamps and moments as numbers and byte slices.
#![tactic(auto)]

ghost use Rattle.std.specs.Prelude.{◌≡◌, List, ℕ, ◌+◌, ◌*◌, ◌≤◌, length, IfOk, IfErr};
ghost use Rattle.std.proofs.lemmas.List.Edits.{sets};
ghost use Rattle.refusals.specs.Answers.{answer_from};
ghost use Rattle.refusals.specs.Writings.{wrote_of, buffer_of};
ghost use Rattle.calendar.specs.Gregorian.{days};
ghost use Rattle.calendar.specs.Moments.{reached_of, moment_in};
ghost use Rattle.answer.specs.Answer.{placed};
ghost use Rattle.steps.specs.Running.{run_of};
ghost use Rattle.records.specs.Records.{decode_of};
ghost use Rattle.ready.specs.Ready.{ready_answer};
ghost use Rattle.stamp.specs.Stamps.{stamp_of, written_of};
ghost use Rattle.shown.specs.Phrases.{shown_of};
ghost use Rattle.fuzzydate.specs.Called.{version, answer_in, ready_in, code, code_of, moment_after, ready_code, ready_after};
ghost use Rattle.fuzzydate.specs.Called.{stamp_in, nine, stamp_after, written_code, Part, wrote_code, done_code};
ghost use Rattle.repeats.specs.Listing.{rows_after};
ghost use Rattle.coming.specs.Next.{answered};
ghost use Rattle.zoned.specs.Local.{located_of, run_in_zone};
ghost use Rattle.board.specs.Boards.{memory, at_entry, at_exit, memory_after, make_of, add_of, added_of, remove_of, again_of, head_of, order_of};
ghost use Rattle.fuzzydate.specs.Called.{found_in, found_after, list_in, next_in, instant_from, read_in_zone, due_after, local_after};
ghost use Rattle.fuzzydate.specs.Called.{added_code, head_code, head_after};

use answer::answer;
use board::calls::{add, again, head, make, order, remove};
use board::{BOARD_READY_SIZE, BOARD_SLOTS};
use calendar::moments::{MOMENT_NUMBERS, Moment};
use coming::next;
use lexer::find::look_up;
use lexer::reading::Reading;
use ready::make_ready;
use records::record::{READY_SIZE, encode};
use records::run::run_ready;
use refusals::{Reason, Refusal};
use repeats::listing::list;
use rules::read::read_rule;
use shown::write_phrase;
use stamp::read::read_stamp;
use stamp::write::write_stamp;
use stamp::{Offset, Stamp};
use steps::plan::Plan;
use tzif::octets::turned;
use zoned::local::{Local, run_in_zone};
use zones::instants::Instant;

// Where the place of a refusal stands in an answer, and where the length of its part does.
const PLACE: u64 = 65536;

const LENGTH: u64 = 4294967296;

// How many numbers a stamp has, and what a zone's clocks show: a moment's, west and offset.
const STAMP_NUMBERS: usize = MOMENT_NUMBERS + 2;

// The version of what apps call, which the file VERSION says.
const MAJOR: u32 = 1;

const MINOR: u32 = 0;

const PATCH: u32 = 0;

// A refusal as one number.
fn code(refusal: Refusal) -> u64
    requires { Part refusal }
    ensures { result ≡ code refusal }
{
    let part = refusal.end - refusal.place;
    (refusal.reason.number() as u64) + PLACE * (refusal.place as u64) + LENGTH * (part as u64)
}

// How a writing ended as one number: the count of the text's bytes or of the rows, or a refusal's number.
fn written(wrote: Result<usize, Reason>) -> u64
    requires { IfOk wrote (λ count. count ≤ days) }
    ensures { result ≡ wrote_code wrote }
{
    match wrote {
        Ok(count) => LENGTH * (count as u64),
        Err(reason) => reason.number() as u64,
    }
}

// 0 for what is done, or a refusal's number.
fn done(call: Result<(), Reason>) -> u64
    ensures { result ≡ done_code call }
{
    match call {
        Ok(()) => 0,
        Err(reason) => reason.number() as u64,
    }
}

// The stamp of nine numbers.
fn stamp_in(stamp: &[u32; STAMP_NUMBERS]) -> Stamp
    ensures { result ≡ stamp_in stamp.now }
{
    let moment = Moment {
        year: stamp[0],
        month: stamp[1],
        day: stamp[2],
        hour: stamp[3],
        minute: stamp[4],
        second: stamp[5],
        millisecond: stamp[6],
    };
    let offset = Offset {
        west: stamp[7],
        minutes: stamp[8],
    };
    Stamp { moment, offset }
}

// A moment's seven numbers and an offset's two.
fn put_nine(civil: Moment, west: u32, offset: u32, numbers: &mut [u32; STAMP_NUMBERS])
    ensures { numbers.new ≡ nine civil west offset }
{
    *numbers = [
        civil.year,
        civil.month,
        civil.day,
        civil.hour,
        civil.minute,
        civil.second,
        civil.millisecond,
        west,
        offset,
    ];
}

// What was reached as one number: 0 and the moment's seven numbers, or a refusal and nothing written.
fn answered(answer: Result<Moment, Refusal>, moment: &mut [u32; MOMENT_NUMBERS]) -> u64
    requires { IfErr answer Part }
    ensures value { result ≡ code_of (answer_from answer) }
    ensures moment_after { moment.new ≡ moment_after (answer_from answer) moment.old }
{
    match answer {
        Ok(t) => {
            *moment = t.into();
            0
        }
        Err(refusal) => code(refusal),
    }
}

// The same of a refusal that has no part.
fn reached(at: Result<Moment, Reason>, moment: &mut [u32; MOMENT_NUMBERS]) -> u64
    ensures value { result ≡ code_of (placed (reached_of at)) }
    ensures moment_after { moment.new ≡ moment_after (placed (reached_of at)) moment.old }
{
    answered(at.map_err(Refusal::from), moment)
}

// The version as one number: 1000000 for 1.0.0.
#[unsafe(no_mangle)]
pub extern "C" fn fuzzy_version() -> u32
    ensures { result ≡ version }
{
    1000000 * MAJOR + 1000 * MINOR + PATCH
}

// A phrase at a now, in the reading of a number.
fn read_in(reading: u32, phrase: &[u8], at: Moment) -> Result<Moment, Refusal>
    ensures { answer_from result ≡ answer_in reading phrase.now at }
{
    answer(reading.try_into()?, phrase, at)
}

// A phrase at a now, in reading 1 or 2: 0 and the moment's seven numbers, or a refusal and nothing written.
#[unsafe(no_mangle)]
pub extern "C" fn fuzzy_read(
    reading: u32,
    phrase: &[u8],
    at: &[u32; MOMENT_NUMBERS],
    moment: &mut [u32; MOMENT_NUMBERS],
) -> u64
    ensures value { result ≡ code_of (answer_in reading phrase.now (moment_in at.now)) }
    ensures moment_after { moment.new ≡ moment_after (answer_in reading phrase.now (moment_in at.now)) moment.old }
{
    answered(read_in(reading, phrase, (*at).into()), moment)
}

// A phrase made ready in the reading of a number.
fn ready_in(reading: u32, phrase: &[u8]) -> Result<Plan, Refusal>
    ensures { result ≡ ready_answer (ready_in reading phrase.now) }
{
    make_ready(reading.try_into()?, phrase)
}

// A phrase made ready in reading 1 or 2 without a now: the length of its records in bytes, and they from the start of the lent array on; or what reading
// refuses, and nothing written.
#[unsafe(no_mangle)]
pub extern "C" fn fuzzy_make_ready(reading: u32, phrase: &[u8], ready: &mut [u8; READY_SIZE]) -> u64
    ensures value { result ≡ ready_code (ready_in reading phrase.now) }
    ensures ready_after { ready.new ≡ ready_after (ready_in reading phrase.now) ready.old }
{
    match ready_in(reading, phrase) {
        Ok(plan) => {
            encode(plan, ready);
            LENGTH * ((16 * plan.n) as u64)
        }
        Err(refusal) => code(refusal),
    }
}

// A ready phrase at a now: 0 and the moment's seven numbers, or a refusal of 8 to 13 and nothing written.
#[unsafe(no_mangle)]
pub extern "C" fn fuzzy_run(
    ready: &[u8],
    at: &[u32; MOMENT_NUMBERS],
    moment: &mut [u32; MOMENT_NUMBERS],
) -> u64
    ensures value { result ≡ code_of (placed (run_of (decode_of ready.now) (moment_in at.now))) }
    ensures moment_after { moment.new ≡ moment_after (placed (run_of (decode_of ready.now) (moment_in at.now))) moment.old }
{
    reached(run_ready(ready, (*at).into()), moment)
}

// A text as an RFC 3339 stamp: 0 and the stamp's nine numbers, or 14 or 12 and nothing written.
#[unsafe(no_mangle)]
pub extern "C" fn fuzzy_read_stamp(text: &[u8], stamp: &mut [u32; STAMP_NUMBERS]) -> u64
    ensures value { result ≡ code_of (stamp_of text.now) }
    ensures stamp_after { stamp.new ≡ stamp_after (stamp_of text.now) stamp.old }
{
    match read_stamp(text) {
        Ok(read) => {
            put_nine(read.moment, read.offset.west, read.offset.minutes, stamp);
            0
        }
        Err(reason) => reason.number() as u64,
    }
}

// A stamp's nine numbers as text at the front of a lent one: its length in bytes, or 8, 14 or 17 and nothing written.
#[unsafe(no_mangle)]
pub extern "C" fn fuzzy_write_stamp(stamp: &[u32; STAMP_NUMBERS], text: &mut [u8]) -> u64
    ensures value { result ≡ written_code (written_of (stamp_in stamp.now) (length text.old)) }
    ensures text_after { text.new ≡ buffer_of text.old (written_of (stamp_in stamp.now) (length text.old)) }
{
    written(write_stamp(stamp_in(stamp), text))
}

// A moment's seven numbers as a phrase at the front of a lent text: its length in bytes, or 8, 16 or 17 and nothing written.
#[unsafe(no_mangle)]
pub extern "C" fn fuzzy_write_phrase(moment: &[u32; MOMENT_NUMBERS], text: &mut [u8]) -> u64
    ensures value { result ≡ written_code (shown_of (moment_in moment.now) (length text.old)) }
    ensures text_after { text.new ≡ buffer_of text.old (shown_of (moment_in moment.now) (length text.old)) }
{
    written(write_phrase((*moment).into(), text))
}

// A word in reading 1 or 2: 0, and its lexeme's code or 0, and how many rows of the table it was compared with; or 15 and nothing written.
#[unsafe(no_mangle)]
pub extern "C" fn fuzzy_find_word(reading: u32, word: &[u8], found: &mut [u32; 2]) -> u64
    ensures value { result ≡ code_of (found_in reading word.now) }
    ensures found_after { found.new ≡ found_after (found_in reading word.now) found.old }
{
    match Reading::try_from(reading) {
        Ok(chosen) => {
            let looked = look_up(chosen, word);
            *found = [looked.code.unwrap_or(0) as u32, looked.count];
            0
        }
        Err(reason) => reason.number() as u64,
    }
}

// The occurrences of a rule's text from a start on, written as rows.
fn list_in(rule: &[u8], start: Moment, moments: &mut [u32]) -> Result<usize, Reason>
    ensures value { result ≡ wrote_of (list_in rule.now start (length moments.old)) }
    ensures buffer { moments.new ≡ rows_after start moments.old (list_in rule.now start (length moments.old)) }
{
    if !start.valid() {
        return Err(Reason::InvalidMoment);
    }
    list(read_rule(rule).ok_or(Reason::NoRule)?, start, moments)
}

// The occurrences of an RFC 5545 rule from a start on, rows of seven numbers from the front of a lent buffer on, as many as it has room for: their
// count, or 8, 18 or 19 and nothing written.
#[unsafe(no_mangle)]
pub extern "C" fn fuzzy_list_in(
    rule: &[u8],
    start: &[u32; MOMENT_NUMBERS],
    moments: &mut [u32],
) -> u64
    ensures value { result ≡ written_code (list_in rule.now (moment_in start.now) (length moments.old)) }
    ensures moments_after { let t = moment_in start.now in
        moments.new ≡ rows_after t moments.old (list_in rule.now t (length moments.old)) }
{
    written(list_in(rule, (*start).into(), moments))
}

// The first occurrence of a rule's text, from a start on, at or after an asked moment.
fn next_of(rule: &[u8], start: Moment, asked: Moment) -> Result<Moment, Reason>
    ensures { result ≡ answered (next_in rule.now start asked) }
{
    if !(start.valid() && asked.valid()) {
        return Err(Reason::InvalidMoment);
    }
    next(read_rule(rule).ok_or(Reason::NoRule)?, start, asked)
}

// The first occurrence of an RFC 5545 rule, from a start on, at or after an asked moment: 0 and its seven numbers, or 8, 18, 19 or 20 and nothing
// written.
#[unsafe(no_mangle)]
pub extern "C" fn fuzzy_next(
    rule: &[u8],
    start: &[u32; MOMENT_NUMBERS],
    asked: &[u32; MOMENT_NUMBERS],
    moment: &mut [u32; MOMENT_NUMBERS],
) -> u64
    ensures value { result ≡ code_of (next_in rule.now (moment_in start.now) (moment_in asked.now)) }
    ensures moment_after { moment.new ≡ moment_after (next_in rule.now (moment_in start.now) (moment_in asked.now)) moment.old }
{
    reached(next_of(rule, (*start).into(), (*asked).into()), moment)
}

// Where a run in a zone ended as one number: 0, the instant's second and what the clocks show, or a refusal's number and nothing written.
fn located(at: Result<Local, Reason>, due: &mut [u64; 1], moment: &mut [u32; STAMP_NUMBERS]) -> u64
    ensures value { result ≡ code_of (located_of at) }
    ensures due_after { due.new ≡ due_after (located_of at) due.old }
    ensures moment_after { moment.new ≡ local_after (located_of at) moment.old }
{
    match at {
        Ok(x) => {
            *due = [turned(x.second)];
            put_nine(x.civil, x.west as u32, x.offset, moment);
            0
        }
        Err(reason) => reason.number() as u64,
    }
}

// A ready phrase at an instant of a zone's file: 0, the instant's second and what the clocks show, or 21 or what running refuses, and nothing written.
#[unsafe(no_mangle)]
pub extern "C" fn fuzzy_run_in_zone(
    ready: &[u8],
    zone: &[u8],
    second: u64,
    millisecond: u32,
    due: &mut [u64; 1],
    moment: &mut [u32; STAMP_NUMBERS],
) -> u64
    ensures value { result ≡ code_of (run_in_zone (decode_of ready.now) zone.now (instant_from second millisecond)) }
    ensures due_after { due.new ≡ due_after (run_in_zone (decode_of ready.now) zone.now (instant_from second millisecond)) due.old }
    ensures moment_after { moment.new ≡ local_after (run_in_zone (decode_of ready.now) zone.now (instant_from second millisecond)) moment.old }
{
    let now = Instant {
        second: turned(second),
        millisecond,
    };
    located(run_in_zone(ready, zone, now), due, moment)
}

// A phrase at an instant of a zone's file, in reading 1 or 2: made ready and run there.
#[unsafe(no_mangle)]
pub extern "C" fn fuzzy_read_in_zone(
    reading: u32,
    phrase: &[u8],
    zone: &[u8],
    second: u64,
    millisecond: u32,
    due: &mut [u64; 1],
    moment: &mut [u32; STAMP_NUMBERS],
) -> u64
    ensures value { result ≡ code_of (read_in_zone reading phrase.now zone.now (instant_from second millisecond)) }
    ensures due_after { due.new ≡ due_after (read_in_zone reading phrase.now zone.now (instant_from second millisecond)) due.old }
    ensures moment_after { moment.new ≡ local_after (read_in_zone reading phrase.now zone.now (instant_from second millisecond)) moment.old }
{
    let mut ready = [0; READY_SIZE];
    let made = fuzzy_make_ready(reading, phrase, &mut ready);
    if made % PLACE != 0 {
        return made;
    }
    let end = (made / LENGTH) as usize;
    fuzzy_run_in_zone(&ready[..end], zone, second, millisecond, due, moment)
}

// A board made empty at a now: 0, or 8 and nothing written.
#[unsafe(no_mangle)]
pub extern "C" fn fuzzy_board_make_in(
    lengths: &mut [u32; BOARD_SLOTS],
    state: &mut [u32; 8],
    at: &[u32; MOMENT_NUMBERS],
) -> u64
    ensures value { (ready keys : List ℕ) → result ≡ code_of (make_of (memory ready lengths.old keys state.old) (moment_in at.now)) }
    ensures state_after { (ready keys : List ℕ) → let m = memory ready lengths.old keys state.old in
        memory ready lengths.new keys state.new ≡ memory_after m (make_of m (moment_in at.now)) }
{
    done(make(lengths, state, (*at).into()))
}

// One reminder more on a board, made ready in the reading of a number.
fn add_in(
    ready: &mut [u8; BOARD_READY_SIZE],
    lengths: &mut [u32; BOARD_SLOTS],
    keys: &mut [u64; BOARD_SLOTS],
    state: &mut [u32; 8],
    reading: u32,
    phrase: &[u8],
) -> Result<usize, Refusal>
    ensures value { result ≡ added_of (add_of (at_entry ready lengths keys state) (ready_in reading phrase.now)) }
    ensures state_value { let m = at_entry ready lengths keys state in
        at_exit ready lengths keys state ≡ memory_after m (add_of m (ready_in reading phrase.now)) }
{
    add(reading.try_into()?, phrase, ready, lengths, keys, state)
}

// One reminder more on a board, made ready in reading 1 or 2: its slot, or what reading refuses or 24, and nothing written.
#[unsafe(no_mangle)]
pub extern "C" fn fuzzy_board_add_in(
    ready: &mut [u8; BOARD_READY_SIZE],
    lengths: &mut [u32; BOARD_SLOTS],
    keys: &mut [u64; BOARD_SLOTS],
    state: &mut [u32; 8],
    reading: u32,
    phrase: &[u8],
) -> u64
    ensures value { result ≡ added_code (add_of (at_entry ready lengths keys state) (ready_in reading phrase.now)) }
    ensures state_value { let m = at_entry ready lengths keys state in
        at_exit ready lengths keys state ≡ memory_after m (add_of m (ready_in reading phrase.now)) }
{
    match add_in(ready, lengths, keys, state, reading, phrase) {
        Ok(slot) => LENGTH * (slot as u64),
        Err(refusal) => code(refusal),
    }
}

// One reminder less on a board: 0, or 25 and nothing written.
#[unsafe(no_mangle)]
pub extern "C" fn fuzzy_board_remove_in(
    lengths: &mut [u32; BOARD_SLOTS],
    keys: &mut [u64; BOARD_SLOTS],
    state: &mut [u32; 8],
    slot: u32,
) -> u64
    ensures value { (ready : List ℕ) → result ≡ code_of (remove_of (memory ready lengths.old keys.old state.old) slot) }
    ensures state_after { (ready : List ℕ) → let m = memory ready lengths.old keys.old state.old in
        memory ready lengths.new keys.new state.new ≡ memory_after m (remove_of m slot) }
{
    done(remove(lengths, keys, state, slot))
}

// All reminders of a board run again at another now: 0, or 8 and nothing written.
#[unsafe(no_mangle)]
pub extern "C" fn fuzzy_board_again_in(
    ready: &[u8; BOARD_READY_SIZE],
    lengths: &[u32; BOARD_SLOTS],
    keys: &mut [u64; BOARD_SLOTS],
    state: &mut [u32; 8],
    at: &[u32; MOMENT_NUMBERS],
) -> u64
    ensures value { result ≡ code_of (again_of (memory ready.now lengths.now keys.old state.old) (moment_in at.now)) }
    ensures state_after { let m = memory ready.now lengths.now keys.old state.old in
        memory ready.now lengths.now keys.new state.new ≡ memory_after m (again_of m (moment_in at.now)) }
{
    done(again(ready, lengths, keys, state, (*at).into()))
}

// The reminder of a board that is due first: its slot and its moment's seven numbers, or 26 and nothing written.
#[unsafe(no_mangle)]
pub extern "C" fn fuzzy_board_head_in(
    keys: &[u64; BOARD_SLOTS],
    state: &[u32; 8],
    moment: &mut [u32; MOMENT_NUMBERS],
) -> u64
    ensures value { (ready lengths : List ℕ) → result ≡ head_code (head_of (memory ready lengths keys.now state.now)) }
    ensures moment_after { (ready lengths : List ℕ) → moment.new ≡ head_after (head_of (memory ready lengths keys.now state.now)) moment.old }
{
    match head(keys, state) {
        Some(due) => {
            *moment = due.moment.into();
            LENGTH * (due.slot as u64)
        }
        None => Reason::NothingDue.number() as u64,
    }
}

// The slots of a board in the order of their moments, at the front of a lent array: how many there are.
#[unsafe(no_mangle)]
pub extern "C" fn fuzzy_board_order_in(
    keys: &[u64; BOARD_SLOTS],
    state: &[u32; 8],
    slots: &mut [u32; BOARD_SLOTS],
) -> u64
    ensures value { (ready lengths : List ℕ) → result ≡ 4294967296 * length (order_of (memory ready lengths keys.now state.now)) }
    ensures slots_after { (ready lengths : List ℕ) → slots.new ≡ sets slots.old 0 (order_of (memory ready lengths keys.now state.now)) }
{
    LENGTH * (order(keys, state, slots) as u64)
}
