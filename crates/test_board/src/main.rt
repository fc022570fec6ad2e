// Keeps reminders on one board. Reads calls on standard input, a line each: `M` or `N` with `YYYY-MM-DD HH:MM:SS mmmm` makes the board at a now or runs
// all again at one, `R nnnn` removes from a slot, a digit with a phrase adds in the reading of that number, `H` asks for the head and `O` for the
// order. Writes for each the answer's number, place and length, and behind them what the lent array has.
#![tactic(auto)]

use calendar::fixed::moment_in;
use fuzzydate::{
    fuzzy_board_add_in, fuzzy_board_again_in, fuzzy_board_head_in, fuzzy_board_make_in,
    fuzzy_board_order_in, fuzzy_board_remove_in,
};
use std::io;
use test_input::{each_line_of, four};

// Where the length stands in an answer.
const LENGTH: u64 = 4294967296;

// The memory of a board.
#[derive(Drop)]
struct Board {
    ready: [u8; 98304],
    lengths: [u32; 256],
    keys: [u64; 256],
    state: [u32; 8],
}

// An answer's number, place and length, and what a lent array has.
fn write_answer(rt: &impl Print, answer: u64, lent: &[u32]) -> io::Result<()> {
    print!(rt;
        "{} {} {}",
        answer % 65536,
        answer / 65536 % 65536,
        answer / LENGTH
    )?;
    for n in lent {
        print!(rt; " {n}")?;
    }
    Ok(())
}

// The seven numbers of the now in a line.
fn now_in(line: &[u8]) -> Option<[u32; 7]> {
    let now = line.get(2..26)?;
    Some(moment_in(now, four(now, 20)?).into())
}

impl Board {
    // A call that changes the board: its answer, where the line is long enough for one.
    fn change(&mut self, kind: u8, line: &[u8]) -> Option<u64> {
        let answer = match kind {
            b'M' => fuzzy_board_make_in(&mut self.lengths, &mut self.state, &now_in(line)?),
            b'N' => fuzzy_board_again_in(
                &self.ready,
                &self.lengths,
                &mut self.keys,
                &mut self.state,
                &now_in(line)?,
            ),
            b'R' => fuzzy_board_remove_in(
                &mut self.lengths,
                &mut self.keys,
                &mut self.state,
                four(line, 2)?,
            ),
            digit => fuzzy_board_add_in(
                &mut self.ready,
                &mut self.lengths,
                &mut self.keys,
                &mut self.state,
                u32::from(digit % 16),
                line.get(2..)?,
            ),
        };
        Some(answer)
    }

    // The head, and its moment; sevens where there is none.
    fn write_head(&self, rt: &impl Print) -> io::Result<()> {
        let mut moment = [7u32; 7];
        let answer = fuzzy_board_head_in(&self.keys, &self.state, &mut moment);
        write_answer(rt, answer, &moment)
    }

    // The order: the slots that it counts, and the number behind them where there is one.
    fn write_order(&self, rt: &impl Print) -> io::Result<()> {
        let mut slots = [7u32; 256];
        let answer = fuzzy_board_order_in(&self.keys, &self.state, &mut slots);
        let count = (answer / LENGTH) as usize;
        write_answer(rt, answer, slots.get(..=count).unwrap_or(&slots))
    }

    // One line; an empty one is passed over.
    fn write_line(&mut self, rt: &impl Print, line: &[u8]) -> io::Result<()> {
        let Some(kind) = line.first() else {
            return Ok(());
        };
        match *kind {
            b'H' => self.write_head(rt)?,
            b'O' => self.write_order(rt)?,
            kind => {
                if let Some(answer) = self.change(kind, line) {
                    write_answer(rt, answer, &[])?;
                }
            }
        }
        println!(rt)
    }
}

// Standard input has up to four pieces: data/expected.py, which writes it, sees to that. An empty one ends nothing: at a terminal more may follow.
fn main(rt: HostRuntime) -> io::Result<()> {
    let mut board = Board {
        ready: [0; 98304],
        lengths: [0; 256],
        keys: [0; 256],
        state: [0; 8],
    };
    let mut input = rt.reader();
    for _ in 0..4 {
        each_line_of(&mut input, 1, |line| board.write_line(&rt, line))?;
    }
    Ok(())
}
