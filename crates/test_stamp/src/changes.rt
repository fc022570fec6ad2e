// Every change of one byte of a text: the stamps among them are printed, and the others counted by their refusals.
ghost use Rattle.std.specs.Prelude.{◌<◌, length};

use super::print::write_read;
use refusals::Reason;
use stamp::read::read_stamp;
use std::io;

// How many texts were refused with 12, with 14, and with any other number.
#[derive(Clone, Copy)]
struct Counts {
    outside: u64,
    no_stamp: u64,
    other: u64,
}

impl Counts {
    // One refusal more.
    fn add(&mut self, reason: Reason) {
        let count = match reason {
            Reason::Outside => &mut self.outside,
            Reason::NoStamp => &mut self.no_stamp,
            _ => &mut self.other,
        };
        *count = count.wrapping_add(1);
    }

    // The texts with each byte at a place: printed, or counted.
    fn take_place(&mut self, rt: &impl Print, text: &mut [u8], place: usize) -> io::Result<()>
        requires { place < length text.old }
    {
        let own = text[place];
        for b in 0u8..=255 {
            text[place] = b;
            match read_stamp(text) {
                Ok(stamp) => write_read(rt, text, Ok(stamp))?,
                Err(reason) => self.add(reason),
            }
        }
        text[place] = own;
        Ok(())
    }
}

// The stamps among the texts with each byte at each place, and the counts.
pub(crate) fn write_changes<const N: usize>(rt: &impl Print, mut text: [u8; N]) -> io::Result<()> {
    let mut counts = Counts {
        outside: 0,
        no_stamp: 0,
        other: 0,
    };
    for place in 0..N {
        counts.take_place(rt, &mut text, place)?;
    }
    let Counts {
        outside,
        no_stamp,
        other,
    } = counts;
    println!(rt; "refused {outside} {no_stamp} {other}")
}
