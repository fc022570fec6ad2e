// What a text is read as, printed.
use refusals::Reason;
use stamp::read::read_stamp;
use stamp::{Offset, Stamp};
use std::{fmt, io};

// The nine numbers of a stamp, or ` refused 14`.
#[derive(Clone, Copy)]
struct ReadText(Result<Stamp, Reason>);

impl fmt::Display for ReadText {
    fn fmt<W: fmt::Write>(&self, f: &mut fmt::Formatter<W>) -> fmt::Result {
        match self.0 {
            Ok(Stamp { moment, offset }) => {
                for n in <[u32; 7]>::from(moment) {
                    write!(f, " {n}")?;
                }
                let Offset { west, minutes } = offset;
                write!(f, " {west} {minutes}")
            }
            Err(reason) => write!(f, " refused {}", reason.number()),
        }
    }
}

// A text, and what it was read as.
pub(crate) fn write_read(
    rt: &impl Print,
    text: &[u8],
    read: Result<Stamp, Reason>,
) -> io::Result<()> {
    rt.write_all(text)?;
    println!(rt; "{}", ReadText(read))
}

// A text, and what it is read as.
pub(crate) fn write_line(rt: &impl Print, text: &[u8]) -> io::Result<()> {
    write_read(rt, text, read_stamp(text))
}
