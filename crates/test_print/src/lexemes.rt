// The Rust's names of lexemes.
use lexer::lexeme::NUM;
use std::fmt;

// `enum Lexeme` but for Num, in the order of the codes: nothing, one to nineteen, the tens, then from A on in the enum's order.
#[rattlefmt::skip]
static NAMES: [&str; 89] = [
    "?", "One", "Two", "Three", "Four", "Five", "Six", "Seven", "Eight", "Nine",
    "Ten", "Eleven", "Twelve", "Thirteen", "Fourteen", "Fifteen", "Sixteen", "Seventeen", "Eighteen", "Nineteen",
    "Twenty", "Thirty", "Fourty", "Fifty", "Sixty", "Seventy", "Eighty", "Ninety", "A", "An",
    "On", "In", "At", "The", "Dash", "Today", "Tomorrow", "Yesterday", "From", "Now",
    "And", "Comma", "Colon", "Dot", "After", "This", "Next", "Monday", "Tuesday", "Wednesday",
    "Thursday", "Friday", "Saturday", "Sunday", "January", "February", "March", "April", "May", "June",
    "July", "August", "September", "October", "November", "December", "AM", "PM", "Day", "Week",
    "Hour", "Minute", "Month", "Year", "Slash", "Before", "Ago", "Midnight", "Noon", "Zero",
    "Hundred", "Thousand", "Million", "Billion", "Last", "ST", "ND", "RD", "TH",
];

// A lexeme by its code.
#[derive(Clone, Copy)]
pub struct LexemeText(pub u64);

impl fmt::Display for LexemeText {
    fn fmt<W: fmt::Write>(&self, f: &mut fmt::Formatter<W>) -> fmt::Result {
        let row = match self.0 {
            code if NUM <= code => return write!(f, "Num({})", code % NUM),
            code if code < 20 => code,
            code if code < 100 => 18 + code / 10,
            code => code - 72,
        };
        f.write_str(NAMES.get(row as usize).copied().unwrap_or(""))
    }
}

// Lexemes, with a blank between them.
#[derive(Clone, Copy)]
pub struct LexemesText<'a>(pub &'a [u64]);

impl fmt::Display for LexemesText<'_> {
    fn fmt<W: fmt::Write>(&self, f: &mut fmt::Formatter<W>) -> fmt::Result {
        for (i, code) in self.0.iter().enumerate() {
            let blank = if i == 0 { "" } else { " " };
            write!(f, "{blank}{}", LexemeText(*code))?;
        }
        Ok(())
    }
}
