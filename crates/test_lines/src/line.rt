// One line.
use super::escape::unescape;
use answer::answer;
use lexer::lex::lex;
use lexer::reading::Reading;
use phrase::gather::gather;
use std::io;
use test_print::answers::AnswerText;
use test_print::lexemes::LexemesText;
use test_print::reading::ChainText;
use text::now::now_of;

// The lexemes of a phrase, its reading and the lexemes taken, with a bar behind each: as many of the three as there are.
fn write_phrase(rt: &impl Print, reading: Reading, phrase: &[u8]) -> io::Result<()> {
    let mut codes = [0u64; 64];
    let mut starts = [0u8; 64];
    let Ok(n) = lex(reading, phrase, &mut codes, &mut starts) else {
        return Ok(());
    };
    print!(rt; "{}|", LexemesText(&codes[..n]))?;
    if let Ok(Some(read)) = gather(reading, &codes[..n], 0) {
        print!(rt; "{}|{}|", ChainText(read.chain), read.taken)?;
    }
    Ok(())
}

// `NOW|PHRASE`: only the first bar splits, and with no bar there is no phrase. Of a phrase 257 bytes are taken at most: more is refusal 1
// anyway.
pub(crate) fn write_line(rt: &impl Print, reading: Reading, line: &[u8]) -> io::Result<()> {
    let mut parts = line.splitn(2, |b| *b == b'|');
    let now = parts.next().unwrap_or(line);
    let spelled = parts.next().unwrap_or(&[]);
    let mut phrase = [0u8; 257];
    let n = unescape(spelled, &mut phrase);
    write_phrase(rt, reading, &phrase[..n])?;
    println!(rt;
        "{}",
        AnswerText(answer(reading, &phrase[..n], now_of(now)))
    )
}
