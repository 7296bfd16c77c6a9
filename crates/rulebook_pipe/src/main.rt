// Requests from standard input, replies to standard output, one after the other until the input ends. A request is a line
//
//     CALL NUMBER LENGTH LENGTH LENGTH
//
// and then so many bytes of each of its three parts. CALL is a letter; parts that a call does not name have the length 0, and a number
// that it does not name is 0.
//
//     c   check ranks: the book, the ranks
//     a   ranks from an answer: the book, the answer
//     r   run: the book, the ranks, the record; NUMBER is the budget
//     n   the next step: the book, the ranks, the record
//     q   argument question: the book, nothing, the record; NUMBER is the argument's, from 0
//     s   the book's symbols and rules: the book
//
// A reply is the one line `refused N at P`, or the lines of its call in replies.rt. Another letter is answered by the line `not a request`;
// so is a header without its four numbers, and that is the end. Where the input ends before all bytes of a request's parts have come, the
// line `cut off` says so, and there is no reply.
#![tactic(auto)]

mod parts;
mod replies;

use replies::Request;
use std::io;
use std::io::{IsTerminal, Read};
use std::ops::ControlFlow;
use words::grown;

// The next byte; none at the end of the input.
fn next_byte(input: &mut impl Read) -> io::Result<Option<u8>> {
    input.by_ref().bytes().next().transpose()
}

// A number of the header below 2^64: the digits up to the next byte that is none; that byte is passed over too.
fn read_number(input: &mut impl Read) -> io::Result<Option<usize>> {
    let mut value = None;
    for _ in 0..21 {
        let Some(digit @ b'0'..=b'9') = next_byte(input)? else {
            return Ok(value);
        };
        let Some(more) = grown(value.unwrap_or(0), digit, usize::MAX) else {
            return Ok(None);
        };
        value = Some(more);
    }
    Ok(None)
}

// Writes the reply to a request. The longest, of a full book's rules, has fewer than 8,192 bytes.
fn answer(
    output: &impl Print,
    screen: &(impl Print + IsTerminal),
    request: &Request,
) -> io::Result<()> {
    let mut out = [0u8; 8192];
    let n = request.lay_reply(screen, &mut out);
    output.write_all(&out[..n])
}

// Answers the request whose parts have these lengths; it goes on if all of them came. Of each part only the first bytes are kept: one byte
// more than any book, answer or record that is taken has. What lies behind them changes no reply. A book of more than 1,345 bytes is refused
// at a record that stands within its first 1,346 (clause_file's proofs/LongestBook). An answer of more than 65,536 bytes is refused by 12,
// ranks as many as that by 7, a record of more than 513 by 11, whatever the bytes are.
fn answer_to(
    input: &mut impl Read,
    output: &impl Print,
    screen: &(impl Print + IsTerminal),
    call: u8,
    number: u64,
    lengths: [usize; 3],
) -> io::Result<ControlFlow<()>> {
    let mut book_space = [0u8; 1346];
    let mut text_space = [0u8; 65537];
    let mut record_space = [0u8; 514];
    let book = parts::read_part(input, lengths[0], &mut book_space)?;
    let text = parts::read_part(input, lengths[1], &mut text_space)?;
    let record = parts::read_part(input, lengths[2], &mut record_space)?;
    let (Some(book), Some(text), Some(record)) = (book, text, record) else {
        output.write_all(b"cut off\n")?;
        return Ok(ControlFlow::Break(()));
    };
    let request = Request {
        call,
        number,
        book,
        text,
        record,
    };
    answer(output, screen, &request)?;
    Ok(ControlFlow::Continue(()))
}

// One request. The input ends behind what is no request, and a byte 0 in place of a call is such an end.
fn answer_next(
    input: &mut impl Read,
    output: &impl Print,
    screen: &(impl Print + IsTerminal),
) -> io::Result<ControlFlow<()>> {
    let Some(call @ 1..) = next_byte(input)? else {
        return Ok(ControlFlow::Break(()));
    };
    next_byte(input)?;
    let mut numbers = [0; 4];
    for number in &mut numbers {
        let Some(given) = read_number(input)? else {
            output.write_all(b"not a request\n")?;
            return Ok(ControlFlow::Break(()));
        };
        *number = given;
    }
    let [number, book, text, record] = numbers;
    answer_to(
        input,
        output,
        screen,
        call,
        number as u64,
        [book, text, record],
    )
}

// A proved loop has to end, and nothing says that the input does: the turns are counted up to a number that no run uses up. Nothing is kept
// back: each reply is written before the next request is read, and no more is read than the request has.
fn main(rt: HostRuntime) -> io::Result<()> {
    let mut input = rt.stdin();
    let output = rt.stdout();
    let screen = rt.stderr();
    for _ in 0..u64::MAX {
        if answer_next(&mut input, &output, &screen)?.is_break() {
            break;
        }
    }
    Ok(())
}
