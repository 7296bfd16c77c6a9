// The rows: each is a call, told by its first two letters, and is shown with its reply.
use crate::lent::Lent;
use crate::{calls, fields};
use std::io;

// record RECORD
fn record(rt: &impl Print, words: &[u8], book: &[u8]) -> io::Result<()> {
    let mut record = [0u8; 1024];
    calls::record(rt, book, fields::bytes(words, &mut record))
}

// block NUMBER ROOM
fn block(rt: &impl Print, words: &[u8], book: &[u8]) -> io::Result<()> {
    let mut lent = Lent::new(fields::number(fields::rest(words)));
    calls::block(rt, book, fields::number(words), &mut lent)
}

// ranks RANKS
fn ranks(rt: &impl Print, words: &[u8], book: &[u8]) -> io::Result<()> {
    let mut ranks = [0u8; 64];
    calls::ranks(rt, book, fields::bytes(words, &mut ranks))
}

// run RANKS RECORD BUDGET ROOM
fn run(rt: &impl Print, words: &[u8], book: &[u8]) -> io::Result<()> {
    let mut ranks = [0u8; 64];
    let mut record = [0u8; 1024];
    let behind = fields::rest(words);
    let last = fields::rest(behind);
    let mut lent = Lent::new(fields::number(fields::rest(last)));
    calls::run(
        rt,
        book,
        fields::bytes(words, &mut ranks),
        fields::bytes(behind, &mut record),
        fields::number(last),
        &mut lent,
    )
}

// argument RECORD NUMBER
fn argument(rt: &impl Print, words: &[u8], book: &[u8]) -> io::Result<()> {
    let mut record = [0u8; 1024];
    let number = fields::number(fields::rest(words));
    calls::argument(rt, book, fields::bytes(words, &mut record), number)
}

// answer ROOM TEXT
fn answer(rt: &impl Print, words: &[u8], book: &[u8]) -> io::Result<()> {
    let mut space = [0u8; 4096];
    let text = fields::text(fields::rest(words), &mut space);
    calls::answer(rt, book, text, &mut Lent::new(fields::number(words)))
}

// long ROOM LENGTH TEXT: the text, then c up to a length of so many bytes.
fn long(rt: &impl Print, words: &[u8], book: &[u8]) -> io::Result<()> {
    let mut space = [b'c'; 65600];
    let behind = fields::rest(words);
    fields::text(fields::rest(behind), &mut space);
    let text = fields::room(fields::number(behind), &mut space);
    calls::answer(rt, book, text, &mut Lent::new(fields::number(words)))
}

// A row under this book, with its reply; a line that starts with `#` is a remark.
fn show_row(rt: &impl Print, row: &[u8], book: &[u8]) -> io::Result<()> {
    rt.write_all(row)?;
    if let [] | [_] | [b'#', ..] = row {
        return Ok(());
    }
    rt.write_all(b": ")?;
    let words = fields::rest(row);
    match row {
        [b'l', ..] => long(rt, words, book),
        [_, b'o', ..] => calls::book(rt, book),
        [_, b'e', ..] => record(rt, words, book),
        [_, b'l', ..] => block(rt, words, book),
        [_, b'a', ..] => ranks(rt, words, book),
        [_, b'u', ..] => run(rt, words, book),
        [_, b'r', ..] => argument(rt, words, book),
        [_, b'n', ..] => answer(rt, words, book),
        _ => rt.write_all(b"no such row"),
    }
}

// "book BOOK" gives the book of this row and of the rows below it, up to the next: it is read once, into a buffer.
pub(crate) fn show_all(rt: &impl Print, rows: &[u8]) -> io::Result<()> {
    let mut book = [0u8; 4096];
    let mut size = 0;
    for line in rows.split_inclusive(|byte| *byte == b'\n') {
        let row = line.strip_suffix(b"\n").unwrap_or(line);
        if let [_, _, _, b'k', b' ', ..] = row {
            size = fields::bytes(fields::rest(row), &mut book).len() as u64;
        }
        show_row(rt, row, fields::room(size, &mut book))?;
        rt.write_all(b"\n")?;
    }
    Ok(())
}
