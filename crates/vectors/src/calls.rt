// The calls, each shown with its reply.
use crate::lent::Lent;
use crate::show;
use book::Book;
use reply::Refusal;
use running::Outcome;
use std::io;

pub(crate) fn book(rt: &impl Print, book: &[u8]) -> io::Result<()> {
    match book::read_book(book) {
        Ok(read) => print!(rt; "read, {} symbols, {} rules", read.symbols, read.rules),
        Err(refusal) => show::refused(rt, refusal),
    }
}

pub(crate) fn record(rt: &impl Print, book: &[u8], record: &[u8]) -> io::Result<()> {
    let Book {
        symbols,
        arities,
        ..
    } = book::read_book(book).unwrap_or_default();
    match record::read_record(record, symbols, arities) {
        Ok(nodes) => print!(rt; "read, {nodes} nodes"),
        Err(fault) => show::refused(rt, Refusal::from(fault)),
    }
}

pub(crate) fn block(rt: &impl Print, book: &[u8], number: u64, lent: &mut Lent) -> io::Result<()> {
    match blocks::write_block(book, number, lent.room()) {
        Ok(length) => {
            show::lines(rt, lent.laid(length))?;
            lent.show_later(rt, length)
        }
        Err(refusal) => lent.show_refused(rt, refusal),
    }
}

pub(crate) fn ranks(rt: &impl Print, book: &[u8], ranks: &[u8]) -> io::Result<()> {
    match clearing::check_ranks(book, ranks) {
        Ok(()) => rt.write_all(b"accepted"),
        Err(refusal) => show::refused(rt, refusal),
    }
}

pub(crate) fn answer(rt: &impl Print, book: &[u8], text: &[u8], lent: &mut Lent) -> io::Result<()> {
    match answer::ranks_from_answer(book, text, lent.room()) {
        Ok(symbols) => {
            rt.write_all(b"ranks ")?;
            show::bytes(rt, lent.laid(symbols))?;
            lent.show_later(rt, symbols)
        }
        Err(refusal) => lent.show_refused(rt, refusal),
    }
}

pub(crate) fn run(
    rt: &impl Print,
    book: &[u8],
    ranks: &[u8],
    record: &[u8],
    budget: u64,
    lent: &mut Lent,
) -> io::Result<()> {
    match running::run(book, ranks, record, budget, lent.room()) {
        Ok(ran) => {
            let how = match ran.outcome {
                Outcome::Done => "done",
                Outcome::Spent => "spent",
                Outcome::TooLarge => "too large",
            };
            print!(rt; "{how}, {} steps, ", ran.steps)?;
            show::bytes(rt, lent.laid(ran.length))?;
            lent.show_later(rt, ran.length)
        }
        Err(refusal) => lent.show_refused(rt, refusal),
    }
}

// The part, then where it starts or, by "a second question on the same input", the refusal's number.
pub(crate) fn argument(rt: &impl Print, book: &[u8], record: &[u8], number: u64) -> io::Result<()> {
    show::bytes(rt, asking::argument(book, record, number))?;
    match asking::argument_reply(book, record, number) {
        Ok(found) => print!(rt; " from {}", found.start),
        Err(refusal) => {
            rt.write_all(b", ")?;
            show::refused(rt, refusal)
        }
    }
}
