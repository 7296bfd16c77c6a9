// The clause program: reads a book from standard input and prints all blocks of its clause file, or the one line `refused N at P`.
#![tactic(auto)]

ghost use Rattle.std.specs.Prelude.{◌≡◌, ◌≤◌, length, drop, IfOk};
ghost use Rattle.book.specs.BookOf.{book_of};
ghost use Rattle.clauses.specs.File.{file_blocks};
ghost use Rattle.clause_file.specs.Filling.{fitting, FilledWith};

use blocks::writing::write_read_block;
use book::read::ReadBook;
use full_read::read_full;
use reply::Refusal;
use reply_lines::write_refused;
use std::io;

// Blocks laid into a buffer: how many bytes they have, and the number of the block behind them.
#[derive(Drop)]
pub struct Filled {
    pub length: usize,
    pub next: usize,
}

// Lays blocks one behind another, from this number on, as long as there are blocks and 512 bytes of room.
fn fill(book: &ReadBook, first: usize, out: &mut [u8]) -> Filled
    ensures { FilledWith (fitting (length out.old) (drop first (file_blocks (book_of book.now)))) first result
        out.old out.new }
{
    let mut at = 0;
    let mut next = first;
    // No range: where the blocks end only the call tells.
    while let Ok(length) = write_read_block(book, next, &mut out[at..]) {
        at += length;
        next += 1;
    }
    Filled { length: at, next }
}

// Prints all blocks, a buffer at a time, and answers how many they are.
fn print_file(rt: &impl Print, book: &ReadBook, out: &mut [u8]) -> io::Result<usize>
    requires { 512 ≤ length out.old }
    ensures { IfOk result (λ many. many ≡ length (file_blocks (book_of book.now))) }
{
    let mut number = 0;
    // No range: a buffer that stays empty is the end, and each is printed before the next is laid.
    loop {
        let filled = fill(book, number, out);
        if filled.next == number {
            return Ok(number);
        }
        rt.write_all(&out[..filled.length])?;
        number = filled.next;
    }
}

// Why a book cannot be read.
fn print_refused(rt: &impl Print, refusal: Refusal) -> io::Result<()> {
    let mut out = [0u8; 64];
    let n = write_refused(refusal, &mut out);
    rt.write_all(&out[..n])
}

fn print_blocks(rt: &impl Print, book: &ReadBook) -> io::Result<()> {
    let mut out = [0u8; 65536];
    print_file(rt, book, &mut out)?;
    Ok(())
}

// What is printed for the bytes of a book.
fn print_for(rt: &impl Print, bytes: &[u8]) -> io::Result<()> {
    match book::read_book(bytes) {
        Ok(places) => print_blocks(rt, &ReadBook { bytes, places }),
        Err(refusal) => print_refused(rt, refusal),
    }
}

// The longest book has 1,345 bytes: 16 symbols of 2, 32 rules of 41 and the end. One byte more is enough of any input: the first 1,346
// bytes decide what is printed (proofs/LongestBook, `first_bytes_printed`).
fn main(rt: HostRuntime) -> io::Result<()> {
    let mut bytes = [0u8; 1346];
    let length = read_full(&mut rt.stdin(), &mut bytes)?;
    print_for(&rt, &bytes[..length])
}
