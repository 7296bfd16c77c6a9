// A reply for each call: the library's own, laid down as lines of text.
ghost use Rattle.std.specs.Prelude.{◌≤◌, length};

use book_lines::write_book;
use reply_lines::{write_ranks, write_verdict};
use run_lines::{write_part, write_ran, write_step};
use std::io::IsTerminal;
use term::Terms;
use text::writing::write_text;

// A request: the letter of its call, its number and its parts.
#[derive(Clone, Copy)]
pub struct Request<'a> {
    pub call: u8,
    pub number: u64,
    pub book: &'a [u8],
    pub text: &'a [u8],
    pub record: &'a [u8],
}

impl Request<'_> {
    // Terms in these bytes, with the arities of the book's symbols.
    fn terms<'a>(&self, bytes: &'a [u8]) -> Terms<'a> {
        let arities = book::read_book(self.book).unwrap_or_default().arities;
        Terms { bytes, arities }
    }

    // `cleared`, then `ranks` and the rank of each symbol.
    fn lay_ranks(&self, out: &mut [u8]) -> usize
        ensures { result ≤ length out.old }
    {
        let mut ranks = [0u8; 16];
        let answered = answer::ranks_from_answer(self.book, self.text, &mut ranks);
        write_ranks(answered, &ranks, out)
    }

    // How the run ended, its steps and the term reached, its record's bytes with it.
    fn lay_run(&self, screen: &(impl Print + IsTerminal), out: &mut [u8]) -> usize
        ensures { result ≤ length out.old }
    {
        let mut reached = [0u8; 513];
        let ran = slices::run(
            screen,
            self.book,
            self.text,
            self.record,
            self.number,
            &mut reached,
        );
        write_ran(ran, &self.terms(&reached), out)
    }

    // Where the argument starts in the record, and the argument.
    fn lay_argument(&self, out: &mut [u8]) -> usize
        ensures { result ≤ length out.old }
    {
        let found = asking::argument_reply(self.book, self.record, self.number);
        let part = asking::argument(self.book, self.record, self.number);
        write_part(found, &self.terms(part), out)
    }

    // Lays the reply.
    pub fn lay_reply(&self, screen: &(impl Print + IsTerminal), out: &mut [u8]) -> usize
        ensures { result ≤ length out.old }
    {
        match self.call {
            b'c' => write_verdict(clearing::check_ranks(self.book, self.text), out),
            b'a' => self.lay_ranks(out),
            b'r' => self.lay_run(screen, out),
            b'n' => {
                let next = next_step::next_step(self.book, self.text, self.record);
                write_step(next, out)
            }
            b'q' => self.lay_argument(out),
            b's' => write_book(self.book, out),
            _ => write_text(b"not a request\n", out),
        }
    }
}
