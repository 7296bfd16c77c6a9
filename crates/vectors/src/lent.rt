// A buffer that is lent to a call.
use crate::{fields, show};
use reply::Refusal;
use std::io;

// Every byte has this value before a call, so that each byte that the call wrote shows.
const BEFORE: u8 = 238;

// The buffer, and how many of its first bytes the call may write: at most all of them.
#[derive(Clone, Copy)]
pub(crate) struct Lent {
    bytes: [u8; 600],
    wanted: u64,
}

impl Lent {
    pub(crate) fn new(wanted: u64) -> Lent {
        Lent {
            bytes: [BEFORE; 600],
            wanted,
        }
    }

    pub(crate) fn room(&mut self) -> &mut [u8] {
        fields::room(self.wanted, &mut self.bytes)
    }

    // What the call laid: so many bytes.
    pub(crate) fn laid(&self, told: usize) -> &[u8] {
        &self.bytes[..told.min(self.bytes.len())]
    }

    // Shows whether the call kept the bytes behind those that it laid.
    pub(crate) fn show_later(&self, rt: &impl Print, told: usize) -> io::Result<()> {
        let later = &self.bytes[told.min(self.bytes.len())..];
        if later.iter().all(|byte| *byte == BEFORE) {
            rt.write_all(b", later bytes kept")
        } else {
            rt.write_all(b", changed")
        }
    }

    // Shows the refusal of the call.
    pub(crate) fn show_refused(&self, rt: &impl Print, refusal: Refusal) -> io::Result<()> {
        show::refused(rt, refusal)?;
        self.show_later(rt, 0)
    }
}
