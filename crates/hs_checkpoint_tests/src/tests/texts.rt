// Groups that are given from a list.
ghost use Rattle.std.specs.Prelude.{◌≡◌, ℕ, List, map};

use hs_anew::Stand;
use std::alloc::{AllocError, Global};
use std::collections::VecDeque;
use std::mem;

/// Payloads, each given in pieces of so many bytes.
#[derive(Drop)]
pub struct Texts {
    payloads: VecDeque<Vec<u8>>,
    hand: Vec<u8>,
    size: usize,
}

impl Texts {
    /// These payloads.
    pub fn new(alloc: Global, payloads: &[&str], size: usize) -> Result<Texts, AllocError> {
        let mut list = VecDeque::new(alloc);
        for payload in payloads {
            list.push_back(payload.as_bytes().to_vec(alloc)?)?;
        }
        Ok(Texts {
            payloads: list,
            hand: Vec::new(alloc),
            size,
        })
    }
}

impl Stand for Texts {
    ghost groups = { λ t. map (λ v. v.items) t.payloads.items };

    ghost rest = { λ t. t.hand.items };

    fn next_group(&mut self) -> Result<bool, AllocError> {
        match self.payloads.pop_front() {
            Some(payload) => {
                self.hand = payload;
                Ok(true)
            }
            None => Ok(false),
        }
    }

    fn next_piece(&mut self, piece: &mut Vec<u8>) -> Result<(), AllocError> {
        let count = self.size.min(self.hand.len()).max(1).min(self.hand.len());
        let tail = self.hand.split_off(count)?;
        mem::swap(piece, &mut self.hand);
        self.hand = tail;
        Ok(())
    }
}
