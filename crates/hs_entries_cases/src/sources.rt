// Inputs in memory.
use hs_casetext::{CaseFault, number_in};
use hs_memhost::{CallList, Images, MemHost};
use hs_values::Bytes;
use std::alloc::{AllocError, Global};

/// A host with this input, which is given in pieces of these lengths in turn. These calls fail.
pub fn source(
    alloc: Global,
    input: &[u8],
    pieces: Vec<usize>,
    failing: Vec<u64>,
) -> Result<MemHost, AllocError> {
    let input = Bytes::from_vec(input.to_vec(alloc)?);
    let failing = CallList::from_vec(failing);
    let mut source = MemHost::new(alloc, input, Images::new(alloc), false, failing);
    source.give_in_pieces(pieces);
    Ok(source)
}

/// The numbers of a text, with commas between them.
pub fn numbers_in(alloc: Global, text: &str) -> Result<Vec<usize>, CaseFault> {
    let mut numbers = Vec::new(alloc);
    for number in text.split(',') {
        if numbers.push(number_in(number)? as usize).is_err() {
            return Err(CaseFault::NoMemory);
        }
    }
    Ok(numbers)
}
