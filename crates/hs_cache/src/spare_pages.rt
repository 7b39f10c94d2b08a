// Memory for pages, before they are held.
use hs_base::NoMemory;
use hs_page::Page;
use std::alloc::Global;

// The greatest number of pages for which memory is taken at once.
const MOST_AT_ONCE: usize = 1024;

/// Memory for pages that aren't held yet. It is taken for several at once, so that these stand together, and what is
/// kept of the order of use stands together between them.
#[derive(Drop)]
pub struct SparePages {
    boxes: Vec<Box<Page>>,
    alloc: Global,
}

impl SparePages {
    pub fn new(alloc: Global) -> SparePages {
        SparePages {
            boxes: Vec::new(alloc),
            alloc,
        }
    }

    /// Takes memory for so many pages more, and at most for `MOST_AT_ONCE`.
    fn make(&mut self, count: usize) -> Result<(), NoMemory> {
        for _page in 0..count.min(MOST_AT_ONCE) {
            self.boxes.push(Box::new(self.alloc, Page::empty())?)?;
        }
        Ok(())
    }

    /// Memory for one page. Where none is left, it is taken for so many.
    pub fn take(&mut self, count: usize) -> Result<Box<Page>, NoMemory> {
        if self.boxes.is_empty() {
            self.make(count)?;
        }
        match self.boxes.pop() {
            Some(memory) => Ok(memory),
            None => Ok(Box::new(self.alloc, Page::empty())?),
        }
    }
}
