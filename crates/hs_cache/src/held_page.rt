// A page that is held, in memory of its own.
ghost use Rattle.std.specs.Prelude.{◌≡◌, false};
ghost use Rattle.hs_cache.specs.Held.{with_page, cleaned};

use crate::frames::Frame;
use hs_page::Page;
use std::marker::Model;

/// A frame whose page stands elsewhere in memory, so that the pages' numbers and marks stand close together and a
/// change of their order looks at no page.
#[derive(Drop)]
pub struct HeldPage {
    page: Box<Page>,
    dirty: bool,
}

impl Model for HeldPage {
    ghost use Rattle.hs_cache.specs.declared.frames.Frame.{Frame};

    ghost Value = { Frame };

    ghost view = { λ h. record { page = h.page.value; dirty = h.dirty } };
}

impl HeldPage {
    /// A page that isn't dirty, in this memory.
    pub fn new(memory: Box<Page>, page: Page) -> HeldPage
        ensures { result ≡ record { page = page; dirty = false } }
    {
        let mut memory = memory;
        *memory = page;
        HeldPage {
            page: memory,
            dirty: false,
        }
    }

    pub fn page(&self) -> &Page
        ensures { result.now ≡ self.now.page }
    {
        &self.page
    }

    pub fn is_dirty(&self) -> bool
        ensures { result ≡ self.now.dirty }
    {
        self.dirty
    }

    /// Puts another page in its place, which is dirty.
    pub fn set(&mut self, page: Page)
        ensures { self.new ≡ with_page page self.old }
    {
        *self.page = page;
        self.dirty = true;
    }

    pub fn clean(&mut self)
        ensures { self.new ≡ cleaned self.old }
    {
        self.dirty = false;
    }

    /// The page and its mark, without the memory of its own.
    pub fn into_frame(self) -> Frame
        ensures { result ≡ self }
    {
        Frame {
            page: Box::into_inner(self.page),
            dirty: self.dirty,
        }
    }
}
