// Frames of pages.
ghost use Rattle.std.specs.Prelude.{◌≡◌, ◌∷◌, [], ℕ, ◌+◌, ◌-◌, ◌<◌, ◌≤◌, ◌↔◌, IsTrue, is_some, is_none, true, false, length, map, take, nat_eq, nat_le, Some, None, option_copied, option_map, IfOk, OnOk, OnErr};
ghost use Rattle.std.specs.List.{IsDistinct};
ghost use Rattle.std.specs.Map.{keys_of};
ghost use Rattle.lru.specs.LruCache.{promoted, last_entry};
ghost use Rattle.hs_cache.specs.Held.{frame_of, changed, with_page, cleaned, first_dirty, dirty_pages};

use crate::held_page::HeldPage;
use crate::spare_pages::SparePages;
use hs_base::{NoMemory, PageNo};
use hs_page::Page;
use lru::LruCache;
use std::alloc::Global;
use std::marker::Model;
use std::num::NonZeroUsize;

/// A page that is held, and whether it differs from the one in the file.
#[derive(Clone, Copy)]
pub struct Frame {
    pub page: Page,
    pub dirty: bool,
}

/// The pages that are held, at most as many as the limit. Contracts see them as a list, the most recently used first.
#[derive(Drop)]
pub struct Frames {
    cache: LruCache<u64, HeldPage>,
    spare: SparePages,
}

impl Model for Frames {
    ghost use Rattle.hs_cache.specs.Held.{Held};

    ghost Value = { Held };

    ghost view = { λ f. record { pages = f.cache.entries; limit = f.cache.cap } };
}

// The number of the most recently used page that is dirty.
fn first_dirty(cache: &LruCache<u64, HeldPage>) -> Option<u64>
    ensures { result ≡ first_dirty cache.now.entries }
{
    for (p, held) in cache.iter() {
        if held.is_dirty() {
            return Some(*p);
        }
    }
    None
}

// The numbers of all dirty pages, in the order of use.
fn dirty_pages(alloc: Global, cache: &LruCache<u64, HeldPage>) -> Result<Vec<PageNo>, NoMemory>
    ensures { IfOk result (λ pages. map (λ p. p.0) pages.items ≡ dirty_pages cache.now.entries) }
{
    let mut pages = Vec::new(alloc);
    for (p, held) in cache.iter() {
        if held.is_dirty() {
            pages.push(PageNo(*p))?;
        }
    }
    Ok(pages)
}

impl Frames {
    /// No pages, with place for `limit`.
    pub fn new(alloc: Global, limit: usize) -> Result<Frames, NoMemory>
        requires { 0 < limit }
        ensures pages { IfOk result (λ frames. frames.pages ≡ []) }
        ensures limit { IfOk result (λ frames. frames.limit ≡ limit) }
    {
        let limit = NonZeroUsize::new(limit).unwrap_or(NonZeroUsize::MIN);
        Ok(Frames {
            cache: LruCache::new(alloc, limit)?,
            spare: SparePages::new(alloc),
        })
    }

    /// The number of pages that are held, which is never above the limit.
    pub fn len(&self) -> usize
        ensures len { result ≡ length self.now.pages }
        ensures within { length self.now.pages ≤ self.now.limit }
        ensures distinct { IsDistinct nat_eq (keys_of self.now.pages) }
    {
        self.cache.len()
    }

    /// Whether each frame has a page, so that none can be added.
    pub fn is_full(&self) -> bool
        ensures { result ≡ nat_le self.now.limit (length self.now.pages) }
    {
        self.cache.len() >= self.cache.cap().get()
    }

    /// Whether page p is held. The order of use stays.
    pub fn holds(&self, p: PageNo) -> bool
        ensures { result ≡ is_some (frame_of p.0 self.now.pages) }
    {
        self.cache.contains(&p.0)
    }

    /// Whether page p is held, which is then the most recently used.
    pub fn touch(&mut self, p: PageNo) -> bool
        ensures held { result ≡ is_some (frame_of p.0 self.old.pages) }
        ensures order { self.new.pages ≡ promoted (nat_eq p.0) self.old.pages }
        ensures limit { self.new.limit ≡ self.old.limit }
    {
        self.cache.promote(&p.0)
    }

    /// Page p, borrowed, None exactly where it isn't held.
    pub fn peek(&self, p: PageNo) -> Option<&Page>
        ensures { option_copied result ≡ option_map (λ frame. frame.page) (frame_of p.0 self.now.pages) }
    {
        match self.cache.peek(&p.0) {
            Some(held) => Some(held.page()),
            None => None,
        }
    }

    /// Puts this page in the place of page p, which is held, and dirty from then on.
    pub fn set(&mut self, p: PageNo, page: Page)
        requires { is_some (frame_of p.0 self.old.pages) ≡ true }
        ensures pages { self.new.pages ≡ changed p.0 (with_page page) self.old.pages }
        ensures limit { self.new.limit ≡ self.old.limit }
    {
        if let Some(held) = self.cache.peek_mut(&p.0) {
            held.set(page);
        }
    }

    /// The most recently used page that is dirty, None exactly where none is. It looks at the pages in front of it, so
    /// what goes over all dirty pages takes `dirty_pages`.
    pub fn first_dirty(&self) -> Option<PageNo>
        ensures { option_map (λ p. p.0) result ≡ first_dirty self.now.pages }
    {
        match first_dirty(&self.cache) {
            Some(p) => Some(PageNo(p)),
            None => None,
        }
    }

    /// All dirty pages, the most recently used first, found in one pass.
    pub fn dirty_pages(&self, alloc: Global) -> Result<Vec<PageNo>, NoMemory>
        ensures { IfOk result (λ pages. map (λ p. p.0) pages.items ≡ dirty_pages self.now.pages) }
    {
        dirty_pages(alloc, &self.cache)
    }

    /// Page p, which is held, is dirty no more.
    pub fn clean(&mut self, p: PageNo)
        requires { is_some (frame_of p.0 self.old.pages) ≡ true }
        ensures pages { self.new.pages ≡ changed p.0 cleaned self.old.pages }
        ensures limit { self.new.limit ≡ self.old.limit }
    {
        if let Some(held) = self.cache.peek_mut(&p.0) {
            held.clean();
        }
    }

    /// Holds page p, which isn't held, where there is a free frame. It is the most recently used then, and not dirty.
    /// After an Err the pages are as they were.
    pub fn add(&mut self, p: PageNo, page: Page) -> Result<(), NoMemory>
        requires new { is_some (frame_of p.0 self.old.pages) ≡ false }
        requires free { length self.old.pages < self.old.limit }
        ensures ok { OnOk result (self.new.pages ≡ (p.0, record { page = page; dirty = false }) ∷ self.old.pages) }
        ensures err { OnErr result (self.new.pages ≡ self.old.pages) }
        ensures limit { self.new.limit ≡ self.old.limit }
    {
        let held = self.cache.len();
        let free = self.cache.cap().get().saturating_sub(held);
        let memory = self.spare.take(free.min(held.saturating_add(1)))?;
        self.cache.put(p.0, HeldPage::new(memory, page))?;
        Ok(())
    }

    /// Takes out the least recently used page and hands it out with its dirty mark, None exactly where none is held.
    pub fn evict(&mut self) -> Option<(PageNo, Page, bool)>
        ensures last { result ≡ option_map (λ e. (record { 0 = e.0 }, e.1.page, e.1.dirty)) (last_entry self.old.pages) }
        ensures rest { self.new.pages ≡ take (length self.old.pages - 1) self.old.pages }
        ensures limit { self.new.limit ≡ self.old.limit }
    {
        let (p, held) = self.cache.pop_lru()?;
        let frame = held.into_frame();
        Some((PageNo(p), frame.page, frame.dirty))
    }
}
