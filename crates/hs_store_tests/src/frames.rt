// Three pages in two frames.
use hs_base::{PageNo, RowNo, TableNo};
use hs_cache::Frames;
use hs_page::Page;
use std::test::Fail;

// Holds a clean page, where it isn't held and a frame is free.
fn hold(frames: &mut Frames, p: u64) -> bool {
    if frames.is_full() {
        return false;
    }
    if frames.holds(PageNo(p)) {
        return false;
    }
    frames.add(PageNo(p), Page::empty()).is_ok()
}

// A page with a row.
fn page_with_row() -> Page {
    let mut page = Page::empty();
    if page.room() >= 1 {
        page.put(TableNo(1), RowNo(1), &[0]);
    }
    page
}

#[test]
fn pages_in_the_order_of_use(rt: HostRuntime) -> Result<(), Fail> {
    let mut frames = Frames::new(rt.alloc(), 2)?;
    assert!(rt; hold(&mut frames, 7) && hold(&mut frames, 8) && !hold(&mut frames, 9));
    assert_eq!(rt; frames.len(), 2);
    assert!(rt; frames.touch(PageNo(7)) && !frames.touch(PageNo(9)));
    assert!(rt; frames.first_dirty().is_none());
    if frames.holds(PageNo(8)) {
        frames.set(PageNo(8), page_with_row());
    }
    assert_eq!(rt; frames.first_dirty(), Some(PageNo(8)));
    assert_eq!(rt; frames.dirty_pages(rt.alloc())?.len(), 1);
    assert!(rt; frames.peek(PageNo(9)).is_none());
    match frames.peek(PageNo(8)) {
        Some(page) => assert_eq!(rt; page.slot_count(), 1),
        None => assert!(rt; false),
    }
    if frames.holds(PageNo(7)) {
        frames.clean(PageNo(7));
    }
    match frames.evict() {
        Some((p, page, dirty)) => assert!(rt; p == PageNo(8) && page.slot_count() == 1 && dirty),
        None => assert!(rt; false),
    }
    assert_eq!(rt; frames.len(), 1);
    Ok(())
}
