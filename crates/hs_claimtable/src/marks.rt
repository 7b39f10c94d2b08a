// Who holds claims on a place.
ghost use Rattle.std.specs.Prelude.{◌≡◌, ◌==◌, ◌&&◌, ◌||◌, ℕ, not, Bool, false, true, OnOk, IsTrue};
ghost use Rattle.std.specs.Ordering.{is_eq};
ghost use Rattle.hs_claims.specs.Blockers.{has};
ghost use Rattle.hs_claims.specs.Session.{IsSession};
ghost use Rattle.hs_claimtable.specs.Marks.{no_marks, is_marked, marks_at};

use hs_base::{NoMemory, SessionNo};
use hs_claims::Blockers;
use std::collections::BTreeMap;

/// The sessions that hold a claim on a place, and those of them that hold an exclusive one.
#[derive(Clone, Copy, Debug)]
pub(crate) struct Marks {
    pub all: Blockers,
    pub exclusive: Blockers,
}

impl Marks {
    /// Nobody holds one.
    pub fn none() -> Marks
        ensures same { result ≡ no_marks }
        ensures none { (only : Bool) (s : ℕ) → is_marked only result s ≡ false }
    {
        Marks {
            all: Blockers(0),
            exclusive: Blockers(0),
        }
    }

    /// A session holds one more, which may be exclusive.
    pub fn with(self, session: SessionNo, exclusive: bool) -> Marks
        requires { IsSession session.0 }
        ensures { (only : Bool) (s : ℕ) → IsSession s → is_marked only result s ≡ (((not only || exclusive) && (s == session.0)) || is_marked only self s) }
    {
        let all = self.all.with(session);
        if exclusive {
            let exclusive = self.exclusive.with(session);
            return Marks { all, exclusive };
        }
        Marks {
            all,
            exclusive: self.exclusive,
        }
    }

    /// A session holds none any more.
    pub fn without(self, session: SessionNo) -> Marks
        requires { IsSession session.0 }
        ensures { (only : Bool) (s : ℕ) → IsSession s → is_marked only result s ≡ (not (s == session.0) && is_marked only self s) }
    {
        let all = self.all.without(session);
        let exclusive = self.exclusive.without(session);
        Marks { all, exclusive }
    }

    /// Those who are in the way of one who wants a claim there, which may be exclusive.
    pub fn against(self, exclusive: bool) -> Blockers
        ensures { (s : ℕ) → has result s ≡ is_marked (not exclusive) self s }
    {
        if exclusive {
            return self.all;
        }
        self.exclusive
    }

    /// Whether nobody holds one.
    pub fn is_empty(self) -> bool
        ensures { IsTrue result → (only : Bool) (s : ℕ) → IsSession s → is_marked only self s ≡ false }
    {
        if self.all.is_empty() {
            return self.exclusive.is_empty();
        }
        false
    }
}

/// The marks of a place, none where it isn't in the map.
pub(crate) fn marks_at<K: Ord>(places: &BTreeMap<K, Marks>, place: &K) -> Marks
    ensures { result ≡ marks_at K.cmp places.now place.now }
{
    match places.get(place) {
        Some(marks) => *marks,
        None => Marks::none(),
    }
}

/// Marks a place for a claim of a session. An `Err` is want of memory.
pub(crate) fn mark<K: Ord + Drop>(
    places: &mut BTreeMap<K, Marks>,
    place: K,
    session: SessionNo,
    exclusive: bool,
) -> Result<(), NoMemory>
    requires { IsSession session.0 }
    ensures { OnOk result ((only : Bool) (p : _) (s : ℕ) → IsSession s → is_marked only (marks_at K.cmp places.new p) s ≡ ((is_eq (K.cmp place p) && (not only || exclusive) && (s == session.0)) || is_marked only (marks_at K.cmp places.old p) s)) }
{
    let marks = marks_at(places, &place).with(session, exclusive);
    places.insert(place, marks)?;
    Ok(())
}

/// Takes the marks of a session from a place. Takes no memory.
pub(crate) fn unmark<K: Ord + Drop>(places: &mut BTreeMap<K, Marks>, place: &K, session: SessionNo)
    requires { IsSession session.0 }
    ensures { (only : Bool) (p : _) (s : ℕ) → IsSession s → is_marked only (marks_at K.cmp places.new p) s ≡ (not (is_eq (K.cmp place.now p) && (s == session.0)) && is_marked only (marks_at K.cmp places.old p) s) }
{
    if clear(places, place, session) {
        let _gone = places.remove(place);
    }
}

// Takes the marks of a session from a place, and says whether this left it in the map without marks.
fn clear<K: Ord>(places: &mut BTreeMap<K, Marks>, place: &K, session: SessionNo) -> bool
    requires { IsSession session.0 }
    ensures marks { (only : Bool) (p : _) (s : ℕ) → IsSession s → is_marked only (marks_at K.cmp places.new p) s ≡ (not (is_eq (K.cmp place.now p) && (s == session.0)) && is_marked only (marks_at K.cmp places.old p) s) }
    ensures left { IsTrue result → (only : Bool) (s : ℕ) → IsSession s → is_marked only (marks_at K.cmp places.new place.now) s ≡ false }
{
    let Some(marks) = places.get_mut(place) else {
        return false;
    };
    *marks = marks.without(session);
    marks.is_empty()
}
