// What makes commits again and takes turns.
ghost use Rattle.std.specs.Prelude.{◌≡◌, ◌<◌, ◌^◌, true, false, IfOk};
ghost use Rattle.hs_program.specs.Lawful.{IsLawful, IsReady, IsSound, IsStanding};
ghost use Rattle.hs_program.specs.Meaning.{Meaning, Opened, nothing_logged};
ghost use Rattle.hs_program.specs.Opening.{MakesOnly};

use hs_run::Turns;
use hs_values::Name;
use std::alloc::{AllocError, Global};

/// What a database is to a run: it makes commits again from their texts, and then takes turns.
pub trait Engine {
    /// What takes turns over it.
    type Work: Turns + Drop;

    /// What texts make of it, and what is ahead of a run over it.
    ghost meaning: { Meaning };

    /// It stands for what some texts made.
    ghost stands_for: { Self → Opened → Type 0 };

    /// A database before any commit. Takes no memory.
    fn new(alloc: Global) -> Self
        ensures { stands_for result (nothing_logged meaning) };

    /// The session of the last commit, and none where there is none.
    fn last(&self) -> Option<u32>
        ensures { (opened : Opened) → stands_for self.now opened → result ≡ opened.last };

    /// Makes a commit again from its text, and answers whether that could be done. Where it could, the text makes this and nothing else.
    /// Where it couldn't, the text makes nothing. Then, and after an `Err`, which is want of memory, nothing is known of this.
    fn redo(&mut self, text: &[u8]) -> Result<bool, AllocError>
        requires stands { (standing : IsStanding meaning stands_for self.old) × (standing.opened.commits < 2 ^ 63) }
        ensures made { IfOk result (λ made. made ≡ true → (opened : Opened) → stands_for self.old opened → (next : Opened) × (MakesOnly meaning opened text.now next × stands_for self.new next)) }
        ensures none { IfOk result (λ made. made ≡ false → (opened : Opened) → stands_for self.old opened → (next : Opened) → ¬ (meaning.Redone opened text.now next)) };

    /// The name of the first constraint that it violates, and none where it violates none. An `Err` is want of memory.
    fn judge(&self) -> Result<Option<Name>, AllocError>
        requires stands { IsStanding meaning stands_for self.now }
        ensures { (opened : Opened) → stands_for self.now opened → IfOk result (λ name. name ≡ meaning.violated opened) };

    /// What takes turns over it, where no constraint is violated and the log has so many bytes before the one that ends it. Takes no memory.
    fn turns(self, size: u64) -> Self::Work
        requires ready { IsReady meaning stands_for self }
        ensures ahead { (opened : Opened) → stands_for self opened → IsSound meaning opened → Self.Work.has_ahead result (meaning.future opened size) };

    /// What is told of commits is true, and what is made can be made again and violates no constraint. That each text makes one
    /// thing at most isn't asked: it is told of a text when it is read.
    ghost lawful: { IsLawful meaning };
}
