// What calls do to the files that a point stands for.
ghost use Rattle.std.specs.Prelude.{◌≡◌, ℕ, ◌+◌, not, List, [], Some};
ghost use Rattle.hs_host.specs.declared.file_kind.FileKind.{FileKind};
ghost use Rattle.hs_host.specs.declared.file_kind.FileKind.TheVariants as file;
ghost use Rattle.hs_host.specs.Disk.{settled};
ghost use Rattle.hs_host.specs.Files.{Five, IsOnly};
ghost use Rattle.hs_host.specs.Moments.{Moment, History, Since, OneFile, disk_of};
ghost use Rattle.hs_gate.specs.Crash.{IsBeforeOrAfter, HasMore, StandsOnDisk};
ghost use Rattle.hs_gate.specs.Gated.{grown};
ghost use Rattle.hs_gate.specs.Rewriting.{IsGroups};
ghost use Rattle.hs_slots.specs.declared.files.Files.{Files as Held};
ghost use Rattle.hs_slots.specs.Anew.{IsAnew};
ghost use Rattle.hs_slots.specs.Points.{Point, slot, IsOlder, IsPart, StandFor, IsUnborn, AreLeft, LeavesNoOther, IsSafe, IsOnDisk, IsSamePoint, IsTurning, IsCommitting, turned, and_logged};
ghost use Rattle.hs_slots.specs.Served.{IsServed};

/// Files stand for one point at most, and then they aren't unborn. How many pages a point has is said by its payloads.
pub fn files_stand_for_one_point()
    ensures point { (files : Five (List ℕ)) (p q : Point) → StandFor p files → StandFor q files → IsSamePoint p q }
    ensures born { (files : Five (List ℕ)) (p : Point) → StandFor p files → IsUnborn files → ⊥ }
{}

/// What is on the disk survives a crash as what it is, and so does what is served.
pub fn served_files_survive()
    ensures on_disk { (p : Point) (m : Moment) → IsOnDisk p m → IsSafe (λ what. what ≡ Some p) m }
    ensures served { (p : Point) (held : Held) (h : History) (files : Five (List ℕ)) → IsServed p held h files → IsSafe (λ what. what ≡ Some p) h.now }
{}

/// A call after which a crash leaves no file that it might not have left before leaves no five files that it might not have
/// left, and a point that is on the disk stays there. So it does where a call leaves of its one file what the point asks of it.
pub fn inert_calls_change_nothing()
    ensures fewer { (before m : Moment) (files : Five (List ℕ)) → LeavesNoOther before m → AreLeft m files → AreLeft before files }
    ensures kept { (p : Point) (before m : Moment) → LeavesNoOther before m → IsOnDisk p before → IsOnDisk p m }
    ensures one { (p : Point) (a b : History) (file : FileKind) → IsOnDisk p a.now → Since (OneFile a.now file (IsPart p file)) a b → Since (IsOnDisk p) a b }
{}

/// While the slot that isn't the current one is written anew with the next epoch, a crash leaves files that stand for the point
/// before, or for the next one; and then the next one is on the disk, whatever stands in the log and the backup. No page may
/// have an image then.
pub fn checkpoints_count_by_the_slot()
    ensures moments { (p : Point) (payloads : List (List ℕ)) (a b : History) (old : List ℕ) → IsOnDisk p a.now → p.images ≡ [] → IsOlder p.epoch old → Since (OneFile a.now (slot (not p.second)) (IsAnew old (p.epoch + 1) payloads)) a b → Since (IsSafe (IsTurning payloads p)) a b }
    ensures turned { (p : Point) (payloads : List (List ℕ)) (a b : History) (old new : List ℕ) → IsOnDisk p a.now → p.images ≡ [] → Since (OneFile a.now (slot (not p.second)) (IsAnew old (p.epoch + 1) payloads)) a b → disk_of b.now (slot (not p.second)) ≡ settled new → IsGroups (p.epoch + 1) payloads new → IsOnDisk (turned payloads p) b.now }
{}

/// While commits are logged, a crash leaves files that stand for the point before, or for that with all of them; and
/// afterwards they are served with them.
pub fn commits_are_none_or_all()
    ensures moments { (p : Point) (held : Held) (a b : History) (files : Five (List ℕ)) (more : List (List ℕ)) → IsServed p held a files → Since (OneFile a.now file.Log (IsBeforeOrAfter files.log more)) a b → Since (IsSafe (IsCommitting more p)) a b }
    ensures served { (p : Point) (held : Held) (a b : History) (files new : Five (List ℕ)) (more : List (List ℕ)) → IsServed p held a files → Since (OneFile a.now file.Log (IsBeforeOrAfter files.log more)) a b → IsOnly files file.Log new → HasMore files.log more new.log → StandsOnDisk b new (grown held.log more) → IsServed (and_logged more p) (record held { log = grown held.log more }) b new }
{}
