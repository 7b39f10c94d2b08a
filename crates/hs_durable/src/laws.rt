// What calls do to the files that a point stands for.
ghost use Rattle.std.specs.Prelude.{◌≡◌, ◌⊎◌, ℕ, ◌+◌, ◌≤◌, List, [], ◌++◌, length, take, drop};
ghost use Rattle.hs_host.specs.declared.file_kind.FileKind.TheVariants as file;
ghost use Rattle.hs_host.specs.Files.{Five};
ghost use Rattle.hs_host.specs.Moments.{History, Since, OneFile, IsStill, IsPrinted, IsReading};
ghost use Rattle.hs_log.specs.declared.log.Log.{Log};
ghost use Rattle.hs_log.specs.Log.{IsLog, IsSameLog, HasNoneOrAll, texts_of, epoch_in};
ghost use Rattle.hs_durable.specs.Durable.{Point, LeavesNoOther, IsSafe, IsServed, IsCommitting, Survives, and_logged};

/// Files that are served survive a crash as what they stand for, whatever else that means.
pub fn served_files_survive()
    ensures { (p : Point) (held : Log) (h : History) (files : Five (List ℕ)) → IsServed p held h files → IsSafe (λ q. q ≡ p) h.now }
{}

/// Calls that read files or input, or hand over output, change nothing of what a crash leaves of the files.
pub fn nothing_changes()
    ensures reads { (a b : History) → Since (IsStill a.now) a b → Since (LeavesNoOther a.now) a b }
    ensures tells { (a b : History) (bytes : List ℕ) → Since (IsPrinted a.now bytes) a b → Since (LeavesNoOther a.now) a b }
    ensures asks { (a b : History) → Since (IsReading a.now) a b → Since (LeavesNoOther a.now) a b }
    ensures served { (p : Point) (held : Log) (a b : History) (files : Five (List ℕ)) → IsServed p held a files → b.now.disks ≡ a.now.disks → IsServed p held b files }
{}

/// While commits are logged, and while the log is settled, a crash leaves files that stand for the point before, or for
/// that with all of them; and afterwards they are served with them.
pub fn commits_are_none_or_all()
    ensures moments { (p : Point) (held : Log) (a b : History) (files : Five (List ℕ)) (more : List (List ℕ)) → IsServed p held a files → Since (OneFile a.now file.Log (HasNoneOrAll (epoch_in held) (texts_of files.log) more)) a b → Since (IsSafe (IsCommitting p more)) a b }
    ensures served { (p : Point) (held after : Log) (a b : History) (files new : Five (List ℕ)) (more : List (List ℕ)) → IsServed p held a files → IsLog b new after → epoch_in after ≡ epoch_in held → texts_of new.log ≡ texts_of files.log ++ more → IsServed (and_logged more p) after b new }
    ensures settled { (p : Point) (held : Log) (a b : History) (files : Five (List ℕ)) → IsServed p held a files → Since (OneFile a.now file.Log (IsSameLog files.log)) a b → Since (IsSafe (λ q. q ≡ p)) a b }
    ensures counted { (opening p q : Point) (made more : List (List ℕ)) (count least : ℕ) → p ≡ and_logged (take count made) opening → least ≤ count → count + length more ≤ length made → more ≡ take (length more) (drop count made) → IsCommitting p more q → Survives opening made least q }
{}

/// A log that was born, read and settled is served as what its own bytes say.
pub fn born_logs_are_served()
    ensures { (h : History) (files : Five (List ℕ)) (held : Log) → IsLog h files held → IsServed (record { epoch = epoch_in held; logged = texts_of files.log }) held h files }
{}
