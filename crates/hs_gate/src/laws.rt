// Laws of the groups, in words about the bytes alone.
ghost use Rattle.std.specs.Prelude.{◌≡◌, ◌⊎◌, ℕ, ◌+◌, ◌^◌, ◌<◌, ◌≤◌, List, ◌++◌, length};
ghost use Rattle.hs_host.specs.Files.{Five, of};
ghost use Rattle.hs_host.specs.Moments.{History, disk_of};
ghost use Rattle.hs_gate.specs.Crash.{StandsOnDisk};
ghost use Rattle.hs_gate.specs.Gated.{appended};
ghost use Rattle.hs_gate.specs.Groups.{groups_of, whole, broken, spelled};
ghost use Rattle.hs_gate.specs.Rewriting.{IsReady, IsClosedOrOld, IsRewriting, IsGroups, body_of};
ghost use Rattle.hs_gate.specs.Spelled.{Holds, Breaks};
ghost use Rattle.hs_gate.specs.declared.gated.Gated.{Gated as Read};

/// The groups of a file are those that stand from place 10 on one behind the other, up to a byte that isn't 1.
/// A group is broken where a byte 1 stands in its place, and not a whole group with one more byte behind it. So
/// bytes have one reading.
pub fn groups_are_spelled(bytes: &[u8])
    ensures read { (payloads : List (List ℕ)) → groups_of bytes.now ≡ whole payloads → Holds bytes.now payloads }
    ensures spelled { (payloads : List (List ℕ)) → Holds bytes.now payloads → groups_of bytes.now ≡ whole payloads }
    ensures broken { (payloads : List (List ℕ)) → 10 < length bytes.now → groups_of bytes.now ≡ broken payloads → Breaks bytes.now payloads }
    ensures breaks { (payloads : List (List ℕ)) → Breaks bytes.now payloads → groups_of bytes.now ≡ broken payloads }
{}

/// Groups that are added together make the same bytes as if each had been added alone.
pub fn groups_are_added_one_by_one(bytes: &[u8])
    ensures { (end : ℕ) (first more : List (List ℕ)) → end ≤ length bytes.now → appended (appended bytes.now end first) (end + length (spelled first)) more ≡ appended bytes.now end (first ++ more) }
{}

/// What a crash leaves of a file that is written anew with an epoch and groups isn't open, or still has the epoch that
/// the file had, or is open with this epoch and these groups. A file that stands on the disk can be written anew.
pub fn rewritten_files_are_read(left: &[u8])
    ensures read { (old : List ℕ) (epoch : ℕ) (payloads : List (List ℕ)) → epoch < 2 ^ 64 → length (spelled payloads) < 2 ^ 64 → IsRewriting old (body_of epoch payloads) left.now → IsClosedOrOld old left.now ⊎ IsGroups epoch payloads left.now }
    ensures ready { (h : History) (files : Five (List ℕ)) (gated : Read) → StandsOnDisk h files gated → IsReady (disk_of h.now gated.file) (of files gated.file) }
{}
