// Where the input comes from.
ghost use Rattle.std.specs.Prelude.{◌≡◌, ◌⊎◌, ℕ, List, [], ◌++◌, take, MatchResult, IsErrOf};
ghost use Rattle.std.specs.Io.{ReadsAtMost};
ghost use Rattle.hs_host.specs.Host.{HasCause, TakesInput};

use crate::host_fault::HostFault;

/// Where the input comes from. This is all that a reader of entries needs.
pub trait Source {
    /// Contracts may speak of the bytes of this host. Where this is empty, as for real files, they claim nothing of them.
    ghost tells: { Type 0 };

    /// The input that isn't read yet.
    ghost unread: { Self → List ℕ };

    /// How often reading has failed.
    ghost input_faults: { Self → ℕ };

    /// Between these two states of a host only input was read.
    ghost only_input: { Self → Self → Type 0 };

    /// One read led from the first of these states of a host to the second, and gave these bytes of the input.
    ghost reads: { Self → Self → List ℕ → Type 0 };

    /// One call led from the first of these states of a host to the second, and made a moment.
    ghost makes_moment: { Self → Self → Type 0 };

    /// Puts bytes of the input at the front of `buf` and answers how many. It answers 0 for a `buf` that
    /// isn't empty only at the end of the input.
    ///
    /// `Fault` comes only where reading failed, and then `input_faults` rose. `NoMemory` may come where memory
    /// is refused. After either no byte was taken.
    fn read_input(&mut self, buf: &mut [u8]) -> Result<usize, HostFault>
        ensures bound { ReadsAtMost result buf.new }
        ensures bytes { tells → TakesInput (unread self.old) (unread self.new) result buf.new }
        ensures cause { HasCause (input_faults self.old) (input_faults self.new) result }
        ensures only { only_input self.old self.new }
        ensures one { MatchResult result (λ n. reads self.old self.new (take n buf.new)) (λ _. reads self.old self.new []) }
        ensures moment { IsErrOf result HostFault.NoMemory ⊎ makes_moment self.old self.new };

    ghost nothing_read: { (h : Self) → only_input h h };

    ghost read_on: { (a b c : Self) → only_input a b → only_input b c → only_input a c };

    ghost reads_unread: { (a b : Self) (bytes : List ℕ) → tells → reads a b bytes → unread a ≡ bytes ++ unread b };
}
