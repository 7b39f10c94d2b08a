// Reads the groups of a gated file one after another.
ghost use Rattle.std.specs.Prelude.{◌≡◌, ℕ, ◌+◌, List, [], IfOk, IfSome, OnOk, IsErrOf, None, false};
ghost use Rattle.hs_host.specs.Files.{Five, of, IsOpen};
ghost use Rattle.hs_host.specs.Used.{Told, ReadsFiles};
ghost use Rattle.hs_gate.specs.Faults.{HasGateCause, FailsWith};
ghost use Rattle.hs_gate.specs.Gated.{IsGated};
ghost use Rattle.hs_gate.specs.Groups.{is_open};

use crate::found::{FIRST_PLACE, Found, look, number};
use crate::gate_fault::GateFault;
use crate::gated::Gated;
use crate::window::Window;
use hs_host::{FileKind, Host, len};
use std::alloc::Global;

/// Reads the groups of a gated file one after another, each byte once through a window of 64 KiB, but for a group that
/// goes past its end, which is read again from its payload on. A payload is lent from the window, which is made longer
/// for one that is longer.
#[derive(Drop)]
pub struct GroupReader {
    file: FileKind,
    epoch: u64,
    // The length of the file.
    total: u64,
    // How many groups were read.
    groups: u64,
    // The place behind them.
    end: u64,
    // How long the payload of the last one is.
    size: u64,
    window: Window,
}

impl GroupReader {
    ghost use Rattle.hs_gate.specs.Reading.{IsReady, IsReadTo, HasBegun, GoesOn, Takes, IsBrokenAt, IsReadAll, payload_in, read_so_far};

    /// Begins to read a file. It answers none exactly where the file isn't open.
    ///
    /// `Disk` comes only where a call of the host failed, and `NoMemory` is free.
    pub fn open<H: Host>(
        alloc: Global,
        host: &mut H,
        file: FileKind,
    ) -> Result<Option<GroupReader>, GateFault>
        requires { IsOpen (H.standing host.old) }
        ensures none { Told H.Source H.Host.own host.old → IfOk result (λ reader. reader ≡ None → is_open (of (H.files host.old) file) ≡ false) }
        ensures begun { IfOk result (λ reader. IfSome reader (HasBegun file)) }
        ensures empty { IfOk result (λ reader. IfSome reader (λ r. payload_in r ≡ [])) }
        ensures ready { IfOk result (λ reader. IfSome reader IsReady) }
        ensures read { Told H.Source H.Host.own host.old → IfOk result (λ reader. IfSome reader (IsReadTo (of (H.files host.old) file))) }
        ensures reads { ReadsFiles H.Source H.Host.own host.old host.new }
        ensures fails { FailsWith (H.disk_faults host.old) (H.disk_faults host.new) result }
    {
        let total = len(host, file)?;
        if total <= FIRST_PLACE {
            return Ok(None);
        }
        let mut window = Window::new(alloc)?;
        window.bring(host, file, 0, total, FIRST_PLACE)?;
        let header = window.from(0);
        if header[1] != 1 {
            return Ok(None);
        }
        let epoch = number(&header[2..]);
        Ok(Some(GroupReader {
            file,
            epoch,
            total,
            groups: 0,
            end: FIRST_PLACE,
            size: 0,
            window,
        }))
    }

    /// Reads the next group, so that its payload is at hand, and answers whether there was one. There is none exactly
    /// where a gate stands that isn't open. `Broken(g)` comes exactly where group g, counted from 1, is broken.
    ///
    /// `Disk` comes only where a call of the host failed, and `NoMemory` is free. After an `Err` nothing is said of this.
    pub fn advance<H: Host>(&mut self, host: &mut H) -> Result<bool, GateFault>
        requires opened { IsOpen (H.standing host.old) }
        requires ready { IsReady self.old }
        requires read { Told H.Source H.Host.own host.old → IsReadTo (of (H.files host.old) self.old.file) self.old }
        ensures ready { OnOk result (IsReady self.new) }
        ensures read { Told H.Source H.Host.own host.old → OnOk result (IsReadTo (of (H.files host.old) self.old.file) self.new) }
        ensures same { OnOk result ((self.new.file ≡ self.old.file) × (self.new.epoch ≡ self.old.epoch) × (self.new.total ≡ self.old.total)) }
        ensures counted { IfOk result (λ more. GoesOn self.old more self.new) }
        ensures takes { Told H.Source H.Host.own host.old → IfOk result (λ more. Takes (of (H.files host.old) self.old.file) self.old more self.new) }
        ensures number { (number : ℕ) → IsErrOf result (GateFault.Broken number) → number ≡ self.old.groups + 1 }
        ensures broken { Told H.Source H.Host.own host.old → (number : ℕ) → IsErrOf result (GateFault.Broken number) → IsBrokenAt (of (H.files host.old) self.old.file) self.old }
        ensures reads { ReadsFiles H.Source H.Host.own host.old host.new }
        ensures cause { HasGateCause (H.disk_faults host.old) (H.disk_faults host.new) result }
    {
        let left = self.total - self.end;
        self.window
            .bring(host, self.file, self.end, left, left.min(9))?;
        let size = match look(self.window.from(self.end), left - 1) {
            Found::Closed => {
                self.size = 0;
                return Ok(false);
            }
            Found::Broken => return Err(GateFault::Broken(self.groups + 1)),
            Found::Group(size) => size,
        };
        self.window
            .bring(host, self.file, self.end + 9, left - 9, size)?;
        self.groups += 1;
        self.end += 9 + size;
        self.size = size;
        Ok(true)
    }

    /// The payload of the group that was read last. It is empty where none was read yet, and where there was none.
    pub fn payload(&self) -> &[u8]
        requires { IsReady self.now }
        ensures { result.now ≡ payload_in self.now }
    {
        let payload = self.window.from(self.end - self.size);
        &payload[..self.size as usize]
    }

    /// The file, up to the groups that were read.
    pub fn gated(&self) -> Gated
        ensures so_far { result ≡ read_so_far self.now }
        ensures whole { (files : Five (List ℕ)) → IsReadTo (of files self.now.file) self.now → IsReadAll (of files self.now.file) self.now → IsGated files result }
    {
        Gated {
            file: self.file,
            epoch: self.epoch,
            groups: self.groups,
            end: self.end,
        }
    }
}
