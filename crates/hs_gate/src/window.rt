// Bytes of a file at hand.
ghost use Rattle.std.specs.Prelude.{◌≡◌, ◌↔◌, ◌+◌, ◌-◌, ◌^◌, ◌<◌, ◌≤◌, ℕ, List, min, length, take, drop, IfOk, OnOk, IsTrue};
ghost use Rattle.hs_host.specs.Files.{of, IsOpen};
ghost use Rattle.hs_host.specs.Used.{Told, ReadsFiles};
ghost use Rattle.hs_gate.specs.Faults.{FailsWith};

use crate::gate_fault::GateFault;
use crate::reading::read_front;
use hs_host::{FileKind, Host};
use std::alloc::{AllocError, Global};

/// How many bytes are brought at once, where no more are needed.
pub const WINDOW_BYTES: usize = 65_536;

/// Some bytes of a file, one behind the other.
#[derive(Drop)]
pub struct Window {
    buffer: Vec<u8>,
    // The place of the first one.
    base: u64,
    count: usize,
}

impl Window {
    ghost use Rattle.hs_gate.specs.Window.{IsSound, Shows, Has};

    /// No bytes. `NoMemory` is free.
    pub fn new(alloc: Global) -> Result<Window, AllocError>
        ensures sound { IfOk result IsSound }
        ensures none { IfOk result (λ window. window.count ≡ 0) }
    {
        Ok(Window {
            buffer: vec![in alloc; 0; WINDOW_BYTES]?,
            base: 0,
            count: 0,
        })
    }

    /// The bytes at hand from a place on.
    #[inline]
    pub fn from(&self, at: u64) -> &[u8]
        requires sound { IsSound self.now }
        requires there { Has self.now at 0 }
        ensures bytes { result.now ≡ drop (at - self.now.base) (take self.now.count self.now.buffer.items) }
        ensures count { length result.now + (at - self.now.base) ≡ self.now.count }
    {
        &self.buffer[(at - self.base) as usize..self.count]
    }

    // Whether so many bytes from a place on are at hand.
    #[inline]
    fn has(&self, at: u64, count: u64) -> bool
        requires { at + count < 2 ^ 64 }
        ensures { IsTrue result ↔ Has self.now at count }
    {
        self.base <= at && at - self.base + count <= self.count as u64
    }

    /// Brings bytes from a place on, where the file has `left` more: at least as many as `need` says. Where they don't fit
    /// in the window, it is made longer. `NoMemory` is free.
    #[inline]
    pub fn bring<H: Host>(
        &mut self,
        host: &mut H,
        file: FileKind,
        at: u64,
        left: u64,
        need: u64,
    ) -> Result<(), GateFault>
        requires sound { IsSound self.old }
        requires opened { IsOpen (H.standing host.old) }
        requires room { at + left < 2 ^ 64 }
        requires needed { need ≤ left }
        requires within { Told H.Source H.Host.own host.old → at + left ≤ length (of (H.files host.old) file) }
        requires shows { Told H.Source H.Host.own host.old → Shows self.old (of (H.files host.old) file) }
        ensures sound { IsSound self.new }
        ensures has { OnOk result (Has self.new at need) }
        ensures shows { Told H.Source H.Host.own host.old → OnOk result (Shows self.new (of (H.files host.new) file)) }
        ensures reads { ReadsFiles H.Source H.Host.own host.old host.new }
        ensures fails { FailsWith (H.disk_faults host.old) (H.disk_faults host.new) result }
    {
        if self.has(at, need) {
            return Ok(());
        }
        self.widen(need)?;
        self.fill(host, file, at, left)
    }

    // Makes room for so many bytes. The bytes at hand stay.
    fn widen(&mut self, need: u64) -> Result<(), AllocError>
        requires sound { IsSound self.old }
        ensures sound { IsSound self.new }
        ensures room { OnOk result (need ≤ length self.new.buffer.items) }
        ensures same { (self.new.base ≡ self.old.base) × (self.new.count ≡ self.old.count) }
        ensures shows { (bytes : List ℕ) → Shows self.old bytes → Shows self.new bytes }
    {
        let need = need as usize;
        if need <= self.buffer.len() {
            return Ok(());
        }
        self.buffer.resize(need, 0)
    }

    // Reads as many bytes as there is room for.
    #[inline(never)]
    fn fill<H: Host>(
        &mut self,
        host: &mut H,
        file: FileKind,
        at: u64,
        left: u64,
    ) -> Result<(), GateFault>
        requires sound { IsSound self.old }
        requires opened { IsOpen (H.standing host.old) }
        requires within { Told H.Source H.Host.own host.old → at + left ≤ length (of (H.files host.old) file) }
        ensures sound { IsSound self.new }
        ensures base { OnOk result (self.new.base ≡ at) }
        ensures count { OnOk result (self.new.count ≡ min left (length self.old.buffer.items)) }
        ensures shows { Told H.Source H.Host.own host.old → OnOk result (Shows self.new (of (H.files host.new) file)) }
        ensures reads { ReadsFiles H.Source H.Host.own host.old host.new }
        ensures fails { FailsWith (H.disk_faults host.old) (H.disk_faults host.new) result }
    {
        let count = left.min(self.buffer.len() as u64) as usize;
        read_front(host, file, at, &mut self.buffer, count)?;
        self.base = at;
        self.count = count;
        Ok(())
    }
}
