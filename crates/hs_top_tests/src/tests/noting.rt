// The order of a run's calls, and how much each read and each hand-over is of, by a host that notes them.
ghost use Rattle.std.specs.Prelude.{◌≡◌};

use crate::tests::support::{host, words};
use hs_host::{FileKind, Host, HostFault, MountFault, Source};
use hs_memhost::MemHost;
use hs_top::{Status, run};
use std::alloc::Global;
use std::test::Fail;

// This many bytes of output are gathered at most, and of input a read may bring at least.
const FULL: usize = 65_536;

// A host that notes its calls, how much was written before each read, and how much the read may bring. From a call on it
// wants memory for each call on the files. It tells no content.
#[derive(Drop)]
struct Noting {
    inner: MemHost,
    wants_from: usize,
    calls: Vec<u8>,
    before_reads: Vec<usize>,
    read_sizes: Vec<usize>,
}

impl Noting {
    ghost use Rattle.std.specs.Prelude.{◌≡◌, OnErr, Err};

    fn new(alloc: Global, inner: MemHost) -> Noting
        ensures { result.inner ≡ inner }
    {
        Noting {
            inner,
            wants_from: usize::MAX,
            calls: Vec::new(alloc),
            before_reads: Vec::new(alloc),
            read_sizes: Vec::new(alloc),
        }
    }

    fn note(&mut self, call: u8) -> Result<(), HostFault>
        ensures inner { self.new.inner ≡ self.old.inner }
        ensures err { OnErr result (result ≡ Err HostFault.NoMemory) }
    {
        match self.calls.push(call) {
            Ok(()) => Ok(()),
            Err(_) => Err(HostFault::NoMemory),
        }
    }

    // The same of a call on the files.
    fn note_file(&mut self, call: u8) -> Result<(), HostFault>
        ensures inner { self.new.inner ≡ self.old.inner }
        ensures err { OnErr result (result ≡ Err HostFault.NoMemory) }
    {
        if self.calls.len() >= self.wants_from {
            return Err(HostFault::NoMemory);
        }
        self.note(call)
    }
}

impl Source for Noting {
    ghost use Rattle.std.specs.Prelude.{◌≡◌, refl};
    ghost use Rattle.std.proofs.Common.{◌∙◌};
    ghost use Rattle.hs_memhost.specs.Memory.{kept_of};

    ghost tells = { ⊥ };

    ghost unread = { λ h. ⟦<MemHost as Source>⟧.unread h.inner };

    ghost input_faults = { λ h. ⟦<MemHost as Source>⟧.input_faults h.inner };

    ghost only_input = { λ a b. kept_of b.inner ≡ kept_of a.inner };

    ghost reads = { λ a b bytes. Unit {0} };

    ghost makes_moment = { λ a b. Unit {0} };

    ghost nothing_read = { λ h. refl };

    ghost read_on = { λ a b c ab bc. bc ∙ ab };

    ghost reads_unread = { λ a b bytes told read. absurd told };

    fn read_input(&mut self, buf: &mut [u8]) -> Result<usize, HostFault> {
        self.note(b'i')?;
        let written = self.inner.output().len();
        if self.before_reads.push(written).is_err() {
            return Err(HostFault::NoMemory);
        }
        if self.read_sizes.push(buf.len()).is_err() {
            return Err(HostFault::NoMemory);
        }
        self.inner.read_input(buf)
    }
}

impl Host for Noting {
    ghost use Rattle.std.proofs.Common.{ap};

    ghost written = { λ h. ⟦<MemHost as Host>⟧.written h.inner };

    ghost history = { λ h. ⟦<MemHost as Host>⟧.history h.inner };

    ghost output_faults = { λ h. ⟦<MemHost as Host>⟧.output_faults h.inner };

    ghost files = { λ h. ⟦<MemHost as Host>⟧.files h.inner };

    ghost standing = { λ h. ⟦<MemHost as Host>⟧.standing h.inner };

    ghost disk_faults = { λ h. ⟦<MemHost as Host>⟧.disk_faults h.inner };

    ghost output_now = { λ h told. absurd told };

    ghost read_may_be_left = { λ h told honest file. absurd told };

    ghost reading_passes = { λ a b read told. absurd told };

    ghost reading_takes = { λ a b read told. absurd told };

    ghost reads_moment = { λ a b bytes told read made. absurd told };

    ghost reads_asked = { λ a b bytes told read. absurd told };

    ghost reading_keeps_output = { λ a b read. (ap (λ k. k.out) read, ap (λ k. k.output_faults) read) };

    ghost reading_keeps_files = { λ a b read. (ap (λ k. k.files) read, ap (λ k. k.standing) read, ap (λ k. k.disk_faults) read) };

    fn write_output(&mut self, bytes: &[u8]) -> Result<usize, HostFault> {
        self.note(if bytes.len() < FULL { b'o' } else { b'O' })?;
        self.inner.write_output(bytes)
    }

    fn mount(&mut self, name: &str) -> Result<(), MountFault> {
        if self.note(b'm').is_err() {
            return Err(MountFault::NoMemory);
        }
        self.inner.mount(name)
    }

    fn len(&mut self, file: FileKind) -> Result<u64, HostFault> {
        self.note_file(b'l')?;
        self.inner.len(file)
    }

    fn read(&mut self, file: FileKind, at: u64, buf: &mut [u8]) -> Result<(), HostFault> {
        self.note_file(b'r')?;
        let len = self.inner.image(file).len() as u64;
        if at > len {
            return Err(HostFault::NoMemory);
        }
        if buf.len() as u64 > len - at {
            return Err(HostFault::NoMemory);
        }
        self.inner.read(file, at, buf)
    }

    fn write(&mut self, file: FileKind, at: u64, bytes: &[u8]) -> Result<(), HostFault> {
        self.note_file(b'w')?;
        if at > self.inner.image(file).len() as u64 {
            return Err(HostFault::NoMemory);
        }
        self.inner.write(file, at, bytes)
    }

    fn cut(&mut self, file: FileKind, len: u64) -> Result<(), HostFault> {
        self.note_file(b'c')?;
        self.inner.cut(file, len)
    }

    fn sync(&mut self, file: FileKind) -> Result<(), HostFault> {
        self.note_file(b's')?;
        self.inner.sync(file)
    }
}

// Each entry is one read, and its reply is written before the next.
#[test]
fn replies_come_before_more_input(rt: HostRuntime) -> Result<(), Fail> {
    let alloc = rt.alloc();
    let words = words(alloc, &["hsql", "demo"])?;
    let entry = b"a: SELECT * FROM T;";
    let mut inner = host(alloc, &[*entry, *entry, *entry].concat(alloc)?, b"", &[])?;
    inner.give_in_pieces([entry.len()].to_vec(alloc)?);
    let mut host = Noting::new(alloc, inner);
    assert_eq!(rt; run(alloc, &words, &mut host), Status::Done);
    let opened = b"opened at 0\n".len();
    let line = b"1 a: refused no such T\n".len();
    let wanted = [opened, opened + line, opened + 2 * line, opened + 3 * line];
    assert_eq!(rt; host.before_reads.as_slice(), wanted.as_slice());
    Ok(())
}

// The order of the calls: the log is made. Of the commits that are at hand lengths, payloads and a closed gate are written
// and synced, and then the gate is; and only then their replies are written.
#[test]
fn commits_are_on_the_disk_before_they_are_acknowledged(rt: HostRuntime) -> Result<(), Fail> {
    let alloc = rt.alloc();
    let words = words(alloc, &["hsql", "demo"])?;
    let input = b"a: CREATE TABLE T (N BIGINT);a: INSERT INTO T VALUES (1);a: SELECT * FROM T;";
    let mut at_once = Noting::new(alloc, host(alloc, input, b"", &[])?);
    assert_eq!(rt; run(alloc, &words, &mut at_once), Status::Done);
    assert_eq!(rt; at_once.calls.as_slice(), b"mlwcswsoiwswsoio".as_slice());
    // entry by entry
    let mut inner = host(alloc, input, b"", &[])?;
    inner.give_in_pieces([29, 28, 19].to_vec(alloc)?);
    let mut one_by_one = Noting::new(alloc, inner);
    assert_eq!(rt; run(alloc, &words, &mut one_by_one), Status::Done);
    assert_eq!(rt;
        one_by_one.calls.as_slice(),
        b"mlwcswsoiwswsoiwswsoioio".as_slice()
    );
    Ok(())
}

// Commits whose texts have more than 2^20 bytes are logged, and what is told of them is handed over, before further
// entries that are at hand are attempted. Here each INSERT but the first doubles the rows, of some 3,900 bytes, and so the
// texts: those of ten INSERTs are more.
#[test]
fn commits_are_logged_once_their_texts_are_long(rt: HostRuntime) -> Result<(), Fail> {
    let alloc = rt.alloc();
    let words = words(alloc, &["hsql", "demo"])?;
    let filling = vec![in alloc; b'x'; 3_900]?;
    let mut input = b"a: CREATE TABLE T (S VARCHAR(4000));a: INSERT INTO T VALUES ('".to_vec(
        alloc,
    )?;
    input.extend_from_slice(&filling)?;
    input.extend_from_slice(b"');")?;
    for _ in 0..9u32 {
        input.extend_from_slice(b"a: INSERT INTO T SELECT S FROM T;")?;
    }
    input.extend_from_slice(b"a: DELETE FROM T;")?;
    let mut host = Noting::new(alloc, host(alloc, &input, b"", &[])?);
    assert_eq!(rt; run(alloc, &words, &mut host), Status::Done);
    // long texts are written in parts
    host.calls.retain(|call| *call != b'w');
    assert_eq!(rt; host.calls.as_slice(), b"mlcssoissossoio".as_slice());
    Ok(())
}

// Also in the middle of an entry a read may bring 64 KiB.
#[test]
fn reads_may_bring_64_kib(rt: HostRuntime) -> Result<(), Fail> {
    let alloc = rt.alloc();
    let words = words(alloc, &["hsql", "demo"])?;
    let mut input = b"a: SELECT * FROM T;a:".to_vec(alloc)?;
    let filling = vec![in alloc; b'x'; 65_533]?;
    input.extend_from_slice(&filling)?;
    input.extend_from_slice(b";a: SELECT * FROM T;")?;
    let mut inner = host(alloc, &input, b"", &[])?;
    inner.give_in_pieces([7, 20_000].to_vec(alloc)?);
    let mut host = Noting::new(alloc, inner);
    assert_eq!(rt; run(alloc, &words, &mut host), Status::Done);
    let wanted =
        b"opened at 0\n1 a: refused no such T\n2 a: refused syntax at 2\n3 a: refused no such T\nclosed at 0\n";
    assert_eq!(rt; host.inner.output(), wanted.as_slice());
    for size in &host.read_sizes {
        assert!(rt; *size >= FULL, "a read may bring {size} bytes");
    }
    Ok(())
}

// Replies and the rows of an answer are handed over once they are 64 KiB; less is handed over only before a read
// and at the end.
#[test]
fn long_output_is_handed_over_in_parts(rt: HostRuntime) -> Result<(), Fail> {
    let alloc = rt.alloc();
    let words = words(alloc, &["hsql", "demo"])?;
    let mut input = String::from_str(alloc, "a: CREATE TABLE T (N BIGINT, M BIGINT);")?;
    let mut wanted = String::from_str(alloc, "opened at 0\n1 a: ok committed 1\n")?;
    let mut rows = String::new(alloc);
    for number in 2..4002u32 {
        let entry = format!(in alloc; "a: INSERT INTO T VALUES ({number},1000000000000000000);")?;
        input.push_str(entry.as_str())?;
        wanted.push_str(format!(in alloc; "{number} a: ok 1 row committed {number}\n")?.as_str())?;
        let row = format!(in alloc; "4002 a: row {number},1000000000000000000\n")?;
        rows.push_str(row.as_str())?;
    }
    input.push_str("a: SELECT * FROM T;")?;
    wanted.push_str(rows.as_str())?;
    wanted.push_str("4002 a: ok 4000 rows\nclosed at 4001\n")?;
    let mut host = Noting::new(alloc, host(alloc, input.as_bytes(), b"", &[])?);
    assert_eq!(rt; run(alloc, &words, &mut host), Status::Done);
    assert!(rt; host.inner.output() == wanted.as_bytes());

    let mut parts = 0u32;
    let mut last = b'm';
    for call in &host.calls {
        assert!(rt; last != b'o' || *call == b'i');
        if *call == b'O' {
            parts = parts.saturating_add(1);
        }
        last = *call;
    }
    // One within the replies to INSERTs, and one with the answer.
    assert_eq!(rt; parts, 2);
    Ok(())
}

// Where memory is wanted while commits are logged, before and behind their bytes, the replies before them are handed over, and
// no other.
#[test]
fn replies_are_handed_over_where_memory_is_wanted(rt: HostRuntime) -> Result<(), Fail> {
    let alloc = rt.alloc();
    let words = words(alloc, &["hsql", "demo"])?;
    let input =
        b"a: SELECT * FROM T;a: CREATE TABLE T (N BIGINT);a: SELECT * FROM T;a: INSERT INTO T VALUES (1);";
    for wants_from in [9, 10, 11, 12] {
        let mut host = Noting::new(alloc, host(alloc, input, b"", &[])?);
        host.wants_from = wants_from;
        assert_eq!(rt; run(alloc, &words, &mut host), Status::NoMemory);
        let wanted = b"opened at 0\n1 a: refused no such T\n";
        assert_eq!(rt; host.inner.output(), wanted.as_slice());
    }
    Ok(())
}

// And where the output fails then, that is told.
#[test]
fn a_fault_of_the_output_is_told_where_memory_is_wanted(rt: HostRuntime) -> Result<(), Fail> {
    let alloc = rt.alloc();
    let words = words(alloc, &["hsql", "demo"])?;
    let input = b"a: SELECT * FROM T;a: CREATE TABLE T (N BIGINT);a: INSERT INTO T VALUES (1);";
    let mut host = Noting::new(alloc, host(alloc, input, b"", &[9])?);
    host.wants_from = 9;
    assert_eq!(rt; run(alloc, &words, &mut host), Status::OutputFault);
    Ok(())
}
