// Output that is gathered.
ghost use Rattle.std.specs.Prelude.{◌≡◌, ◌≤◌, ◌++◌, [], length, take, OnOk, OnErr};
ghost use Rattle.std.specs.Prelude.{codes};
ghost use Rattle.std.specs.Fmt.{decimal};
ghost use Rattle.hs_run.specs.Lines.{opened_line, closed_line};

use itoa::Buffer;
use std::alloc::{AllocError, Global};
use std::marker::Model;

/// Output that is gathered and not yet handed over, which contracts see as its bytes.
#[derive(Drop)]
pub struct Output {
    text: Vec<u8>,
}

impl Model for Output {
    ghost use Rattle.std.specs.Prelude.{List, ℕ};
    ghost use Rattle.std.specs.Coded.{coded_list, coded_ℕ};

    ghost Value = { List ℕ };

    ghost coded = { coded_list coded_ℕ };

    ghost view = { λ o. o.text.items };
}

impl Output {
    /// Nothing gathered. Takes no memory.
    pub fn new(alloc: Global) -> Output
        ensures { result ≡ [] }
    {
        Output {
            text: Vec::new(alloc),
        }
    }

    /// What is gathered.
    pub fn as_bytes(&self) -> &[u8]
        ensures { result.now ≡ self.now }
    {
        &self.text
    }

    /// How many bytes are gathered.
    pub fn len(&self) -> usize
        ensures { result ≡ length self.now }
    {
        self.text.len()
    }

    /// Gathers these bytes too. After an `Err`, which is want of memory, nothing is added.
    pub fn push(&mut self, bytes: &[u8]) -> Result<(), AllocError>
        ensures ok { OnOk result (self.new ≡ self.old ++ bytes.now) }
        ensures err { OnErr result (self.new ≡ self.old) }
    {
        self.text.extend_from_slice(bytes)
    }

    /// Takes back what was gathered behind so many bytes.
    pub fn truncate(&mut self, len: usize)
        requires { len ≤ length self.old }
        ensures { self.new ≡ take len self.old }
    {
        self.text.truncate(len);
    }

    /// Forgets what is gathered, and keeps its memory.
    pub fn clear(&mut self)
        ensures { self.new ≡ [] }
    {
        self.text.clear();
    }

    // The first line of a run over a database with so many commits. After an `Err`, which is want of memory, nothing is added.
    pub(crate) fn push_opened(&mut self, commits: u64) -> Result<(), AllocError>
        ensures ok { OnOk result (self.new ≡ self.old ++ opened_line commits) }
        ensures err { OnErr result (self.new ≡ self.old) }
    {
        self.push_line(b"opened at ", commits)
    }

    // The last line of a run. After an `Err`, which is want of memory, nothing is added.
    pub(crate) fn push_closed(&mut self, commits: u64) -> Result<(), AllocError>
        ensures ok { OnOk result (self.new ≡ self.old ++ closed_line commits) }
        ensures err { OnErr result (self.new ≡ self.old) }
    {
        self.push_line(b"closed at ", commits)
    }

    // A line of a word and a number.
    fn push_line(&mut self, word: &[u8], number: u64) -> Result<(), AllocError>
        ensures ok { OnOk result (self.new ≡ self.old ++ (word.now ++ (decimal number ++ codes "\n"))) }
        ensures err { OnErr result (self.new ≡ self.old) }
    {
        let mark = self.text.len();
        let pushed = self.push_parts(word, number);
        if pushed.is_err() {
            self.text.truncate(mark);
        }
        pushed
    }

    // Its parts. After an `Err` a front of them may be there.
    fn push_parts(&mut self, word: &[u8], number: u64) -> Result<(), AllocError>
        ensures ok { OnOk result (self.new ≡ self.old ++ (word.now ++ (decimal number ++ codes "\n"))) }
        ensures err { OnErr result (take (length self.old) self.new ≡ self.old) }
        ensures grown { length self.old ≤ length self.new }
    {
        let mut buffer = Buffer::new();
        self.push(word)?;
        self.push(buffer.format(number).as_bytes())?;
        self.push(b"\n")
    }
}
