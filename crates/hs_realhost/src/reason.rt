// Why a call of the outside failed, in words for a person.
use hs_host::FileKind;
use std::{fmt, io};

/// What a call that failed was about.
#[derive(Clone, Copy, Debug, PartialEq, Eq)]
pub enum Place {
    /// Standard input.
    Input,
    /// Standard output.
    Output,
    /// The name of the database, or the folder in it.
    Name,
    /// The file of another program.
    Properties,
    /// One of the five files.
    File(FileKind),
}

impl Place {
    /// What stands behind the name of the database, in the name of this file.
    pub fn ending(self) -> &'static str {
        match self {
            Place::Input | Place::Output | Place::Name => "",
            Place::Properties => ".properties",
            Place::File(FileKind::Script0) => ".script",
            Place::File(FileKind::Script1) => ".script.new",
            Place::File(FileKind::Log) => ".log",
            Place::File(FileKind::Data) => ".data",
            Place::File(FileKind::Backup) => ".backup",
        }
    }
}

/// A call that failed: what it was about, and what the system said of it.
#[derive(Clone, Copy)]
pub struct Failure {
    pub place: Place,
    pub error: io::Error,
}

/// A failure in words: the file and the system's reason, as `demo.log: No space left on device (os error 28)`.
#[derive(Clone, Copy)]
pub struct Reason<'a> {
    name: &'a str,
    failure: Failure,
}

impl<'a> Reason<'a> {
    /// The failure of a call for the database of this name.
    pub fn new(name: &'a str, failure: Failure) -> Reason<'a> {
        Reason { name, failure }
    }
}

impl<'a> fmt::Display for Reason<'a> {
    fn fmt<W: fmt::Write>(&self, f: &mut fmt::Formatter<W>) -> fmt::Result {
        let error = self.failure.error;
        match self.failure.place {
            Place::Input => write!(f, "standard input: {error}"),
            Place::Output => write!(f, "standard output: {error}"),
            place => {
                let name = self.name;
                let ending = place.ending();
                write!(f, "{name}{ending}: {error}")
            }
        }
    }
}
