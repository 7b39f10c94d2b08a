// How a run ends.
use crate::damage::Damage;
use crate::fault::OpenFault;
use hs_run::Stop;

/// How a run ends. Each status but `Done` and `NoMemory` has one cause. What is said of the input, the output and the files
/// is said of a host that tells them.
#[derive(Debug, PartialEq, Eq, Drop)]
pub enum Status {
    /// The input was read to its end. Over an honest host the whole transcript was written.
    Done,
    /// The words of the command line are not those of the command. Nothing was read or written, and no file
    /// opened.
    Usage,
    /// A read of the input failed.
    InputFault,
    /// A write of the output failed, or took nothing.
    OutputFault,
    /// A call on the files of the database failed.
    DiskFault,
    /// Memory was refused. No rule says when.
    NoMemory,
    /// The files stand for no database. No input was read and no output written. No file was changed, where the files
    /// are another program's or the host is honest.
    Damaged(Damage),
    /// The next item, or the end of the input, was needed and isn't within the first 2^30 bytes of the
    /// input, which has more.
    InputTooLong,
}

impl Status {
    ghost use Rattle.std.specs.Prelude.{◌≡◌};
    ghost use Rattle.hs_program.specs.Stop.{number_of};

    /// The number that the program ends with.
    pub fn number(&self) -> u8
        ensures { result ≡ number_of self.now }
    {
        match self {
            Status::Done => 0,
            Status::Usage => 1,
            Status::InputFault => 2,
            Status::OutputFault => 3,
            Status::DiskFault => 4,
            Status::NoMemory => 5,
            Status::Damaged(_) => 6,
            Status::InputTooLong => 7,
        }
    }
}

impl From<OpenFault> for Status {
    ghost use Rattle.std.specs.Prelude.{◌≡◌};
    ghost use Rattle.hs_program.specs.Stop.{unopened};

    ghost from_gives = { λ fault status. status ≡ unopened fault };

    fn from(fault: OpenFault) -> Self {
        match fault {
            OpenFault::Disk => Status::DiskFault,
            OpenFault::Damaged(group) => Status::Damaged(Damage::Log(group)),
            OpenFault::Invalid(name) => Status::Damaged(Damage::Invalid(name)),
            OpenFault::NoMemory => Status::NoMemory,
        }
    }
}

impl From<Stop> for Status {
    ghost use Rattle.std.specs.Prelude.{◌≡◌};
    ghost use Rattle.hs_program.specs.Stop.{stopped};

    ghost from_gives = { λ stop status. status ≡ stopped stop };

    fn from(stop: Stop) -> Self {
        match stop {
            Stop::Input => Status::InputFault,
            Stop::Output => Status::OutputFault,
            Stop::Disk => Status::DiskFault,
            Stop::NoMemory => Status::NoMemory,
            Stop::TooLong => Status::InputTooLong,
        }
    }
}
