//! The program `hsql`: the engine over standard input, standard output and the files of a database.
#![tactic(auto)]

use hs_realhost::{FileHost, Reason};
use hs_top::{Damage, Status, run};
use hs_values::{Chars, Words};
use std::alloc::{AllocError, Global};
use std::fs::File;
use std::io::{Read, Write};
use std::process::ExitCode;
use std::rt::{Env, Files};
use std::{env, io};

// The words of the command line, the program's own name first.
fn words<R: Env + Alloc>(rt: &R, alloc: Global) -> io::Result<Words> {
    let mut words = Words::new(alloc);
    for word in env::args(rt)? {
        words.push(Chars::from_text(alloc, word.as_str())?)?;
    }
    Ok(words)
}

// Says on standard error how a run ended that wasn't done: the words of its status, and behind them what they are about.
fn say<'a, F: Files<File = File>, R: Read + Drop, W: Write + Drop>(
    rt: &HostRuntime,
    status: &Status,
    host: &FileHost<'a, F, R, W>,
) -> io::Result<()> {
    let name = host.name();
    match status {
        Status::Done => Ok(()),
        Status::Usage => eprintln!(rt; "hsql: usage: hsql DATABASE < ENTRIES"),
        Status::InputFault => say_why(rt, "input fault", host.input_reason()),
        Status::OutputFault => say_why(rt, "output fault", host.output_reason()),
        Status::DiskFault => say_why(rt, "disk fault", host.disk_reason()),
        Status::NoMemory => eprintln!(rt; "hsql: out of memory"),
        Status::Damaged(Damage::Foreign) => {
            let ending = host.foreign_ending();
            eprintln!(rt; "hsql: damaged foreign: {name}{ending}")
        }
        Status::Damaged(Damage::Log(group)) => {
            eprintln!(rt; "hsql: damaged log {group}: {name}.log")
        }
        Status::Damaged(Damage::Invalid(constraint)) => {
            let constraint = constraint.as_str();
            eprintln!(rt; "hsql: damaged constraint {constraint}: {name}.log")
        }
        Status::InputTooLong => eprintln!(rt; "hsql: input too long"),
    }
}

// Says which device failed and, where it is known and there is memory, why.
fn say_why(rt: &HostRuntime, fault: &str, reason: Option<Reason<'_>>) -> io::Result<()> {
    match reason.map(|reason| text_of(rt.alloc(), reason)) {
        Some(Ok(text)) => match text.split_once(" (os error") {
            Some((words, _)) => eprintln!(rt; "hsql: {fault}: {words}"),
            None => eprintln!(rt; "hsql: {fault}: {text}"),
        },
        _ => eprintln!(rt; "hsql: {fault}"),
    }
}

fn text_of(alloc: Global, reason: Reason<'_>) -> Result<String, AllocError> {
    format!(in alloc; "{reason}")
}

fn main(rt: HostRuntime) -> ExitCode {
    let alloc = rt.alloc();
    let mut host = FileHost::new(alloc, &rt, rt.reader(), io::writer(&rt));
    let status = match words(&rt, alloc) {
        Ok(words) => run(alloc, &words, &mut host),
        Err(error) if error.kind() == io::ErrorKind::OutOfMemory => Status::NoMemory,
        Err(_) => Status::Usage,
    };
    let _ = say(&rt, &status, &host);
    ExitCode::from(status.number())
}
