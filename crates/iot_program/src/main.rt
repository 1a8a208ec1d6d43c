//! `iot`: remote management of eSIM profiles, replayed over recorded octets.
#![tactic(auto)]

mod run;
#[cfg(test)]
mod tests;
mod words;

ghost use Rattle.std.specs.Prelude.{◌≡◌, ◌≢◌};
ghost use Rattle.std.specs.IoError.{error_kind};

use chip_port::{Bench, MemChip};
use file_chip::FileChip;
use iot_bytes::{NoMemory, Row, StdSink, StdSource};
use modem_bank::{Modem, PlainModem, SplitModem};
use run::{FAULTY_WORDS, run};
use std::io::{self, BufReader, ErrorKind};
use std::process::ExitCode;
use std::{env, fs};
use words::{Form, form_of_words};

const NO_MEMORY: u8 = 6;

// What can be opened, and neither read nor written.
const FOLDER: &str = "/";

// The words behind the program's name.
fn command_line(rt: &HostRuntime) -> io::Result<Vec<String>> {
    let mut words = Vec::new(rt.alloc());
    for word in env::args(rt)?.skip(1) {
        words.push(word)?;
    }
    Ok(words)
}

// Runs over the standard input, which is buffered, and the standard output, which isn't: an answer
// leaves the program as soon as its frame is handled. The device has two modems.
fn run_over_streams<B: Bench>(rt: &HostRuntime, words: &[String], bench: &mut B) -> io::Result<u8> {
    let mut source = StdSource::new(BufReader::new(rt.alloc(), rt.stdin())?);
    let mut sink = StdSink::new(rt.stdout());
    let alloc = rt.alloc();
    let mut modems: Vec<Box<dyn Modem>> = Vec::new(alloc);
    modems.push(Box::new(alloc, PlainModem::new())?)?;
    modems.push(Box::new(alloc, SplitModem::new())?)?;
    Ok(run(alloc, words, &mut source, &mut sink, bench, &mut modems))
}

// Runs over a chip in memory: the one of a replay, and one that no other form but `card` asks for.
fn run_in_memory(rt: &HostRuntime, words: &[String]) -> io::Result<u8> {
    match MemChip::new(rt.alloc(), Row::new(rt.alloc())) {
        Ok(chip) => {
            let mut chip = chip;
            run_over_streams(rt, words, &mut chip)
        }
        Err(NoMemory) => Err(io::Error::from(ErrorKind::OutOfMemory)),
    }
}

// Runs over the card's file. A file that is opened takes the place of a standard stream that is
// closed, so one that fails each read and write is opened three times before it.
fn run_in_file(rt: &HostRuntime, words: &[String], path: &str) -> io::Result<u8> {
    let _input = fs::open(rt, FOLDER);
    let _output = fs::open(rt, FOLDER);
    let _errors = fs::open(rt, FOLDER);
    run_over_streams(rt, words, &mut FileChip::at(rt, path))
}

// Runs over the file that the words name, or over a chip in memory.
fn run_words(rt: &HostRuntime) -> io::Result<u8> {
    let words = command_line(rt)?;
    match (form_of_words(&words), words.as_slice()) {
        (Some(Form::Card), [_, path]) => run_in_file(rt, &words, path.as_str()),
        _ => run_in_memory(rt, &words),
    }
}

// The status where the program can't run: memory is wanting, or a word isn't UTF-8.
fn status_of(error: &io::Error) -> u8
    ensures memory { error_kind error.now ≡ ErrorKind.OutOfMemory → result ≡ 6 }
    ensures words { error_kind error.now ≢ ErrorKind.OutOfMemory → result ≡ 1 }
{
    match error.kind() {
        ErrorKind::OutOfMemory => NO_MEMORY,
        _ => FAULTY_WORDS,
    }
}

fn main(rt: HostRuntime) -> ExitCode {
    match run_words(&rt) {
        Ok(status) => ExitCode::from(status),
        Err(error) => ExitCode::from(status_of(&error)),
    }
}
