//! The program `scl`: it makes the words and the machine, runs, and ends with the run's status.
#![tactic(auto)]

use scl_cli::{Machine, Words, run};
use scl_outside::Duct;
use std::alloc::AllocError;
use std::env::{self, Env};
use std::io::{ErrorKind, Write};
use std::process::ExitCode;

const VERSION: &str = "scl 0.1.0\n";

const HELP: &str = "\
scl carries JPEG 2000 codestreams over RTP. It reads standard input and writes standard output.

  scl pack MTU plain|split KIND SOURCE NUMBER STAMP STEP
                                  cuts codestreams into datagrams of at most MTU bytes, 64 to 4116, and writes them as a
                                  capture; with split a change of resolution begins a datagram
  scl thin T                      passes on the frames of a capture that serve a receiver with the limit T,
                                  0 to 7: each Main, and each Body whose RES is at most T
  scl deliver LIST                writes the frames of a capture at the positions of LIST, counted from 0: none, or
                                  positions and ranges with commas between them, as 0-4,6
  scl report KIND SOURCE WINDOW   shows the precincts that a capture gives of a stream, each as soon as it is
                                  complete; SOURCE is an SSRC or any, WINDOW 1 to 16384 datagrams
  scl rebuild KIND SOURCE WINDOW  writes the codestreams of such a stream again, with an empty packet for each precinct that
                                  is missing
  scl send MTU plain|split KIND SOURCE NUMBER STAMP STEP IDLE LOCAL PEER
                                  sends the datagrams of codestreams from LOCAL to PEER; one is given up where it can't be
                                  sent IDLE times in a row
  scl recv KIND SOURCE WINDOW MAX IDLE LOCAL
                                  shows the precincts of a stream that comes to LOCAL, each as soon as it is complete;
                                  ends after MAX datagrams or IDLE milliseconds of silence
  scl relay MAX IDLE LOCAL PEER T DEPTH ..
                                  passes on MAX datagrams at most that come to LOCAL to 1 to 64 receivers, each with
                                  an address, a limit and a queue; ends after IDLE milliseconds of silence
  scl parse STAMP STEP            shows the packets of codestreams, with their timestamps
  scl gen SEED W H C LEVELS 444|422|420 [rpcl] [eph]
                                  writes a codestream of W by H samples and C components with drawn code-blocks: W and H
                                  are 1 to 4096, C 1 to 4, LEVELS 0 to 15
  scl trial SEED COUNT LOSS WINDOW T
                                  packs, loses, thins and receives COUNT generated codestreams, and writes one line of
                                  numbers: COUNT is 1 to 64, LOSS 0 to 1000 of 1000 datagrams
  scl head                        shows the main header at the front of a codestream
  scl order                       shows the precincts of that header's image in packet order
  scl --help                      this page
  scl --version                   the version

Status 0: done. 2: the words aren't one of these. 3: a read failed. 4: a write failed.
5: an address was refused, or no datagram could be received.
6: the input is refused; the line on standard error says where and why. 7: out of memory.
";

/// The line that follows `scl: words` on standard error.
const HINT: &[u8] = b"try 'scl --help'\n";

/// The words of the command line, without the program's name; none at all where one isn't UTF-8.
fn words_of<R: Env + AllocGlobal>(rt: &R) -> Result<Words, AllocError> {
    let mut words = Words::new(rt.alloc());
    match env::args(rt) {
        Ok(args) => {
            for word in args.skip(1) {
                words.add(word.as_str())?;
            }
            Ok(words)
        }
        Err(error) => match error.kind() {
            ErrorKind::OutOfMemory => Err(AllocError),
            _ => Ok(words),
        },
    }
}

/// The page that a word asks for where it is the only one.
fn page_for(words: &Words) -> Option<&'static str> {
    if words.len() != 1 {
        return None;
    }
    match words.get(0) {
        "--help" => Some(HELP),
        "--version" => Some(VERSION),
        _ => None,
    }
}

/// Writes a page, and answers the status: 0, or 4 where it can't be written.
fn show<W: Write + Drop>(mut output: W, page: &str) -> u8 {
    match output.write_all(page.as_bytes()) {
        Ok(()) => 0,
        Err(_) => 4,
    }
}

fn main(rt: HostRuntime) -> ExitCode {
    let Ok(words) = words_of(&rt) else {
        return ExitCode::from(7);
    };
    if let Some(page) = page_for(&words) {
        return ExitCode::from(show(rt.stdout(), page));
    }
    match Machine::new(rt.alloc(), rt.stdin(), rt.stdout(), rt.stderr(), rt) {
        Ok(mut machine) => {
            let status = run(rt.alloc(), &words, &mut machine);
            if status == 2 {
                machine.note(HINT);
            }
            ExitCode::from(machine.finish(status))
        }
        Err(_) => ExitCode::from(7),
    }
}
