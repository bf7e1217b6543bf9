// Replays the two stored lists through the gate, that of single calls, which the first argument names, and that of plans, which the second names:
// every answer and every byte of each lent buffer is compared. What cannot be written is left out, and all else is done all the same.
#![tactic(auto)]

mod tally; // how many lines come to what

use answers::{Outcome, Stored};
use lines::Window;
use std::fs::File;
use std::os::fd::AsRawFd;
use std::rt::{Env, Files};
use tally::Tally;

// Says which line could not be read, or what the gate answered where it differs.
fn report(rt: &impl Print, list: Stored, line: u64, o: Outcome) {
    match o {
        Outcome::Comment => {}
        Outcome::Agrees(_) => {}
        Outcome::Unread => {
            let _ = println!(rt; "{}: line {line} cannot be read", tally::name(list));
        }
        Outcome::Differs(_, reply) => {
            let _ = println!(rt;
                "{}: line {line} differs: code {}, value {}",
                tally::name(list),
                answers::code_of(reply),
                answers::value_of(reply)
            );
        }
    }
}

// A proved loop has to end, and nothing says that an input does: it has more turns than any run uses up.
fn replay(rt: &impl Print, list: Stored, fd: i32, buf: &mut [u8]) -> Tally {
    let mut tally = Tally::new();
    let mut window = Window { at: 0, end: 0 };
    for _ in 0..u64::MAX {
        let Some(line) = lines::next(fd, buf, window) else {
            break;
        };
        let outcome = answers::judged(list, &buf[line.from..line.to]);
        tally = tally.counted(outcome);
        report(rt, list, tally.lines, outcome);
        window = line.rest;
    }
    tally
}

// Opens the file that argument k names, and says on the standard error why it cannot be.
fn open(rt: &(impl Env + Eprint + Files<File = File>), k: usize) -> Option<File> {
    let mut path = io::buffer();
    let length = rt.arg(k, &mut path).unwrap_or(0);
    let name = str::from_utf8(&path[..length]).unwrap_or("");
    match File::open(rt, name) {
        Ok(file) => Some(file),
        Err(e) => {
            let _ = eprintln!(rt; "{name}: {e}");
            None
        }
    }
}

// Replays the list that argument k names. What fails stands in the output.
fn run(rt: &(impl Env + Eprint + Files<File = File> + Print), list: Stored, k: usize) {
    let Some(file) = open(rt, k) else {
        let _ = println!(rt; "{}: cannot be opened", tally::name(list));
        return;
    };
    let mut buf = io::large_buffer();
    replay(rt, list, file.as_raw_fd(), &mut buf).print(rt, list);
}

fn main(rt: HostRuntime) {
    run(&rt, Stored::Calls, 1);
    run(&rt, Stored::Plans, 2);
}
