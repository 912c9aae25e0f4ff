// Reads a case file from standard input, and prints its text, or the one line of its refusal. A fault of the system is no verdict: it is told on standard error.
#![tactic(auto)]

use std::env::FillError;
use std::io::Write;
use std::rt::Env;

fn tell<R: Eprint>(rt: &R, fault: &str) {
    let _ = rt.eprintln(fault);
}

// Runs a case, and prints it.
fn judge<R: Print + Eprint>(rt: &R, case: &[u8]) {
    let mut words = [0u32; 16384];
    let mut list = [0u32; 16384];
    let mut text = [0u8; 65536];
    let t = casefile::print_case(case, &mut words, &mut list, &mut text);
    let end = t.at;
    if rt.write_all(&text[..end]).is_err() {
        tell(rt, "memcase: standard output cannot be written");
    }
}

// Whether an argument is given after the program's name.
fn has_argument<R: Env>(rt: &R) -> bool {
    !matches!(rt.arg(1, &mut []), Err(FillError::NotPresent))
}

fn main(rt: HostRuntime) {
    if has_argument(&rt) {
        tell(
            &rt,
            "memcase: takes no argument, and reads the case from standard input",
        );
        return;
    }
    let mut case = [0u8; 65536];
    match input::read_full(&mut rt.stdin(), &mut case) {
        Ok(n) => judge(&rt, &case[..n]),
        Err(_) => tell(&rt, "memcase: standard input cannot be read"),
    }
}
