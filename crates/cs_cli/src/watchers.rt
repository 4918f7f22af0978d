//! What is printed on standard error of the lines of a script that are refused or can't be read.
ghost use Rattle.std.specs.Prelude.{◌≡◌};

use cs_disk::SystemFault;
use cs_files::{Known, Todo, advice};
use cs_options::script::{BadLine, LineFault, Onward, Watcher, first_word};
use cs_refusal::Refusal;
use std::str;

/// Prints each such line's number and what is wrong with it, and goes on, or ends the script. If the device failed it
/// also prints what to do.
#[derive(Drop)]
pub struct Reporter<'a, R> {
    pub rt: &'a R,
    pub onward: Onward,
}

impl<R: Eprint> Watcher for Reporter<'_, R> {
    ghost meets = { λ before number text fault onward after. (onward ≡ before.onward) × (after ≡ before) };

    fn met(&mut self, number: u64, text: &[u8], fault: LineFault) -> Onward {
        tell(self.rt, number, text, fault);
        if let LineFault::Refused(Refusal::DeviceFault) = fault {
            tell_device(self.rt);
        }
        self.onward
    }
}

/// Prints the number of a line, and what is wrong with it.
fn tell<R: Eprint>(rt: &R, number: u64, text: &[u8], fault: LineFault) {
    let _ = match fault {
        LineFault::Bad(BadLine::NoCommand) => {
            let word = str::from_utf8(first_word(text)).unwrap_or("");
            eprintln!(rt; "line {number}: bad line: no command `{word}`")
        }
        LineFault::Bad(bad) => eprintln!(rt; "line {number}: bad line: {bad}"),
        LineFault::Refused(refusal) => {
            let code = refusal.number();
            let name = refusal.name();
            eprintln!(rt; "line {number}: refused {code} {name}: {refusal}")
        }
    };
}

/// Prints what to do where a page can't be read or written.
fn tell_device<R: Eprint>(rt: &R) {
    let known = Known::of_system(Some(SystemFault::Failed));
    if let Todo::Text(text) = advice(Refusal::DeviceFault, &known) {
        let _ = eprintln!(rt; "{text}");
    }
}
