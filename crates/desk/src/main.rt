// The desk's program: answers the requests on standard input one after the other, each as soon as it is read; docs/DESK.md has the
// framing. No contract can say what is read or written; what a write call is handed of a tree is required where it is handed (answers.rt).
#![tactic(auto)]

use crate::answers::{ANSWER, PAGE, Request, Stop, say};
use crate::choices::Choices;
use crate::reading::{Cut, LONGEST};
use rules::WORK_WORDS;
use std::io::Read;

mod answers;
mod choices;
mod reading;

fn cut<P: Print + Eprint>(rt: &P) -> Result<(), Stop> {
    say(rt, b"cut short\n--\n")?;
    Err(Stop)
}

fn over<R: Read, P: Eprint>(from: &mut R, rt: &P) -> Result<(), Stop> {
    if input::unreadable(from) {
        let _ = rt.eprintln("desk: standard input can't be read");
    }
    Err(Stop)
}

// What a request is read into, and what it is answered in.
#[derive(Drop)]
struct Desk {
    bytes: [u8; LONGEST],
    work: [u16; WORK_WORDS],
    answer: [u32; ANSWER],
    page: [u8; PAGE],
}

impl Desk {
    // A request whose choices are read.
    fn asked<R: Read, P: Print + Eprint>(
        &mut self,
        from: &mut R,
        rt: &P,
        choices: Choices,
    ) -> Result<(), Stop> {
        let lent = reading::lent(from, choices);
        let Ok(input) = reading::inputs(from, &mut self.bytes, choices) else {
            return cut(rt);
        };
        if !choices.known() {
            return say(rt, b"no such request\n--\n");
        }
        let Some(t) = input else {
            return say(rt, b"too long\n--\n");
        };
        let request = Request { t, choices, lent };
        request.serve(rt, &mut self.work, &mut self.answer, &mut self.page)
    }

    // The next request, if there is one more.
    fn next<R: Read, P: Print + Eprint>(&mut self, from: &mut R, rt: &P) -> Result<(), Stop> {
        match reading::next(from) {
            Ok(Some(bits)) => self.asked(from, rt, Choices::from(bits)),
            Ok(None) => over(from, rt),
            Err(Cut) => cut(rt),
        }
    }

    // One request after the other.
    fn requests<R: Read, P: Print + Eprint>(&mut self, from: &mut R, rt: &P) {
        for _ in 0..usize::MAX {
            if self.next(from, rt).is_err() {
                return;
            }
        }
    }
}

// The rooms stand here, once for all requests.
fn main(rt: HostRuntime) {
    let mut desk = Desk {
        bytes: [0; LONGEST],
        work: [0; WORK_WORDS],
        answer: [0; ANSWER],
        page: [0; PAGE],
    };
    desk.requests(&mut rt.stdin(), &rt);
}
