// The joined call, and its list as one SARIF log in lent bytes. The records are found in room of the call's own, so that a refusal,
// 12 among them, writes neither a warning nor a byte of the log.
#![tactic(auto)]

ghost use Rattle.std.specs.Prelude.{◌≡◌};
ghost use Rattle.rules.specs.Joined.{no_tally};
ghost use Rattle.rules.specs.Afterwards.{records_in};
ghost use Rattle.sarif.specs.Telling.{Listed, Tells};
ghost use Rattle.sarif.specs.Calls.{sarif_call};

use rules::{CODES, Refusal, WIDTH};
use tree::Mode;

// The words of the call's own room: no valid file has more than 10,240 records.
const ROOM: usize = WIDTH * 10240;

// What was written: records into the answer room, bytes into the output room.
#[derive(Clone, Copy, Debug, PartialEq, Eq)]
pub struct Sizes {
    pub records: usize,
    pub bytes: usize,
}

#[derive(Clone, Copy, Debug, PartialEq, Eq)]
pub struct Answer {
    pub outcome: Result<Sizes, Refusal>,
    pub tally: [usize; CODES],
}

fn refused(why: Refusal) -> Answer
    ensures { (result.outcome ≡ Err why) × (result.tally ≡ no_tally) }
{
    Answer {
        outcome: Err(why),
        tally: [0; CODES],
    }
}

// The log of a list of n records, if there is room for it and for them.
fn tell(
    t: &[u8],
    list: &[u32],
    n: usize,
    tally: [usize; CODES],
    answer: &mut [u32],
    output: &mut [u8],
) -> Answer
    requires { Listed t.now list.now n tally }
    ensures { Tells (records_in n list.now) t.now answer.old output.old result answer.new output.new }
{
    if answer.len() / WIDTH < n {
        return refused(Refusal::AnswerRoom(n));
    }
    let starts = tree::lookup::starts(t);
    let needed = sarif_log::log(&mut output[..0], t, &starts, list, n, tally);
    if output.len() < needed {
        return refused(Refusal::OtherRoom(needed));
    }
    let words = WIDTH * n;
    answer[..words].copy_from_slice(&list[..words]);
    sarif_log::log(output, t, &starts, list, n, tally);
    Answer {
        outcome: Ok(Sizes {
            records: n,
            bytes: needed,
        }),
        tally,
    }
}

// Every call is this one: the log, or one numbered refusal.
pub fn sarif(
    t: &[u8],
    mode: Mode,
    work: &mut [u16],
    answer: &mut [u32],
    output: &mut [u8],
) -> Answer
    ensures { record { answer = result; work = work.new; room = answer.new; output = output.new } ≡ sarif_call mode t.now work.old answer.old output.old }
{
    let mut list = [0u32; ROOM];
    let a = lint::lint(t, mode, work, &mut list);
    match a.outcome {
        Ok(n) => tell(t, &list, n, a.tally, answer, output),
        Err(why) => refused(why),
    }
}
