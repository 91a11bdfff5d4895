// Answers, each ended by a line `--`.
ghost use Rattle.std.specs.Prelude.{◌+◌, ◌≤◌, ◌≡◌, ◌++◌};
ghost use Rattle.tree.specs.code.Numbers.{Starts};
ghost use Rattle.page.specs.Page.{Wrote};
ghost use Rattle.desk.specs.Choices.{mode_of};
ghost use Rattle.desk.specs.Handed.{last_line, list_answer, refusal_answer, log_piece, Lists, Holds};

use crate::choices::Choices;
use crate::reading::Sizes;
use page::Writer;
use rules::{Answer, CODES, Refusal, WIDTH, WORK_WORDS};

// The words of 10,240 records: no valid tree has more.
pub const ANSWER: usize = WIDTH * 10240;

// Bytes for every text of a call with that much answer room, or every piece of a log, and for the last line.
pub const PAGE: usize = 11 * ANSWER + sarif_log::PIECE;

// No request is read after this one: why not is said.
#[derive(Clone, Copy, Debug, PartialEq, Eq)]
pub struct Stop;

// Nothing is kept back: a write goes to standard output at once.
pub fn say<P: Print + Eprint>(rt: &P, s: &[u8]) -> Result<(), Stop> {
    if rt.write_all(s).is_err() {
        let _ = rt.eprintln("desk: standard output can't be written");
        return Err(Stop);
    }
    Ok(())
}

// ---- bytes handed to a write call: a list, the line of a refusal, a piece of a log

fn hand_list<P: Print + Eprint>(
    rt: &P,
    s: &[u8],
    choices: Choices,
    t: &[u8],
    work: &[u16],
    answer: &[u32],
) -> Result<(), Stop>
    requires { s.now ≡ list_answer choices.bits t.now work.now answer.now }
{
    say(rt, s)
}

fn hand_refusal<P: Print + Eprint>(rt: &P, s: &[u8], why: Refusal) -> Result<(), Stop>
    requires { s.now ≡ refusal_answer why }
{
    say(rt, s)
}

fn hand_piece<P: Print + Eprint>(
    rt: &P,
    s: &[u8],
    choices: Choices,
    t: &[u8],
    k: usize,
) -> Result<(), Stop>
    requires { s.now ≡ log_piece choices.bits t.now k }
{
    say(rt, s)
}

// ---- answers

// Ends an answer of so many bytes.
fn ended(page: &mut [u8], count: usize) -> usize
    ensures { Wrote page.old count page.new result 3 (λ rest. last_line ++ rest) }
{
    let mut w = Writer { out: page, count };
    w.raw(b"--\n");
    w.count
}

fn refused<P: Print + Eprint>(rt: &P, page: &mut [u8; PAGE], why: Refusal) -> Result<(), Stop> {
    let count = text::refused(page, why);
    let end = ended(page, count);
    hand_refusal(rt, &page[..end], why)
}

// What a log is made of: the list of a tree file, the first n records of a room.
#[derive(Clone, Copy)]
struct Log<'a> {
    choices: Choices,
    t: &'a [u8],
    starts: &'a [usize; 512],
    list: &'a [u32],
    n: usize,
    tally: [usize; CODES],
    ghost lists: { Lists (mode_of choices.bits) t.now list.now n tally },
    ghost begun: { Starts t.now starts.now },
}

impl Log<'_> {
    fn piece<P: Print + Eprint>(&self, rt: &P, page: &mut [u8; PAGE], k: usize) -> Result<(), Stop>
        requires { k ≤ self.now.n + 1 }
    {
        let got = sarif_log::piece(page, self.t, self.starts, self.list, self.n, self.tally, k);
        hand_piece(rt, &page[..got], self.choices, self.t, k)
    }

    // One piece after the other.
    fn pieces<P: Print + Eprint>(&self, rt: &P, page: &mut [u8; PAGE]) -> Result<(), Stop> {
        for k in 0..=self.n + 1 {
            self.piece(rt, page, k)?;
        }
        say(rt, b"--\n")
    }

    // How many bytes the whole log has.
    fn size(&self) -> usize {
        sarif_log::log(&mut [], self.t, self.starts, self.list, self.n, self.tally)
    }

    // The log, where the output room that was asked for holds it: the program has one for every log, a piece at a time.
    fn measured<P: Print + Eprint>(
        &self,
        rt: &P,
        page: &mut [u8; PAGE],
        output: Option<usize>,
    ) -> Result<(), Stop> {
        if let Some(room) = output {
            let needed = self.size();
            if room < needed {
                return refused(rt, page, Refusal::OtherRoom(needed));
            }
        }
        self.pieces(rt, page)
    }
}

// A request for the list of a tree file, or for its log.
#[derive(Clone, Copy)]
pub struct Request<'a> {
    pub t: &'a [u8],
    pub choices: Choices,
    pub lent: Sizes,
}

impl Request<'_> {
    fn list<P: Print + Eprint>(
        &self,
        rt: &P,
        work: &mut [u16],
        answer: &mut [u32],
        page: &mut [u8; PAGE],
    ) -> Result<(), Stop>
        requires { Holds page.old answer.old }
    {
        let mode = self.choices.mode();
        let count = text::text(self.t, mode, work, answer, self.choices.tally(), page);
        let end = ended(page, count);
        hand_list(rt, &page[..end], self.choices, self.t, work, answer)
    }

    fn log<P: Print + Eprint>(
        &self,
        rt: &P,
        work: &mut [u16],
        answer: &mut [u32],
        page: &mut [u8; PAGE],
    ) -> Result<(), Stop> {
        let Answer { outcome, tally } = lint::lint(self.t, self.choices.mode(), work, answer);
        let n = match outcome {
            Ok(n) => n,
            Err(why) => return refused(rt, page, why),
        };
        let log = Log {
            choices: self.choices,
            t: self.t,
            starts: &tree::lookup::starts(self.t),
            list: answer,
            n,
            tally,
        };
        log.measured(rt, page, self.lent.output)
    }

    // A list or a log, as the choices say, in rooms of the sizes that were asked for.
    // Kept: the rooms one by one, since a method that lends two fields of its struct as `&mut` at once gets no proof yet.
    pub fn serve<P: Print + Eprint>(
        &self,
        rt: &P,
        work: &mut [u16; WORK_WORDS],
        answer: &mut [u32; ANSWER],
        page: &mut [u8; PAGE],
    ) -> Result<(), Stop> {
        let work = &mut work[..self.lent.work];
        let answer = &mut answer[..self.lent.answer];
        if self.choices.log() {
            self.log(rt, work, answer, page)
        } else {
            self.list(rt, work, answer, page)
        }
    }
}
