// What a pass writes: records into a lent slice, and a tally of counts.
// Every function here is total: a record for which there is no room is only counted, and a count stays at the largest usize.
#![tactic(auto)]

ghost use Rattle.std.specs.Prelude.{◌≡◌, List, [], ◌∷◌, ◌<◌, ◌≤◌, length, Ok, Err};
ghost use Rattle.tree.specs.Forest.{number_at, node_head};
ghost use Rattle.rules.specs.Record.{Rec, plainly};
ghost use Rattle.rules.specs.Joined.{raise, no_tally};
ghost use Rattle.answer.specs.Page.{stored, page, Added};
ghost use Rattle.answer.specs.Answers.{Answers};
ghost use Rattle.answer.specs.Note.{span_of, span_from, value_of, node_of, rec_of, rec_from};

use rules::{Answer, CODES, Refusal, WIDTH};
use tree::Likeness;
use tree::bytes::{begin_at, end_at, value_at};

// What a record speaks of: nothing, a node, or why two keys are equal, which stands where a third span would.
#[derive(Clone, Copy, Debug, PartialEq, Eq)]
pub enum Place {
    Nowhere,
    Node(usize),
    Reason(Likeness),
}

// A record: its code, the node that it is at, and what its value, second and third span come from.
#[derive(Clone, Copy, Debug, PartialEq, Eq)]
pub struct Note {
    pub code: u32,
    pub at: usize,
    pub value: Place,
    pub second: Place,
    pub third: Place,
}

// How many records there are so far, and how many of each code.
#[derive(Clone, Copy, Debug, PartialEq, Eq)]
pub struct Sheet {
    pub count: usize,
    pub tally: [usize; CODES],
}

// A sheet over the words that it is written into.
#[derive(Drop)]
pub struct LentSheet<'a> {
    pub out: &'a mut [u32],
    pub sheet: Sheet,
}

// Where a span begins and ends.
#[derive(Clone, Copy, Debug, PartialEq, Eq)]
pub struct Ends {
    pub begin: u32,
    pub end: u32,
}

// A record's words: its code, its first span and value, its second and third span, its node and that of its second span.
#[derive(Clone, Copy, Debug, PartialEq, Eq)]
pub struct Words {
    pub code: u32,
    pub first: Ends,
    pub value: u32,
    pub second: Ends,
    pub third: Ends,
    pub number: u32,
    pub number2: u32,
}

fn raise_at(counts: &mut [usize], code: usize)
    ensures { counts.new ≡ raise code counts.old }
{
    if 1 <= code && code <= counts.len() {
        let k = code - 1;
        counts[k] = counts[k].saturating_add(1);
    }
}

// The tally with the count of one code raised.
pub fn raised(tally: [usize; CODES], code: u32) -> [usize; CODES]
    ensures { result ≡ raise code tally }
{
    let mut counts = tally;
    raise_at(&mut counts, code as usize);
    counts
}

// Where a place begins and ends; of why two keys are equal, its number and 0.
#[tactic(auto, unfolding(crate::specs::Note::span_of, tree::specs::Forest::node_spot))]
fn ends_of(t: &[u8], p: Place) -> Ends
    ensures { span_from result ≡ span_of t.now p }
{
    match p {
        Place::Nowhere => Ends { begin: 0, end: 0 },
        Place::Node(i) => Ends {
            begin: begin_at(t, i) as u32,
            end: end_at(t, i) as u32,
        },
        Place::Reason(l) => Ends {
            begin: l.reason(),
            end: 0,
        },
    }
}

// 65535 stands for no value and for no node (02, §4): a record is words alone.
#[tactic(auto, unfolding(crate::specs::Note::value_of, tree::specs::Forest::node_spot))]
fn value_of(t: &[u8], p: Place) -> u32
    ensures { result ≡ value_of t.now p }
{
    match p {
        Place::Node(i) => value_at(t, i) as u32,
        Place::Nowhere | Place::Reason(_) => 65535,
    }
}

fn number_at(i: usize) -> u32
    ensures { result ≡ number_at i }
{
    i.min(65535) as u32
}

// The number of the node that a span comes from.
#[tactic(auto, unfolding(crate::specs::Note::node_of))]
fn number_of(p: Place) -> u32
    ensures { result ≡ node_of p }
{
    match p {
        Place::Node(i) => number_at(i),
        Place::Nowhere | Place::Reason(_) => 65535,
    }
}

fn words_of(t: &[u8], n: Note) -> Words
    ensures { rec_from result ≡ rec_of t.now n }
{
    Words {
        code: n.code,
        first: ends_of(t, Place::Node(n.at)),
        value: value_of(t, n.value),
        second: ends_of(t, n.second),
        third: ends_of(t, n.third),
        number: number_at(n.at),
        number2: number_of(n.second),
    }
}

// The n-th record stored, where there is room for it.
fn emit(out: &mut [u32], n: usize, r: Words)
    ensures { out.new ≡ stored out.old n (rec_from r) }
{
    if n < out.len() / WIDTH {
        let a = WIDTH * n;
        out[a..a + WIDTH].copy_from_slice(&[
            r.code,
            r.first.begin,
            r.first.end,
            r.value,
            r.second.begin,
            r.second.end,
            r.third.begin,
            r.third.end,
            r.number,
            r.number2,
        ]);
    }
}

impl<'a> LentSheet<'a> {
    // Nothing written yet, with the counts of the passes before.
    pub fn new(out: &'a mut [u32], tally: [usize; CODES]) -> LentSheet<'a>
        ensures { (page result ≡ record { out = out.old; count = 0; tally = tally }) × (result.out.ghost_name ≡ out.entry.ghost_name) }
    {
        LentSheet {
            out,
            sheet: Sheet { count: 0, tally },
        }
    }

    // One more record: stored where there is room for it, and counted.
    pub fn put(&mut self, t: &[u8], n: Note)
        ensures { Added self.old self.new (rec_of t.now n ∷ []) }
    {
        emit(self.out, self.sheet.count, words_of(t, n));
        self.sheet.count = self.sheet.count.saturating_add(1);
        self.sheet.tally = raised(self.sheet.tally, n.code);
    }

    // A record of a node's own span and of no value.
    #[tactic(auto, unfolding(crate::specs::Note::rec_of, crate::specs::Note::span_of, crate::specs::Note::value_of, crate::specs::Note::node_of, tree::specs::Forest::node_head))]
    pub fn put_plainly(&mut self, t: &[u8], code: u32, i: usize)
        ensures { Added self.old self.new (plainly code (node_head t.now i) ∷ []) }
    {
        self.put(
            t,
            Note {
                code,
                at: i,
                value: Place::Nowhere,
                second: Place::Nowhere,
                third: Place::Nowhere,
            },
        );
    }

    // What is written is the whole list.
    pub fn listed(&self) -> Answer
        ensures { (result.outcome ≡ Ok self.now.sheet.count) × (result.tally ≡ self.now.sheet.tally) }
    {
        Answer {
            outcome: Ok(self.sheet.count),
            tally: self.sheet.tally,
        }
    }
}

// A refusal: its tally is all zero.
pub fn refused(why: Refusal) -> Answer
    ensures { (result.outcome ≡ Err why) × (result.tally ≡ no_tally) }
{
    Answer {
        outcome: Err(why),
        tally: [0; CODES],
    }
}

// A pass over a file: what it needs to be run, and the records that it then adds to any sheet.
pub trait Pass {
    ghost ready: { Self → Type 0 };

    ghost records: { Self → List Rec };

    fn lint(&self, sheet: &mut LentSheet<'_>)
        requires { ready self.now }
        ensures { Added sheet.old sheet.new (records self.now) };
}

// A whole pass over a valid file: counted first, into no room, and written where there is room for all.
pub fn answered<P: Pass>(pass: &P, out: &mut [u32], tally: [usize; CODES]) -> Answer
    requires { P.ready pass.now × (length (P.records pass.now) ≤ 18446744073709551615) }
    ensures { Answers (P.records pass.now) out.old tally result out.new }
{
    let mut counted = LentSheet::new(&mut out[..0], tally);
    pass.lint(&mut counted);
    let records = counted.sheet.count;
    if out.len() / WIDTH < records {
        return refused(Refusal::AnswerRoom(records));
    }
    let mut sheet = LentSheet::new(out, tally);
    pass.lint(&mut sheet);
    sheet.listed()
}
