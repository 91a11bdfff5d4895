// The log, piece by piece as specs/Log has it: each function writes a piece into the lent bytes after n others, and tells where it ends.
#![tactic(auto)]

ghost use Rattle.std.specs.Prelude.{◌≡◌, true, cond, ◌∷◌, ◌++◌, ◌+◌, ◌*◌, ◌-◌, ◌≤◌, eqb, ltb, length, drop};
ghost use Rattle.std.proofs.Math.Option.{some};
ghost use Rattle.tree.specs.Values.{value_from};
ghost use Rattle.tree.specs.Table.{table_of};
ghost use Rattle.tree.specs.code.Numbers.{Starts};
ghost use Rattle.rules.specs.Afterwards.{record_in, records_in};
ghost use Rattle.rules.specs.Record.{width};
ghost use Rattle.rules.specs.Joined.{codes};
ghost use Rattle.rules.specs.Codes.{short_name};
ghost use Rattle.answer.specs.Note.{span_from, rec_from};
ghost use Rattle.page.specs.Page.{Wrote, Added};
ghost use Rattle.json_text.specs.Escape.{escape};
ghost use Rattle.json_text.specs.Text.{string, ◌⇒◌, quoted, comma, text, member, lines};
ghost use Rattle.sarif_log.specs.Words.{shown as shown_of, value_of};
ghost use Rattle.sarif_log.specs.Log.{only, level as level_of, message_of, index_of, result as result_of, results as results_of, rule as rule_of, rules as rules_of, sarif_log};
ghost use Rattle.sarif_log.specs.Pieces.{open_place, related_place, second_related, all_related, message_end, rule_line, result_rule, result_standing, result_place, result_related, piece_most, head as head_of, tail as tail_of, piece_of, Here, Small};

use answer::{Ends, Words};
use codes::{EvalSeverity, severity, short_name};
use json_text::{escaped, hexes, string};
use page::Writer;
use rules::{CODES, Code, LAST_CODE, WIDTH};
use tree::bytes::{byte_at, u16_at, value_count};
use tree::kinds::ValueKind;
use words::{kind_word, phrase, second_words};

mod words;

fn level(w: &mut Writer<'_>, code: u32)
    ensures { Added w.old w.new 7 (λ rest. level_of code ++ rest) }
{
    match severity(code) {
        EvalSeverity::Disabled => w.raw(b"none"),
        EvalSeverity::Warning => w.raw(b"warning"),
    }
}

// A result's kind and its level: none goes with a kind other than fail.
fn standing(w: &mut Writer<'_>, code: u32)
    ensures { Added w.old w.new 37 (result_standing code) }
{
    match severity(code) {
        EvalSeverity::Disabled => w.raw(b"\"kind\":\"informational\",\"level\":\"none\""),
        EvalSeverity::Warning => w.raw(b"\"kind\":\"fail\",\"level\":\"warning\""),
    }
}

// 0 where a span ends before it begins.
fn length(at: Ends) -> u32
    ensures { result ≡ at.end - at.begin }
{
    at.end.saturating_sub(at.begin)
}

// A location but for its closing brace.
fn place(w: &mut Writer<'_>, at: Ends)
    ensures { Added w.old w.new 150 (open_place (span_from at)) }
{
    w.raw(
        b"{\"physicalLocation\":{\"artifactLocation\":{\"uri\":\"script.star\",\"index\":0},\"region\":{\"byteOffset\":",
    );
    w.number(at.begin);
    w.raw(b",\"byteLength\":");
    w.number(length(at));
    w.raw(b"}}");
}

// A related location.
fn other(w: &mut Writer<'_>, says: &[u8], at: Ends)
    requires { (escape 0 says.now ≡ says.now) × (length says.now ≤ 30) }
    ensures { Added w.old w.new 210 (related_place says.now (span_from at)) }
{
    place(w, at);
    w.raw(b",\"message\":{\"text\":\"");
    w.raw(says);
    w.raw(b"\"}}");
}

// The related location of a second span, where the code has words for it.
fn second(w: &mut Writer<'_>, code: u32, at: Ends)
    ensures { Added w.old w.new 210 (second_related code (span_from at)) }
{
    if let Some(says) = second_words(code) {
        other(w, says, at);
    }
}

// The third span of code 7 alone is a place.
fn related(w: &mut Writer<'_>, r: Words)
    ensures { Added w.old w.new 430 (all_related (rec_from r)) }
{
    second(w, r.code, r.second);
    if r.code == Code::MissingReturnExpression as u32 {
        w.raw(b",");
        other(w, b"why the function wants a value", r.third);
    }
}

// What a log tells of: a tree file, where each of its values starts, and how many records of each code its list has.
#[derive(Clone, Copy)]
struct Subject<'a> {
    t: &'a [u8],
    starts: &'a [usize; 512],
    tally: &'a [usize; CODES],
    ghost small: { Small t.now },
    ghost begun: { Starts t.now starts.now },
}

// The value that starts at o, as an argument has it.
fn shown(w: &mut Writer<'_>, t: &[u8], o: usize)
    requires { Here t.now o }
    ensures { Added w.old w.new 1530 (λ rest. escape 0 (shown_of (value_from t.now o)) ++ rest) }
{
    let from = o + 3;
    let bytes = &t[from..from + u16_at(t, o + 1)];
    if byte_at(t, o) <= ValueKind::Bytes as usize {
        escaped(w, bytes);
    } else {
        hexes(w, bytes);
    }
}

// What a message says after its phrase, of the value that starts at o.
fn value(w: &mut Writer<'_>, t: &[u8], o: usize)
    requires { Here t.now o }
    ensures { Added w.old w.new 1568 (message_end (some (value_from t.now o))) }
{
    kind_word(w, byte_at(t, o));
    w.raw(b"{0}\",\"arguments\":[\"");
    shown(w, t, o);
    w.raw(b"\"]}");
}

// The rules before that of a code: where it stands among them.
fn index_of(tally: &[usize; CODES], code: u32) -> u32
    ensures { result ≡ index_of tally.now code }
{
    let before = (code as usize).saturating_sub(1).min(CODES);
    let earlier = &tally[..before];
    let mut index = 0;
    for count in earlier {
        if *count != 0 {
            index += 1;
        }
    }
    index
}

// What stands before an item of its own line.
fn line(w: &mut Writer<'_>, first: bool)
    ensures { Added w.old w.new 2 (λ rest. comma first (0x0A ∷ rest)) }
{
    if first {
        w.raw(b"\n");
    } else {
        w.raw(b",\n");
    }
}

fn rule(w: &mut Writer<'_>, code: u32)
    ensures { Added w.old w.new 250 (text (rule_of code)) }
{
    w.raw(b"{\"id\":\"");
    w.number(code);
    w.raw(b"\",\"name\":");
    string(w, short_name(code));
    rule_level(w, code);
}

fn rule_level(w: &mut Writer<'_>, code: u32)
    ensures { Added w.old w.new 50 (λ rest. 0x2C ∷ member ("defaultConfiguration" ⇒ only ("level" ⇒ string (level_of code))) (0x7D ∷ rest)) }
{
    w.raw(b",\"defaultConfiguration\":{\"level\":\"");
    level(w, code);
    w.raw(b"\"}}");
}

// The rule of a code that is present.
fn rule_if(w: &mut Writer<'_>, tally: &[usize; CODES], code: u32)
    requires { (1 ≤ code) × (code ≤ codes) }
    ensures { Added w.old w.new 260 (rule_line tally.now code) }
{
    if tally[(code - 1) as usize] != 0 {
        line(w, index_of(tally, code) == 0);
        rule(w, code);
    }
}

fn rules(w: &mut Writer<'_>, tally: &[usize; CODES])
    ensures { Added w.old w.new 4420 (lines true (rules_of 1 tally.now)) }
{
    for code in 1..=LAST_CODE {
        rule_if(w, tally, code);
    }
}

// Record k of a list.
fn record_at(list: &[u32], k: usize) -> Words
    requires { width * k + width ≤ length list.now }
    ensures { rec_from result ≡ record_in (drop (width * k) list.now) }
{
    let a = WIDTH * k;
    Words {
        code: list[a],
        first: Ends {
            begin: list[a + 1],
            end: list[a + 2],
        },
        value: list[a + 3],
        second: Ends {
            begin: list[a + 4],
            end: list[a + 5],
        },
        third: Ends {
            begin: list[a + 6],
            end: list[a + 7],
        },
        number: list[a + 8],
        number2: list[a + 9],
    }
}

fn result_place(w: &mut Writer<'_>, r: Words)
    ensures { Added w.old w.new 210 (λ rest. result_place (rec_from r) (0x2C ∷ rest)) }
{
    w.raw(b",\"locations\":[");
    place(w, r.first);
    w.raw(b"}],");
    standing(w, r.code);
    w.raw(b",");
}

fn result_related(w: &mut Writer<'_>, r: Words)
    ensures { Added w.old w.new 460 (result_related (rec_from r)) }
{
    w.raw(b",\"relatedLocations\":[");
    related(w, r);
    w.raw(b"]}");
}

impl Subject<'_> {
    // What a message says after its phrase, of a value number, which may stand for none.
    fn said(&self, w: &mut Writer<'_>, v: u32)
        ensures { Added w.old w.new 1568 (message_end (value_of (table_of self.now.t.now) v)) }
    {
        let v = v as usize;
        if v < value_count(self.t) {
            value(w, self.t, self.starts[v]);
        } else {
            w.raw(b"\",\"arguments\":[]}");
        }
    }

    fn message(&self, w: &mut Writer<'_>, r: Words)
        ensures { Added w.old w.new 1650 (member (message_of (rec_from r) (value_of (table_of self.now.t.now) r.value))) }
    {
        w.raw(b"\"message\":{\"text\":\"");
        phrase(w, r.code, r.third.begin);
        self.said(w, r.value);
    }

    fn result_rule(&self, w: &mut Writer<'_>, code: u32)
        ensures { Added w.old w.new 50 (result_rule self.now.tally.now code) }
    {
        w.raw(b"{\"ruleId\":\"");
        w.number(code);
        w.raw(b"\",\"ruleIndex\":");
        w.number(index_of(self.tally, code));
    }

    fn result(&self, w: &mut Writer<'_>, r: Words)
        ensures { Added w.old w.new 2400 (text (result_of self.now.t.now self.now.tally.now (rec_from r))) }
    {
        self.result_rule(w, r.code);
        result_place(w, r);
        self.message(w, r);
        result_related(w, r);
    }

    // The result of record k of a list, on its line.
    fn result_line(&self, w: &mut Writer<'_>, list: &[u32], k: usize)
        requires { width * k + width ≤ length list.now }
        ensures { Added w.old w.new 2402 (λ rest. comma (eqb k 0) (0x0A ∷ text (result_of self.now.t.now self.now.tally.now (record_in (drop (width * k) list.now))) rest)) }
    {
        line(w, k == 0);
        self.result(w, record_at(list, k));
    }

    fn results(&self, w: &mut Writer<'_>, list: &[u32], count: usize)
        requires { width * count ≤ length list.now }
        ensures { Added w.old w.new (2402 * count) (lines true (results_of self.now.t.now self.now.tally.now (records_in count list.now))) }
    {
        for k in 0..count {
            self.result_line(w, list, k);
        }
    }

    fn piece(&self, w: &mut Writer<'_>, list: &[u32], count: usize, k: usize)
        requires { (width * count ≤ length list.now) × (k ≤ count + 1) }
        ensures { Added w.old w.new piece_most (λ rest. piece_of self.now.t.now self.now.tally.now (records_in count list.now) k ++ rest) }
    {
        if k == 0 {
            head(w, self.tally);
        } else if count < k {
            tail(w);
        } else {
            self.result_line(w, list, k - 1);
        }
    }
}

// What stands before the first result.
fn head(w: &mut Writer<'_>, tally: &[usize; CODES])
    ensures { Added w.old w.new 4900 (λ rest. head_of tally.now ++ rest) }
{
    w.raw(
        b"{\"$schema\":\"https://docs.oasis-open.org/sarif/sarif/v2.1.0/errata01/os/schemas/sarif-schema-2.1.0.json\",\"version\":\"2.1.0\",\"runs\":[{\"tool\":{\"driver\":{\"name\":\"Yudronkha\",\"rules\":[",
    );
    rules(w, tally);
    w.raw(b"]}},\"artifacts\":[{\"location\":{\"uri\":\"script.star\"}}],\"results\":[");
}

// What stands after the last result.
fn tail(w: &mut Writer<'_>)
    ensures { Added w.old w.new 5 (λ rest. tail_of ++ rest) }
{
    w.raw(b"]}]}\n");
}

// No piece has more bytes.
pub const PIECE: usize = 5000;

// Piece k of the log of the first `count` records of a list: 0 what stands before the first result, then each result on its line, and
// last what stands after them.
pub fn piece(
    out: &mut [u8],
    t: &[u8],
    starts: &[usize; 512],
    list: &[u32],
    count: usize,
    tally: [usize; CODES],
    k: usize,
) -> usize
    requires { Small t.now × Starts t.now starts.now × (width * count ≤ length list.now) × (k ≤ count + 1) }
    ensures { Wrote out.old 0 out.new result piece_most (λ rest. piece_of t.now tally (records_in count list.now) k ++ rest) }
{
    let subject = Subject {
        t,
        starts,
        tally: &tally,
    };
    let mut w = Writer::new(out);
    subject.piece(&mut w, list, count, k);
    w.count
}

// The log of the first `count` records of a list, all its pieces.
pub fn log(
    out: &mut [u8],
    t: &[u8],
    starts: &[usize; 512],
    list: &[u32],
    count: usize,
    tally: [usize; CODES],
) -> usize
    requires { Small t.now × Starts t.now starts.now × (width * count ≤ length list.now) }
    ensures { Wrote out.old 0 out.new result (5000 + 2402 * count) (λ rest. text (sarif_log t.now tally (records_in count list.now)) (0x0A ∷ rest)) }
{
    let mut w = Writer::new(out);
    let subject = Subject {
        t,
        starts,
        tally: &tally,
    };
    head(&mut w, &tally);
    subject.results(&mut w, list, count);
    tail(&mut w);
    w.count
}
