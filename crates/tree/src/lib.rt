// The tree file of document 01: any bytes are judged, and are a valid tree or refused by number and place.
// Cost of judge: linear in the bytes, about 460 instructions a node (by callgrind, at 255 statements that are calls). Stack: two
// arrays of 2 KiB, the parents and the depths, and what the compiler adds.
// What a pass asks of the values of a file that was judged is in lookup and keys, with its cost there.
#![tactic(auto)]

ghost use Rattle.std.specs.Prelude.{◌≡◌, ◌≤◌};
ghost use Rattle.tree.specs.Judge.{number_of, place_of, marked, versioned, limits, judged};
ghost use Rattle.tree.specs.Keys.{reason};
ghost use Rattle.tree.specs.Table.{listed};
ghost use Rattle.tree.specs.code.Stages.{judged6, judged4, facts_at, Formed};

use bytes::{bytes_are, global_count, node_count, value_count, version_of};
use children::check_children;
use lookup::{NOT_GIVEN, listed_of};
use nodes::{File, parents};
use values::{check_values, count_names, offset_of};

pub mod bytes;
pub mod children;
mod floats;
pub mod keys;
pub mod kinds;
pub mod lookup;
mod nodes;
pub mod siblings;
mod values;

// What a valid file says of itself.
#[derive(Clone, Copy, Debug, PartialEq, Eq)]
pub struct Facts {
    pub version: usize,
    pub nodes: usize,
    pub values: usize,
    pub names: usize,
    pub globals: usize,
    pub rest: usize,
}

// Why a file is refused, with the place where 01 gives one. Specs' number_of and place_of give 01's numbers.
#[derive(Clone, Copy, Debug, PartialEq, Eq)]
pub enum Refusal {
    Mark,
    Version,
    Counts,
    Sections,
    Value(usize),
    Node(usize),
    Children(usize),
    Depth(usize),
    Global(usize),
}

impl Refusal {
    // 01's number.
    pub fn number(self) -> usize
        ensures { result ≡ number_of self }
    {
        match self {
            Refusal::Mark => 1,
            Refusal::Version => 2,
            Refusal::Counts => 3,
            Refusal::Sections => 4,
            Refusal::Value(_) => 5,
            Refusal::Node(_) => 6,
            Refusal::Children(_) => 7,
            Refusal::Depth(_) => 8,
            Refusal::Global(_) => 9,
        }
    }

    // 01's place: a value's number, a node's, or a global's position.
    pub fn place(self) -> usize
        ensures { result ≡ place_of self }
    {
        match self {
            Refusal::Mark | Refusal::Version | Refusal::Counts | Refusal::Sections => 0,
            Refusal::Value(i)
            | Refusal::Node(i)
            | Refusal::Children(i)
            | Refusal::Depth(i)
            | Refusal::Global(i) => i,
        }
    }
}

// Key equality. Ordinary: whole floats of i32 are integers. Strict: whole floats of every size are.
#[derive(Clone, Copy, Debug, PartialEq, Eq)]
pub enum Mode {
    Ordinary,
    Strict,
}

// What the key test says of two keys. Specs' reason gives 02's numbers.
#[derive(Clone, Copy, Debug, PartialEq, Eq)]
pub enum Likeness {
    Different,
    SameForm,
    SameNumber,
}

impl Likeness {
    // 02's number, 1 or 2; 0 where there is none.
    // Kept: that 0: its contract's reason has it.
    pub fn reason(self) -> u32
        ensures { result ≡ reason self }
    {
        match self {
            Likeness::Different => 0,
            Likeness::SameForm => 1,
            Likeness::SameNumber => 2,
        }
    }
}

// 6 to 9, of values that are in form: what the file says of itself stands, if nothing is refused.
fn judge_nodes(t: &[u8], f: Facts) -> Result<Facts, Refusal>
    requires { Formed t.now f × (listed f.globals ≤ 512) × (f ≡ facts_at t.now f.nodes f.values f.globals) }
    ensures { result ≡ judged6 t.now f.nodes f.values f.globals }
{
    let file = File {
        t,
        says: f,
        parents: &parents(t, f.nodes),
    };
    file.check_nodes()?;
    check_children(t, f.nodes, f.values)?;
    file.check_depths()?;
    file.check_globals(listed_of(f.globals))?;
    Ok(f)
}

// 4 and 5, and what follows them.
fn judge_sections(t: &[u8], nodes: usize, values: usize, globals: usize) -> Result<Facts, Refusal>
    requires { (nodes ≤ 1024) × (values ≤ 512) × (listed globals ≤ 512) × (1 ≤ nodes) }
    ensures { result ≡ judged4 t.now nodes values globals }
{
    let rest = offset_of(t, nodes, values);
    if rest + 2 * listed_of(globals) != t.len() {
        return Err(Refusal::Sections);
    }
    check_values(t, nodes, values)?;
    let f = Facts {
        version: version_of(t),
        nodes,
        values,
        names: count_names(t, nodes, values),
        globals,
        rest,
    };
    judge_nodes(t, f)
}

fn within(n: usize, nv: usize, g: usize) -> bool
    ensures { result ≡ limits n nv g }
{
    1 <= n && n <= 1024 && nv <= 512 && (g <= 512 || g == NOT_GIVEN)
}

fn has_mark(t: &[u8]) -> bool
    ensures { result ≡ marked t.now }
{
    11 <= t.len() && bytes_are(t, 0, b"SLT")
}

fn has_version(t: &[u8]) -> bool
    ensures { result ≡ versioned t.now }
{
    matches!(version_of(t), 1 | 2)
}

pub fn judge(t: &[u8]) -> Result<Facts, Refusal>
    ensures { result ≡ judged t.now }
{
    if !has_mark(t) {
        return Err(Refusal::Mark);
    }
    if !has_version(t) {
        return Err(Refusal::Version);
    }
    let (nodes, values, globals) = (node_count(t), value_count(t), global_count(t));
    if !within(nodes, values, globals) {
        return Err(Refusal::Counts);
    }
    judge_sections(t, nodes, values, globals)
}
