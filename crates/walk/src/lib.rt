// The walk of a whole text: one reading by recursive descent, with the refusals of the grammar stage, that fills four tables of rows.
#![tactic(auto)]

ghost use Rattle.std.specs.Prelude.{◌≡◌, replicate};
ghost use Rattle.grammar.specs.Grammar.{◌▸◌, ∎, version, application};
ghost use Rattle.grammar.specs.Stage.{Answers};
ghost use Rattle.grammar.specs.Demand.{Demand-3};
ghost use Rattle.filling.specs.Fills.{Fills, Walks};
ghost use Rattle.object_parts.specs.Rows.{FillAll};
ghost use Rattle.walk.specs.Whole.{Stands, ApplicationRows, Whole};

use grammar::lookahead::{CPU, EQUALS, LBRACE, OIL_VERSION, QUOTED};
use grammar::{Look, Refusal, lookahead, parts};
use rows::counts;

// What a walk tells beside the tables: the look after the file, spans of the version, the implementation and the CPU's name, the numbers of
// rows, the place of each kind's word in the implementation (0: none), that of the first kind's word that comes a second time (0: none), and
// the parts of each kind.
#[derive(Clone, Copy)]
pub struct Walked {
    pub look: Look,
    pub version_at: usize,
    pub version_len: usize,
    pub implementation_at: usize,
    pub implementation_len: usize,
    pub cpu_at: usize,
    pub cpu_len: usize,
    pub definitions: usize,
    pub enumerators: usize,
    pub parts: usize,
    pub statements: usize,
    pub places: [usize; counts::KINDS],
    pub again: usize,
    pub counts: [usize; counts::KINDS],
}

// The look after the version, with its string.
#[derive(Clone, Copy)]
pub struct Versioned {
    pub look: Look,
    pub at: usize,
    pub len: usize,
}

// The look after the application, with the CPU's name, the numbers of rows and the parts of each kind.
#[derive(Drop)]
pub struct Applied {
    pub look: Look,
    pub at: usize,
    pub len: usize,
    pub parts: usize,
    pub statements: usize,
    pub counts: [usize; counts::KINDS],
}

fn version(text: &[u8], a: Look) -> Versioned
    ensures { Fills 1 (version ▸ ∎) text.now a result.look (λ m. Stands m.0 result.at result.len) }
{
    let b = lookahead::expect(text, a, OIL_VERSION);
    let c = lookahead::expect(text, b, EQUALS);
    let d = lookahead::expect(text, c, QUOTED);
    let f = parts::finish(text, d);
    let len = filling::length(c);
    Versioned {
        look: f,
        at: c.at,
        len,
    }
}

fn application(text: &[u8], p: &mut [usize], s: &mut [usize], a: Look) -> Applied
    ensures { Walks FillAll 1 (application ▸ ∎) (λ w m. ApplicationRows result.at result.len w m.0) text.now a result.look (replicate 13 0, ((p.old, 0), (s.old, 0))) (result.counts, ((p.new, result.parts), (s.new, result.statements))) }
{
    let b = lookahead::expect(text, a, CPU);
    let c = lookahead::expect_name(text, b);
    let d = lookahead::expect(text, c, LBRACE);
    let x = object_parts::parts(text, p, s, d);
    let f = parts::close(text, x.look);
    let len = filling::length(b);
    let counts = x.counts;
    Applied {
        look: f,
        at: b.at,
        len,
        parts: x.parts,
        statements: x.statements,
        counts,
    }
}

// The walk, for any bytes and any tables. What is past a table's end is not stored.
pub fn walk(
    text: &[u8],
    d: &mut [usize],
    e: &mut [usize],
    p: &mut [usize],
    s: &mut [usize],
) -> Walked
    ensures { Whole text.now (record { definitions = d.old; enumerators = e.old; parts = p.old; statements = s.old }) (record { definitions = d.new; enumerators = e.new; parts = p.new; statements = s.new }) result }
{
    let a = lookahead::look_at(text, 0, 0);
    let v = version(text, a);
    let i = implementation::implementation(text, d, e, v.look);
    let y = application(text, p, s, i.look);
    let look = y.look;
    let places = i.places;
    let again = i.again.unwrap_or(0);
    let counts = y.counts;
    Walked {
        look,
        version_at: v.at,
        version_len: v.len,
        implementation_at: i.at,
        implementation_len: i.len,
        cpu_at: y.at,
        cpu_len: y.len,
        definitions: i.definitions,
        enumerators: i.enumerators,
        parts: y.parts,
        statements: y.statements,
        places,
        again,
        counts,
    }
}

// The grammar stage: refusals 3 to 5, for any bytes. It is the walk, whose rows are not kept.
pub fn stage(text: &[u8]) -> Result<(), Refusal>
    ensures answers { Answers text.now result }
    ensures demand_3 { Demand-3 text.now result }
{
    let mut d = [0; 1];
    let mut e = [0; 1];
    let mut p = [0; 1];
    let mut s = [0; 1];
    let w = walk(text, &mut d, &mut e, &mut p, &mut s);
    grammar::answer_of(w.look)
}
