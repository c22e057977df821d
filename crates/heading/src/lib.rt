// The version string and the implementation's name of a text, told from its front alone (document 02, Q-7). No tables are lent.
#![tactic(auto)]

ghost use Rattle.heading.specs.Headings.{Heads};
ghost use Rattle.heading.specs.Promises.{Q-7};

use grammar::lookahead::{
    EQUALS, IMPLEMENTATION, LBRACE, NO_TOKEN, NOT_ADMITTED, OIL_VERSION, QUOTED,
};
use grammar::{lookahead, parts};
use rows::{Fault, refusals};

// The version string without its quotes, and the implementation's name: place and length of each.
#[derive(Clone, Copy, Debug, PartialEq, Eq)]
pub struct VersionAndName {
    pub version_at: usize,
    pub version_len: usize,
    pub name_at: usize,
    pub name_len: usize,
}

// OIL_VERSION `=` string D `;` IMPLEMENTATION name `{`: no byte after the brace is looked at. What is refused has one of the numbers 2 to 5.
pub fn heading(text: &[u8]) -> Result<VersionAndName, Fault>
    ensures heads { Heads text.now result }
    ensures q_7 { Q-7 text.now result }
{
    if text.len() > token::LONGEST {
        return Err(Fault {
            number: refusals::LONG_TEXT,
            place: 0,
        });
    }
    let a = lookahead::look_at(text, 0, 0);
    let b = lookahead::expect(text, a, OIL_VERSION);
    let c = lookahead::expect(text, b, EQUALS);
    let d = lookahead::expect(text, c, QUOTED);
    let e = parts::finish(text, d);
    let f = lookahead::expect(text, e, IMPLEMENTATION);
    let g = lookahead::expect_name(text, f);
    if g.code == LBRACE {
        let told = VersionAndName {
            version_at: c.at + 1,
            version_len: c.next - c.at - 2,
            name_at: f.at,
            name_len: f.next - f.at,
        };
        return Ok(told);
    }
    let h = lookahead::refuse(g);
    if h.code == NO_TOKEN {
        return Err(Fault {
            number: refusals::NO_TOKEN,
            place: h.at,
        });
    }
    if h.code == NOT_ADMITTED {
        return Err(Fault {
            number: refusals::NOT_ADMITTED,
            place: h.at,
        });
    }
    Err(Fault {
        number: refusals::TOO_DEEP,
        place: h.at,
    })
}
