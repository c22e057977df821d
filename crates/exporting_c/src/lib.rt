// The calls for programs in C (document 02, Q-13), as include/kaukslini.h declares them: each is the call of that name of the crate exporting.
#![tactic(auto)]

ghost use Rattle.exporting.specs.Rules.{NormalByRules, ValueByRules, HeadingByRules, ExplainsByRules};

use exporting::{Heading, Position, Told};

// The normal text of a text, to the front of the output. The output stays where the number is not 0.
#[unsafe(no_mangle)]
pub extern "C" fn kaukslini_normal_text(text: &[u8], output: &mut [u8]) -> Told
    ensures { NormalByRules text.now output.old output.new result }
{
    exporting::kaukslini_normal_text(text, output)
}

// The value of one attribute, to the front of the output. The output stays where the number is not 0.
#[unsafe(no_mangle)]
pub extern "C" fn kaukslini_value(
    text: &[u8],
    kind: &[u8],
    name: &[u8],
    path: &[u8],
    output: &mut [u8],
) -> Told
    ensures { ValueByRules text.now kind.now name.now path.now output.old output.new result }
{
    exporting::kaukslini_value(text, kind, name, path, output)
}

// The version string and the implementation's name of a text, told from its front alone.
#[unsafe(no_mangle)]
pub extern "C" fn kaukslini_heading(text: &[u8]) -> Heading
    ensures { HeadingByRules text.now result }
{
    exporting::kaukslini_heading(text)
}

// Line and column of a place of a text, and the two lines that show it, to the front of the output as far as it reaches. A place past the text is its end.
#[unsafe(no_mangle)]
pub extern "C" fn kaukslini_explain(text: &[u8], place: usize, output: &mut [u8]) -> Position
    ensures { ExplainsByRules text.now place output.old output.new result }
{
    exporting::kaukslini_explain(text, place, output)
}
