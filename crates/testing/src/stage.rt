// The grammar stage.
ghost use Rattle.std.specs.Prelude.{◌≡◌};
ghost use Rattle.testing.specs.Stages.{Numbered, Placed};

use grammar::Refusal;

// The number of the refusal, 0 where there is none.
#[unsafe(no_mangle)]
pub extern "C" fn kaukslini_stage_number(text: &[u8]) -> u8
    ensures { Numbered text.now result }
{
    match walk::stage(text) {
        Ok(()) => 0,
        Err(Refusal::NoToken(_)) => 3,
        Err(Refusal::NotAdmitted(_)) => 4,
        Err(Refusal::TooDeep(_)) => 5,
    }
}

// The place of the refusal, 0 where there is none.
#[unsafe(no_mangle)]
pub extern "C" fn kaukslini_stage_place(text: &[u8]) -> usize
    ensures { Placed text.now result }
{
    match walk::stage(text) {
        Ok(()) => 0,
        Err(Refusal::NoToken(p)) => p,
        Err(Refusal::NotAdmitted(p)) => p,
        Err(Refusal::TooDeep(p)) => p,
    }
}
