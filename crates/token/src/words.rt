// The known words and their codes.
ghost use Rattle.std.specs.Prelude.{◌≡◌, ◌<◌, length, get_or, []};
ghost use Rattle.token.specs.Words.{known, same, code_of};
ghost use Rattle.token.specs.Slots.{slot_by, candidate_of};

// The known words.
static KNOWN: [&[u8]; 42] = [
    b"TRUE",
    b"FALSE",
    b"AUTO",
    b"NO_DEFAULT",
    b"WITH_AUTO",
    b"OIL_VERSION",
    b"IMPLEMENTATION",
    b"CPU",
    b"OS",
    b"APPMODE",
    b"TASK",
    b"ISR",
    b"COUNTER",
    b"ALARM",
    b"RESOURCE",
    b"EVENT",
    b"COM",
    b"MESSAGE",
    b"NETWORKMESSAGE",
    b"IPDU",
    b"NM",
    b"OS_TYPE",
    b"APPMODE_TYPE",
    b"TASK_TYPE",
    b"ISR_TYPE",
    b"COUNTER_TYPE",
    b"ALARM_TYPE",
    b"RESOURCE_TYPE",
    b"EVENT_TYPE",
    b"COM_TYPE",
    b"MESSAGE_TYPE",
    b"NETWORKMESSAGE_TYPE",
    b"IPDU_TYPE",
    b"NM_TYPE",
    b"UINT32",
    b"INT32",
    b"UINT64",
    b"INT64",
    b"STRING",
    b"BOOLEAN",
    b"ENUM",
    b"FLOAT",
];

// Whether a word is the known word k.
fn is_known(word: &[u8], k: usize) -> bool
    requires { k < 42 }
    ensures { result ≡ same word.now (get_or known k []) }
{
    word == KNOWN[k]
}

// For each slot the code of the one known word that has it, or 0.
static CANDIDATES: [u8; 128] = [
    0, 17, 0, 0, 0, 0, 0, 0, 41, 0, 0, 40, 0, 0, 3, 0, 0, 0, 0, 0, 0, 0, 0, 0, 0, 0, 0, 0, 0, 0, 0,
    0, 0, 21, 36, 11, 0, 0, 0, 7, 0, 0, 0, 0, 0, 0, 0, 0, 0, 0, 13, 0, 38, 0, 6, 10, 0, 0, 27, 0,
    23, 0, 30, 0, 12, 0, 26, 0, 2, 0, 29, 35, 16, 8, 0, 42, 0, 0, 0, 0, 25, 33, 0, 0, 0, 5, 0, 0,
    0, 37, 9, 18, 20, 0, 34, 0, 31, 22, 0, 0, 0, 19, 0, 0, 4, 0, 32, 15, 0, 1, 0, 0, 28, 0, 24, 0,
    0, 0, 0, 0, 0, 0, 0, 0, 0, 14, 39, 0,
];

// The code of the one known word that has the slot, or 0.
fn candidate(slot: usize) -> u8
    requires { slot < 128 }
    ensures { result ≡ candidate_of slot }
{
    CANDIDATES[slot]
}

// The slot of a word of n bytes that begins with a and ends with z. No two known words have the same.
#[tactic(auto, unfolding(crate::specs::Slots::slot_by))]
fn slot(n: usize, a: u8, z: u8) -> usize
    requires { n < 20 }
    ensures { result ≡ slot_by n a z }
{
    (n + 3 * (a as usize) + 9 * (z as usize)) % 128
}

// The code of a word. It is compared with one known word at most.
pub fn code(word: &[u8]) -> u8
    ensures { result ≡ code_of word.now }
{
    let n = word.len();
    if n == 0 {
        return 0;
    }
    if 20 <= n {
        return 0;
    }
    let at = slot(n, word[0], word[n - 1]);
    let k = candidate(at);
    if k == 0 {
        return 0;
    }
    if is_known(word, (k - 1) as usize) {
        return k;
    }
    0
}
