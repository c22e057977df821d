// The codes of words as cells have them: those of `grammar::lookahead`.
use grammar::lookahead;

// A word that no form names.
pub const NAME: usize = 0;

pub const TRUE: usize = lookahead::TRUE as usize;

pub const FALSE: usize = lookahead::FALSE as usize;

pub const AUTO: usize = lookahead::AUTO as usize;

pub const NO_DEFAULT: usize = lookahead::NO_DEFAULT as usize;

pub const WITH_AUTO: usize = lookahead::WITH_AUTO as usize;

// The types that are a kind's word followed by `_TYPE`.
pub const FIRST_TYPE: usize = lookahead::FIRST_TYPE as usize;

pub const LAST_TYPE: usize = lookahead::LAST_TYPE as usize;

pub const UINT32: usize = lookahead::UINT32 as usize;

pub const INT32: usize = lookahead::INT32 as usize;

pub const UINT64: usize = lookahead::UINT64 as usize;

pub const INT64: usize = lookahead::INT64 as usize;

pub const STRING: usize = lookahead::STRING as usize;

pub const BOOLEAN: usize = lookahead::BOOLEAN as usize;

pub const ENUM: usize = lookahead::ENUM as usize;

pub const FLOAT: usize = lookahead::FLOAT as usize;

pub const NUMERAL: usize = lookahead::NUMERAL as usize;

pub const QUOTED: usize = lookahead::QUOTED as usize;

pub const FLOATING: usize = lookahead::FLOATING as usize;
