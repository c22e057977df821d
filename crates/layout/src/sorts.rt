// The sorts of resolved values.

pub const NUMBER: usize = 0;

pub const TRUTH: usize = 1;

pub const AUTO: usize = 2;

pub const STRING: usize = 3;

pub const ENUMERATOR: usize = 4;

pub const OBJECT: usize = 5;

pub const FLOAT: usize = 6;
