// The numbers of the refusals, as document 01 and document 02 have them. 10 and 12 are no longer given.

// Lent tables too short.
pub const SHORT_TABLES: u8 = 1;
// Text too long.
pub const LONG_TEXT: u8 = 2;
// No token; string or `/*` unended.
pub const NO_TOKEN: u8 = 3;
// A token that the grammar does not admit, or the text ends early.
pub const NOT_ADMITTED: u8 = 4;
// The seventeenth open `{`.
pub const TOO_DEEP: u8 = 5;
// The version string is not 2.5.
pub const OTHER_VERSION: u8 = 6;
// Definition 513 or enumerator 1,025.
pub const MANY_DEFINED: u8 = 7;
// A kind, an attribute of a scope or an enumerator of a list, a second time.
pub const DEFINED_AGAIN: u8 = 8;
// One name under two values of an attribute with two types.
pub const OTHER_TYPE: u8 = 9;
// Object 257, part 513 or statement 2,049.
pub const MANY_APPLIED: u8 = 11;
// A name that is not defined in its scope.
pub const NOT_DEFINED: u8 = 13;
// A single attribute stated again.
pub const STATED_AGAIN: u8 = 14;
// A value that its attribute does not take; braces after a reference.
pub const WRONG_VALUE: u8 = 15;
// An attribute that must be stated is not.
pub const NOT_STATED: u8 = 16;
// Too few or too many objects of a kind.
pub const COUNT_OF_KIND: u8 = 17;
// A reference to no object of its kind.
pub const NO_OBJECT: u8 = 18;
// More than 2,048 resolved values.
pub const MANY_VALUES: u8 = 19;
// Written text longer than the lent output.
pub const SHORT_OUTPUT: u8 = 20;
// A bound or listed number outside its type, or a low above its high.
pub const WRONG_BOUND: u8 = 21;
// A default outside type, range or enumerator list.
pub const WRONG_DEFAULT: u8 = 22;
// AUTO as a default without WITH_AUTO.
pub const AUTO_DEFAULT: u8 = 23;
// A name already used by an object of another kind.
pub const OTHER_KIND: u8 = 24;
// A standard attribute is not defined.
pub const LACKS_STANDARD: u8 = 25;
// A standard attribute is defined otherwise.
pub const OTHER_STANDARD: u8 = 26;
// The text is included while it is still open.
pub const OPEN_TEXT: u8 = 27;
// The file is not there, cannot be opened, or would be the ninth text.
pub const NO_TEXT: u8 = 28;
// A `#` that is not that of an include line.
pub const NO_INCLUDE: u8 = 29;
// A text, or the expanded text, is too long, or texts are not lent as they have to be.
pub const LONG_TEXTS: u8 = 30;
