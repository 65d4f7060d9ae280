// Text as the Unicode Standard has it, and the refusals that every call of the library answers with.
// There is no heap: a text goes to the start of a buffer that is lent, and its length is answered.
// What several functions promise alike has one name in specs. It is said of each one's own result, so that no type could carry it.
#![tactic(auto)]

pub mod convert;
pub mod copy;
pub mod error;
pub mod latin9;
pub mod utf16;
pub mod utf8;
