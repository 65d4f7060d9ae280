// Stores of string objects, and their edits.
// The buffers are no struct: C lends each by itself, and a struct would be made for one call and carry no fact, since each edit checks them
// anew. Replacing only reads two of them, so that one of four mutable ones would ask more of its caller, and serve appending alone.
// What edits promise alike has one name in specs. It is said of each one's own result, so that no type could carry it.
#![tactic(auto)]

pub mod append;
pub mod array;
mod canonical;
mod checks;
pub mod counts;
pub mod edits;
pub mod replace;
