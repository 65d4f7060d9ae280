// Writing string objects: saveobj payloads, opaque metadata, and the metadata blob.
// There is no heap: words and bytes go to the start of a buffer that is lent, and their number is answered.
// What several functions promise alike has one name in specs. It is said of each one's own result, so that no type could carry it.
#![tactic(auto)]

mod checks;
mod compare;
mod file_wrapper;
mod packing;
pub mod string_object;
