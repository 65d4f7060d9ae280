// Reading string objects: the metadata blob, opaque metadata, and saveobj payloads.
// There is no heap: texts, spans and rows go to the start of buffers that are lent, and their numbers are answered.
// What several functions promise alike has one name in specs. It is said of each one's own result, so that no type could carry it.
#![tactic(auto)]

mod blocks;
pub mod cells;
mod chunks;
pub mod classes;
pub mod decode;
pub mod file_wrapper;
pub mod find;
pub mod labels;
pub mod listing;
pub mod names;
pub mod objects;
pub mod opaque;
mod plan;
pub mod properties;
mod records;
mod replacements;
pub mod saveobj;
pub mod string_objects;
mod triples;
mod units;
