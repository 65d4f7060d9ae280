// The calls that a line can record.
use crate::fields::Fields;
use crate::render::Fault;
use crate::{calls, edits, labels, latin9};

#[derive(Clone, Copy, Debug, PartialEq, Eq)]
pub enum Call {
    Utf16,
    Lossy,
    Write,
    Build,
    Open,
    Name,
    Class,
    Wordlist,
    Props,
    Find,
    Payload,
    Road1,
    Road2,
    Objects,
    AppendTo,
    ReplaceIn,
    Label,
    ClassId,
    Export,
    Import,
    Table,
    ImportNeed,
}

impl Call {
    pub const COUNT: usize = 22;

    // All of them, in their order.
    pub const ALL: [Call; Call::COUNT] = [
        Call::Utf16,
        Call::Lossy,
        Call::Write,
        Call::Build,
        Call::Open,
        Call::Name,
        Call::Class,
        Call::Wordlist,
        Call::Props,
        Call::Find,
        Call::Payload,
        Call::Road1,
        Call::Road2,
        Call::Objects,
        Call::AppendTo,
        Call::ReplaceIn,
        Call::Label,
        Call::ClassId,
        Call::Export,
        Call::Import,
        Call::Table,
        Call::ImportNeed,
    ];

    pub fn name(self) -> &'static str {
        match self {
            Call::Utf16 => "utf16",
            Call::Lossy => "lossy",
            Call::Write => "write",
            Call::Build => "build",
            Call::Open => "open",
            Call::Name => "name",
            Call::Class => "class",
            Call::Wordlist => "wordlist",
            Call::Props => "props",
            Call::Find => "find",
            Call::Payload => "payload",
            Call::Road1 => "road1",
            Call::Road2 => "road2",
            Call::Objects => "objects",
            Call::AppendTo => "appendto",
            Call::ReplaceIn => "replacein",
            Call::Label => "label",
            Call::ClassId => "classid",
            Call::Export => "export",
            Call::Import => "import",
            Call::Table => "table",
            Call::ImportNeed => "importneed",
        }
    }

    pub fn named(name: &[u8]) -> Option<Call> {
        Call::ALL
            .iter()
            .copied()
            .find(|call| call.name().as_bytes() == name)
    }

    // Makes a call anew with what follows its name.
    pub fn replay(self, fields: Fields<'_>) -> Result<(), Fault> {
        match self {
            Call::Utf16 => calls::utf16(fields),
            Call::Lossy => calls::lossy(fields),
            Call::Write => calls::write(fields),
            Call::Build => calls::build(fields),
            Call::Open => calls::open(fields),
            Call::Name => calls::name_of(fields),
            Call::Class => calls::class(fields),
            Call::Wordlist => calls::wordlist(fields),
            Call::Props => calls::props(fields),
            Call::Find => calls::find(fields),
            Call::Payload => calls::payload(fields),
            Call::Road1 => calls::road1(fields),
            Call::Road2 => calls::road2(fields),
            Call::Objects => calls::objects(fields),
            Call::AppendTo => edits::appendto(fields),
            Call::ReplaceIn => edits::replacein(fields),
            Call::Label => labels::label_of(fields),
            Call::ClassId => calls::classid(fields),
            Call::Export => latin9::export(fields),
            Call::Import => latin9::import(fields),
            Call::Table => latin9::table(fields),
            Call::ImportNeed => latin9::importneed(fields),
        }
    }
}
