//! Words that have a meaning in their place. Everywhere else each of them is a name.

ghost use Rattle.std.specs.Prelude.{◌≡◌};
ghost use Rattle.std.specs.Str.{bytes_eq};
ghost use Rattle.fir_parse.specs.working.Words.{under_write_of, direction_of};

use crate::lexeme::Lexeme;
use fir_ast::ReadUnderWrite;
use fir_base::Direction;
use fir_bits::PrimOp;

/// What a first word declares, where a name follows, or `when`.
#[derive(Clone, Copy)]
pub enum Declaration {
    Wire,
    Reg,
    Node,
    Inst,
    Mem,
    When,
}

/// The first word of a statement.
#[derive(Clone, Copy)]
pub enum Lead {
    Declares(Declaration),
    Skip,
    /// The word of a statement that is not in the language.
    Missing,
    /// `infer`, `read`, `write` or `rdwr`, which before `mport` begin one that is not in the language.
    MissingPort,
    Name,
}

/// The word of a type.
#[derive(Clone, Copy)]
pub enum TypeWord {
    UInt,
    SInt,
    Clock,
    Reset,
    AsyncReset,
    /// A type that is not in the language.
    Missing,
    Name,
}

/// A word before an opening parenthesis in an expression.
#[derive(Clone, Copy)]
pub enum Applied {
    Operator(PrimOp),
    Mux,
    Validif,
    UInt,
    SInt,
    /// An operator that is not in the language.
    Missing,
    Name,
}

/// The word of a memory's field.
#[derive(Clone, Copy)]
pub enum FieldWord {
    DataType,
    Depth,
    ReadLatency,
    WriteLatency,
    Reader,
    Writer,
    Readwriter,
    ReadUnderWrite,
    Name,
}

/// The word in a module's place.
#[derive(Clone, Copy)]
pub enum ModuleWord {
    Module,
    /// A module that is not in the language.
    Missing,
    Name,
}

impl Lead {
    ghost use Rattle.std.specs.Prelude.{◌≡◌};
    ghost use Rattle.fir_parse.specs.working.Words.{lead_of};

    /// What a statement begins with.
    pub fn of(word: &[u8]) -> Lead
        ensures { result ≡ lead_of word.now }
    {
        if is(word, b"wire") {
            Lead::Declares(Declaration::Wire)
        } else if is(word, b"reg") {
            Lead::Declares(Declaration::Reg)
        } else if is(word, b"node") {
            Lead::Declares(Declaration::Node)
        } else if is(word, b"inst") {
            Lead::Declares(Declaration::Inst)
        } else if is(word, b"mem") {
            Lead::Declares(Declaration::Mem)
        } else if is(word, b"when") {
            Lead::Declares(Declaration::When)
        } else if is(word, b"skip") {
            Lead::Skip
        } else if is(word, b"attach")
            || is(word, b"stop")
            || is(word, b"printf")
            || is(word, b"assert")
            || is(word, b"assume")
            || is(word, b"cover")
            || is(word, b"cmem")
            || is(word, b"smem")
        {
            Lead::Missing
        } else if is(word, b"infer")
            || is(word, b"read")
            || is(word, b"write")
            || is(word, b"rdwr")
        {
            Lead::MissingPort
        } else {
            Lead::Name
        }
    }
}

impl TypeWord {
    ghost use Rattle.std.specs.Prelude.{◌≡◌};
    ghost use Rattle.fir_parse.specs.working.Words.{type_word_of};

    /// What stands where a type is expected.
    pub fn of(word: &[u8]) -> TypeWord
        ensures { result ≡ type_word_of word.now }
    {
        if is(word, b"UInt") {
            TypeWord::UInt
        } else if is(word, b"SInt") {
            TypeWord::SInt
        } else if is(word, b"Clock") {
            TypeWord::Clock
        } else if is(word, b"Reset") {
            TypeWord::Reset
        } else if is(word, b"AsyncReset") {
            TypeWord::AsyncReset
        } else if is(word, b"Analog") || is(word, b"Fixed") || is(word, b"Interval") {
            TypeWord::Missing
        } else {
            TypeWord::Name
        }
    }
}

impl Applied {
    ghost use Rattle.std.specs.Prelude.{◌≡◌};
    ghost use Rattle.fir_parse.specs.working.Words.{applied_of, other_applied_of};

    /// What the word is before an opening parenthesis.
    pub fn of(word: &[u8]) -> Applied
        ensures { result ≡ applied_of word.now }
    {
        match PrimOp::of_word(word) {
            Some(op) => Applied::Operator(op),
            None => Applied::of_other(word),
        }
    }

    fn of_other(word: &[u8]) -> Applied
        ensures { result ≡ other_applied_of word.now }
    {
        if is(word, b"mux") {
            Applied::Mux
        } else if is(word, b"validif") {
            Applied::Validif
        } else if is(word, b"UInt") {
            Applied::UInt
        } else if is(word, b"SInt") {
            Applied::SInt
        } else if is(word, b"asClock")
            || is(word, b"asFixedPoint")
            || is(word, b"asInterval")
            || is(word, b"incp")
            || is(word, b"decp")
            || is(word, b"setp")
            || is(word, b"wrap")
            || is(word, b"clip")
            || is(word, b"squz")
        {
            Applied::Missing
        } else {
            Applied::Name
        }
    }
}

impl FieldWord {
    ghost use Rattle.std.specs.Prelude.{◌≡◌};
    ghost use Rattle.fir_parse.specs.working.Seen.{seen};
    ghost use Rattle.fir_parse.specs.working.Words.{field_word_of, plain_field_word, dash_field_word};

    /// What a memory's field begins with.
    pub fn of(lexeme: Lexeme) -> FieldWord
        ensures { result ≡ field_word_of (seen lexeme.entry) }
    {
        match lexeme {
            Lexeme::Word(word) => FieldWord::plain(word),
            Lexeme::DashWord(word) => FieldWord::dashed(word),
            _ => FieldWord::Name,
        }
    }

    fn plain(word: &[u8]) -> FieldWord
        ensures { result ≡ plain_field_word word.now }
    {
        if is(word, b"depth") {
            FieldWord::Depth
        } else if is(word, b"reader") {
            FieldWord::Reader
        } else if is(word, b"writer") {
            FieldWord::Writer
        } else if is(word, b"readwriter") {
            FieldWord::Readwriter
        } else {
            FieldWord::Name
        }
    }

    fn dashed(word: &[u8]) -> FieldWord
        ensures { result ≡ dash_field_word word.now }
    {
        if is(word, b"data-type") {
            FieldWord::DataType
        } else if is(word, b"read-latency") {
            FieldWord::ReadLatency
        } else if is(word, b"write-latency") {
            FieldWord::WriteLatency
        } else if is(word, b"read-under-write") {
            FieldWord::ReadUnderWrite
        } else {
            FieldWord::Name
        }
    }
}

impl ModuleWord {
    ghost use Rattle.std.specs.Prelude.{◌≡◌};
    ghost use Rattle.fir_parse.specs.working.Words.{module_word_of};

    /// What stands where a module is expected.
    pub fn of(word: &[u8]) -> ModuleWord
        ensures { result ≡ module_word_of word.now }
    {
        if is(word, b"module") {
            ModuleWord::Module
        } else if is(word, b"extmodule") || is(word, b"intmodule") {
            ModuleWord::Missing
        } else {
            ModuleWord::Name
        }
    }
}

/// What a read gives under a write, by its word.
pub fn under_write_of(word: &[u8]) -> Option<ReadUnderWrite>
    ensures { result ≡ under_write_of word.now }
{
    if is(word, b"old") {
        Some(ReadUnderWrite::Old)
    } else if is(word, b"new") {
        Some(ReadUnderWrite::New)
    } else if is(word, b"undefined") {
        Some(ReadUnderWrite::Undefined)
    } else {
        None
    }
}

/// The direction of a port, by its word.
pub fn direction_of(word: &[u8]) -> Option<Direction>
    ensures { result ≡ direction_of word.now }
{
    if is(word, b"input") {
        Some(Direction::Input)
    } else if is(word, b"output") {
        Some(Direction::Output)
    } else {
        None
    }
}

fn is(word: &[u8], text: &[u8]) -> bool
    ensures { result ≡ bytes_eq word.now text.now }
{
    word == text
}
