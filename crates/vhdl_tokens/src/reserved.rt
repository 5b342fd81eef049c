//! The reserved words.

ghost use Rattle.std.specs.Prelude.{◌≡◌, map};
ghost use Rattle.std.specs.Char.{to_ascii_lowercase};
ghost use Rattle.std.specs.Str.{bytes_eq};
ghost use Rattle.vhdl_tokens.specs.Reserved.{word_in, line_of, reserved_word};

/// A reserved word (IEEE Std 1076-2008, 15.10), in either case in the text.
#[derive(Clone, Copy, Debug, PartialEq, Eq)]
pub enum Reserved {
    Abs,
    Access,
    After,
    Alias,
    All,
    And,
    Architecture,
    Array,
    Assert,
    Assume,
    AssumeGuarantee,
    Attribute,
    Begin,
    Block,
    Body,
    Buffer,
    Bus,
    Case,
    Component,
    Configuration,
    Constant,
    Context,
    Cover,
    Default,
    Disconnect,
    Downto,
    Else,
    Elsif,
    End,
    Entity,
    Exit,
    Fairness,
    File,
    For,
    Force,
    Function,
    Generate,
    Generic,
    Group,
    Guarded,
    If,
    Impure,
    In,
    Inertial,
    Inout,
    Is,
    Label,
    Library,
    Linkage,
    Literal,
    Loop,
    Map,
    Mod,
    Nand,
    New,
    Next,
    Nor,
    Not,
    Null,
    Of,
    On,
    Open,
    Or,
    Others,
    Out,
    Package,
    Parameter,
    Port,
    Postponed,
    Procedure,
    Process,
    Property,
    Protected,
    Pure,
    Range,
    Record,
    Register,
    Reject,
    Release,
    Rem,
    Report,
    Restrict,
    RestrictGuarantee,
    Return,
    Rol,
    Ror,
    Select,
    Sequence,
    Severity,
    Shared,
    Signal,
    Sla,
    Sll,
    Sra,
    Srl,
    Strong,
    Subtype,
    Then,
    To,
    Transport,
    Type_,
    Unaffected,
    Units,
    Until,
    Use,
    Variable,
    Vmode,
    Vprop,
    Vunit,
    Wait,
    When,
    While,
    With,
    Xnor,
    Xor,
}

// A line of the table of reserved words: a word in lower case, and which one it is.
#[derive(Clone, Copy)]
struct ReservedWord {
    spelling: &'static str,
    word: Reserved,
}

const RESERVED_WORDS: [ReservedWord; 115] = [
    ReservedWord {
        spelling: "abs",
        word: Reserved::Abs,
    },
    ReservedWord {
        spelling: "access",
        word: Reserved::Access,
    },
    ReservedWord {
        spelling: "after",
        word: Reserved::After,
    },
    ReservedWord {
        spelling: "alias",
        word: Reserved::Alias,
    },
    ReservedWord {
        spelling: "all",
        word: Reserved::All,
    },
    ReservedWord {
        spelling: "and",
        word: Reserved::And,
    },
    ReservedWord {
        spelling: "architecture",
        word: Reserved::Architecture,
    },
    ReservedWord {
        spelling: "array",
        word: Reserved::Array,
    },
    ReservedWord {
        spelling: "assert",
        word: Reserved::Assert,
    },
    ReservedWord {
        spelling: "assume",
        word: Reserved::Assume,
    },
    ReservedWord {
        spelling: "assume_guarantee",
        word: Reserved::AssumeGuarantee,
    },
    ReservedWord {
        spelling: "attribute",
        word: Reserved::Attribute,
    },
    ReservedWord {
        spelling: "begin",
        word: Reserved::Begin,
    },
    ReservedWord {
        spelling: "block",
        word: Reserved::Block,
    },
    ReservedWord {
        spelling: "body",
        word: Reserved::Body,
    },
    ReservedWord {
        spelling: "buffer",
        word: Reserved::Buffer,
    },
    ReservedWord {
        spelling: "bus",
        word: Reserved::Bus,
    },
    ReservedWord {
        spelling: "case",
        word: Reserved::Case,
    },
    ReservedWord {
        spelling: "component",
        word: Reserved::Component,
    },
    ReservedWord {
        spelling: "configuration",
        word: Reserved::Configuration,
    },
    ReservedWord {
        spelling: "constant",
        word: Reserved::Constant,
    },
    ReservedWord {
        spelling: "context",
        word: Reserved::Context,
    },
    ReservedWord {
        spelling: "cover",
        word: Reserved::Cover,
    },
    ReservedWord {
        spelling: "default",
        word: Reserved::Default,
    },
    ReservedWord {
        spelling: "disconnect",
        word: Reserved::Disconnect,
    },
    ReservedWord {
        spelling: "downto",
        word: Reserved::Downto,
    },
    ReservedWord {
        spelling: "else",
        word: Reserved::Else,
    },
    ReservedWord {
        spelling: "elsif",
        word: Reserved::Elsif,
    },
    ReservedWord {
        spelling: "end",
        word: Reserved::End,
    },
    ReservedWord {
        spelling: "entity",
        word: Reserved::Entity,
    },
    ReservedWord {
        spelling: "exit",
        word: Reserved::Exit,
    },
    ReservedWord {
        spelling: "fairness",
        word: Reserved::Fairness,
    },
    ReservedWord {
        spelling: "file",
        word: Reserved::File,
    },
    ReservedWord {
        spelling: "for",
        word: Reserved::For,
    },
    ReservedWord {
        spelling: "force",
        word: Reserved::Force,
    },
    ReservedWord {
        spelling: "function",
        word: Reserved::Function,
    },
    ReservedWord {
        spelling: "generate",
        word: Reserved::Generate,
    },
    ReservedWord {
        spelling: "generic",
        word: Reserved::Generic,
    },
    ReservedWord {
        spelling: "group",
        word: Reserved::Group,
    },
    ReservedWord {
        spelling: "guarded",
        word: Reserved::Guarded,
    },
    ReservedWord {
        spelling: "if",
        word: Reserved::If,
    },
    ReservedWord {
        spelling: "impure",
        word: Reserved::Impure,
    },
    ReservedWord {
        spelling: "in",
        word: Reserved::In,
    },
    ReservedWord {
        spelling: "inertial",
        word: Reserved::Inertial,
    },
    ReservedWord {
        spelling: "inout",
        word: Reserved::Inout,
    },
    ReservedWord {
        spelling: "is",
        word: Reserved::Is,
    },
    ReservedWord {
        spelling: "label",
        word: Reserved::Label,
    },
    ReservedWord {
        spelling: "library",
        word: Reserved::Library,
    },
    ReservedWord {
        spelling: "linkage",
        word: Reserved::Linkage,
    },
    ReservedWord {
        spelling: "literal",
        word: Reserved::Literal,
    },
    ReservedWord {
        spelling: "loop",
        word: Reserved::Loop,
    },
    ReservedWord {
        spelling: "map",
        word: Reserved::Map,
    },
    ReservedWord {
        spelling: "mod",
        word: Reserved::Mod,
    },
    ReservedWord {
        spelling: "nand",
        word: Reserved::Nand,
    },
    ReservedWord {
        spelling: "new",
        word: Reserved::New,
    },
    ReservedWord {
        spelling: "next",
        word: Reserved::Next,
    },
    ReservedWord {
        spelling: "nor",
        word: Reserved::Nor,
    },
    ReservedWord {
        spelling: "not",
        word: Reserved::Not,
    },
    ReservedWord {
        spelling: "null",
        word: Reserved::Null,
    },
    ReservedWord {
        spelling: "of",
        word: Reserved::Of,
    },
    ReservedWord {
        spelling: "on",
        word: Reserved::On,
    },
    ReservedWord {
        spelling: "open",
        word: Reserved::Open,
    },
    ReservedWord {
        spelling: "or",
        word: Reserved::Or,
    },
    ReservedWord {
        spelling: "others",
        word: Reserved::Others,
    },
    ReservedWord {
        spelling: "out",
        word: Reserved::Out,
    },
    ReservedWord {
        spelling: "package",
        word: Reserved::Package,
    },
    ReservedWord {
        spelling: "parameter",
        word: Reserved::Parameter,
    },
    ReservedWord {
        spelling: "port",
        word: Reserved::Port,
    },
    ReservedWord {
        spelling: "postponed",
        word: Reserved::Postponed,
    },
    ReservedWord {
        spelling: "procedure",
        word: Reserved::Procedure,
    },
    ReservedWord {
        spelling: "process",
        word: Reserved::Process,
    },
    ReservedWord {
        spelling: "property",
        word: Reserved::Property,
    },
    ReservedWord {
        spelling: "protected",
        word: Reserved::Protected,
    },
    ReservedWord {
        spelling: "pure",
        word: Reserved::Pure,
    },
    ReservedWord {
        spelling: "range",
        word: Reserved::Range,
    },
    ReservedWord {
        spelling: "record",
        word: Reserved::Record,
    },
    ReservedWord {
        spelling: "register",
        word: Reserved::Register,
    },
    ReservedWord {
        spelling: "reject",
        word: Reserved::Reject,
    },
    ReservedWord {
        spelling: "release",
        word: Reserved::Release,
    },
    ReservedWord {
        spelling: "rem",
        word: Reserved::Rem,
    },
    ReservedWord {
        spelling: "report",
        word: Reserved::Report,
    },
    ReservedWord {
        spelling: "restrict",
        word: Reserved::Restrict,
    },
    ReservedWord {
        spelling: "restrict_guarantee",
        word: Reserved::RestrictGuarantee,
    },
    ReservedWord {
        spelling: "return",
        word: Reserved::Return,
    },
    ReservedWord {
        spelling: "rol",
        word: Reserved::Rol,
    },
    ReservedWord {
        spelling: "ror",
        word: Reserved::Ror,
    },
    ReservedWord {
        spelling: "select",
        word: Reserved::Select,
    },
    ReservedWord {
        spelling: "sequence",
        word: Reserved::Sequence,
    },
    ReservedWord {
        spelling: "severity",
        word: Reserved::Severity,
    },
    ReservedWord {
        spelling: "shared",
        word: Reserved::Shared,
    },
    ReservedWord {
        spelling: "signal",
        word: Reserved::Signal,
    },
    ReservedWord {
        spelling: "sla",
        word: Reserved::Sla,
    },
    ReservedWord {
        spelling: "sll",
        word: Reserved::Sll,
    },
    ReservedWord {
        spelling: "sra",
        word: Reserved::Sra,
    },
    ReservedWord {
        spelling: "srl",
        word: Reserved::Srl,
    },
    ReservedWord {
        spelling: "strong",
        word: Reserved::Strong,
    },
    ReservedWord {
        spelling: "subtype",
        word: Reserved::Subtype,
    },
    ReservedWord {
        spelling: "then",
        word: Reserved::Then,
    },
    ReservedWord {
        spelling: "to",
        word: Reserved::To,
    },
    ReservedWord {
        spelling: "transport",
        word: Reserved::Transport,
    },
    ReservedWord {
        spelling: "type",
        word: Reserved::Type_,
    },
    ReservedWord {
        spelling: "unaffected",
        word: Reserved::Unaffected,
    },
    ReservedWord {
        spelling: "units",
        word: Reserved::Units,
    },
    ReservedWord {
        spelling: "until",
        word: Reserved::Until,
    },
    ReservedWord {
        spelling: "use",
        word: Reserved::Use,
    },
    ReservedWord {
        spelling: "variable",
        word: Reserved::Variable,
    },
    ReservedWord {
        spelling: "vmode",
        word: Reserved::Vmode,
    },
    ReservedWord {
        spelling: "vprop",
        word: Reserved::Vprop,
    },
    ReservedWord {
        spelling: "vunit",
        word: Reserved::Vunit,
    },
    ReservedWord {
        spelling: "wait",
        word: Reserved::Wait,
    },
    ReservedWord {
        spelling: "when",
        word: Reserved::When,
    },
    ReservedWord {
        spelling: "while",
        word: Reserved::While,
    },
    ReservedWord {
        spelling: "with",
        word: Reserved::With,
    },
    ReservedWord {
        spelling: "xnor",
        word: Reserved::Xnor,
    },
    ReservedWord {
        spelling: "xor",
        word: Reserved::Xor,
    },
];

fn is_spelled(name: &[u8], spelling: &str) -> bool
    ensures { result ≡ bytes_eq (map to_ascii_lowercase name.now) (map to_ascii_lowercase spelling.now) }
{
    name.eq_ignore_ascii_case(spelling.as_bytes())
}

fn word_in(table: &[ReservedWord], name: &[u8]) -> Option<Reserved>
    ensures { result ≡ word_in (map line_of table.now) name.now }
{
    for line in table {
        if is_spelled(name, line.spelling) {
            return Some(line.word);
        }
    }
    None
}

/// The reserved word that a name is, in either case.
pub fn reserved_word(name: &[u8]) -> Option<Reserved>
    ensures { result ≡ reserved_word name.now }
{
    word_in(&RESERVED_WORDS, name)
}
