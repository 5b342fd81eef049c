//! What the cases of a file are.

/// What the cases of a file are, as its line `kind` says.
#[derive(Clone, Copy, Debug, PartialEq, Eq)]
pub enum Kind {
    /// Whole calls, with words, a file, and all that is written.
    Calls,
    /// Texts with what a run of them is answered.
    Answers,
    /// Texts of which each token is needed.
    Sweeps,
    /// Texts with their tokens.
    Tokens,
    /// Tokens with what they are spelled.
    Spellings,
    /// Expressions with the types that they can have and the rules that they break.
    Told,
    /// Operators, literals and aggregates with their types.
    Types,
    /// Declarations in nested regions, with what names denote there.
    Regions,
    /// Texts with their designs.
    Designs,
    /// Texts with the design of the first form, whether or not they break a static rule.
    Forms,
    /// Architectures with what their names and expressions mean.
    Meanings,
    /// Design files with their units.
    Units,
    /// Architectures with all that stands in them.
    Contents,
    /// Values in formats.
    Formats,
    /// The nine values.
    Logic,
    /// Entries of the journal with their lines.
    Lines,
    /// Files that are read whole, or up to a limit.
    Reads,
    /// Names of files that are compared.
    Names,
    /// Edits of a waveform.
    Waves,
    /// Calls of a host in memory.
    Hosts,
    /// Calls of the host of the real files.
    Files,
}

const KINDS: [(&str, Kind); 21] = [
    ("calls", Kind::Calls),
    ("answers", Kind::Answers),
    ("sweeps", Kind::Sweeps),
    ("tokens", Kind::Tokens),
    ("spellings", Kind::Spellings),
    ("told", Kind::Told),
    ("types", Kind::Types),
    ("regions", Kind::Regions),
    ("designs", Kind::Designs),
    ("forms", Kind::Forms),
    ("meanings", Kind::Meanings),
    ("units", Kind::Units),
    ("contents", Kind::Contents),
    ("formats", Kind::Formats),
    ("logic", Kind::Logic),
    ("lines", Kind::Lines),
    ("reads", Kind::Reads),
    ("names", Kind::Names),
    ("waves", Kind::Waves),
    ("hosts", Kind::Hosts),
    ("files", Kind::Files),
];

/// The kind of this name.
pub fn kind_of(word: &str) -> Option<Kind> {
    for (name, kind) in &KINDS {
        if *name == word {
            return Some(*kind);
        }
    }
    None
}

impl Kind {
    /// Whether a case has several lines.
    pub fn has_blocks(self) -> bool {
        matches!(self, Kind::Calls | Kind::Units | Kind::Contents)
    }
}
