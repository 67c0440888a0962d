//! The tokens of a model's text.

ghost use Rattle.std.specs.Prelude.{◌≡◌, ◌-◌, ◌≤◌, take, drop};

/// The largest size of an integer whose value is told.
pub const INT_LIMIT: u64 = 1_000_000_000;

/// A token, by its kind and its place in the text.
#[derive(Clone, Copy, Debug, PartialEq, Eq)]
pub struct Token {
    /// What the token is.
    pub kind: TokenKind,
    /// The place of its first byte.
    pub from: usize,
    /// The place after its last byte.
    pub to: usize,
}

/// What a token is.
#[derive(Clone, Copy, Debug, PartialEq, Eq)]
pub enum TokenKind {
    /// A word that is not reserved. Its bytes are those of its place in the text.
    Name,
    /// A reserved word.
    Word(Word),
    /// An integer of at most [`INT_LIMIT`] in size, in decimal, hexadecimal or octal, with the `-` directly before it.
    Int(i64),
    /// An integer of more than [`INT_LIMIT`] in size, in any of these bases. Its value is not told.
    LargeInt,
    /// A float, with the `-` directly before it. Its value is not computed.
    Float,
    /// A string. Its bytes, the quotes included, are those of its place in the text.
    Text,
    /// A symbol.
    Symbol(Symbol),
}

/// The reserved words.
#[derive(Clone, Copy, Debug, PartialEq, Eq)]
pub enum Word {
    Array,
    Bool,
    Constraint,
    False,
    Float,
    Int,
    Maximize,
    Minimize,
    Of,
    Predicate,
    Satisfy,
    Set,
    Solve,
    True,
    Var,
}

/// The symbols.
#[derive(Clone, Copy, Debug, PartialEq, Eq)]
pub enum Symbol {
    Semicolon,
    Colon,
    ColonColon,
    Comma,
    DotDot,
    Equals,
    OpenRound,
    CloseRound,
    OpenSquare,
    CloseSquare,
    OpenCurly,
    CloseCurly,
}

impl Token {
    ghost use Rattle.fzn_reader.specs.Text.{bytes_of};

    /// The bytes of the token in `text`, the text that it was read from. Of a shorter text it takes what there is.
    pub fn bytes<'t>(&self, text: &'t [u8]) -> &'t [u8]
        ensures { result.now ≡ bytes_of text.now self.now }
    {
        let rest = &text[self.from.min(text.len())..];
        let len = self.to.saturating_sub(self.from);
        &rest[..len.min(rest.len())]
    }
}

impl Word {
    ghost use Rattle.fzn_reader.specs.Text.{word_text, all_words};
    ghost use Rattle.fzn_reader.specs.Pieces.{word_of};

    /// The reserved words.
    const ALL: [Word; 15] = [
        Word::Array,
        Word::Bool,
        Word::Constraint,
        Word::False,
        Word::Float,
        Word::Int,
        Word::Maximize,
        Word::Minimize,
        Word::Of,
        Word::Predicate,
        Word::Satisfy,
        Word::Set,
        Word::Solve,
        Word::True,
        Word::Var,
    ];

    /// How the word is written.
    pub fn text(self) -> &'static [u8]
        ensures { result.now ≡ word_text self }
    {
        match self {
            Word::Array => b"array",
            Word::Bool => b"bool",
            Word::Constraint => b"constraint",
            Word::False => b"false",
            Word::Float => b"float",
            Word::Int => b"int",
            Word::Maximize => b"maximize",
            Word::Minimize => b"minimize",
            Word::Of => b"of",
            Word::Predicate => b"predicate",
            Word::Satisfy => b"satisfy",
            Word::Set => b"set",
            Word::Solve => b"solve",
            Word::True => b"true",
            Word::Var => b"var",
        }
    }

    /// The reserved word that is written as `bytes`.
    pub fn of(bytes: &[u8]) -> Option<Word>
        ensures { result ≡ word_of bytes.now }
    {
        Word::ALL.iter().copied().find(|word| word.text() == bytes)
    }
}
