//! The first words of lines.

ghost use Rattle.std.specs.Prelude.{◌≡◌, IfSome, IfNone};

/// The kind of a line, which its first word names.
#[derive(Clone, Copy, Debug, PartialEq, Eq)]
pub(crate) enum Kind {
    Header,
    Node,
    Axiom,
    Answer,
    Resolvent,
    Learned,
    Close,
    End,
}

impl Kind {
    ghost use Rattle.log_text.specs.Kind.{kind_word};
    ghost use Rattle.log_text.specs.declared.kind.Kind.{Kind as AnyKind};

    /// The kind that `word` names.
    pub(crate) fn of(word: &[u8]) -> Option<Self>
        ensures some { IfSome result (λ kind. word.now ≡ kind_word kind) }
        ensures none { IfNone result ((kind : AnyKind) → word.now ≡ kind_word kind → ⊥) }
    {
        match word {
            b"setlog" => Some(Kind::Header),
            b"n" => Some(Kind::Node),
            b"a" => Some(Kind::Axiom),
            b"s" => Some(Kind::Answer),
            b"r" => Some(Kind::Resolvent),
            b"k" => Some(Kind::Learned),
            b"q" => Some(Kind::Close),
            b"e" => Some(Kind::End),
            _ => None,
        }
    }
}
