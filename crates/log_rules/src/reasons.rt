//! Why a line is refused, and how a log ends.

ghost use Rattle.std.specs.Prelude.{◌≡◌};
ghost use Rattle.log_rules.specs.Numbers.{number_of};

/// The rule that a line breaks. The rule on the end of a log is tried first, and then the others in this order.
#[derive(Clone, Copy, Debug, PartialEq, Eq)]
pub enum Reason {
    /// The text is no line, or `setlog 1` stands elsewhere than first, or another line stands first.
    Form,
    /// The number of a new node or box is not the next one.
    Number,
    /// A child of a node is no earlier node, or tests no later place.
    Children,
    /// Sides do not ascend by variable, a variable or a node is not there, or a node under a side tests a place that its
    /// variable's words do not have.
    Sides,
    /// The constraint is not there, or a side's variable is not in its scope.
    Scope,
    /// Some initial values in the sides satisfy the constraint.
    Axiom,
    /// A box that the line names is not there.
    Boxes,
    /// Some initial value in a side of the box is outside the resolvent's side.
    Resolvent,
    /// The values are no solution, or the earlier answers cover them.
    Answer,
    /// The answer does not cover each assignment in its box.
    AnswerBox,
    /// Some initial value of some variable is outside the box's side.
    Close,
    /// The line follows the end, or the text ends before it.
    End,
}

impl Reason {
    /// The reason's number in the format: from 1 to 12, in the order of the variants.
    pub fn number(self) -> u8
        ensures { result ≡ number_of self }
    {
        match self {
            Reason::Form => 1,
            Reason::Number => 2,
            Reason::Children => 3,
            Reason::Sides => 4,
            Reason::Scope => 5,
            Reason::Axiom => 6,
            Reason::Boxes => 7,
            Reason::Resolvent => 8,
            Reason::Answer => 9,
            Reason::AnswerBox => 10,
            Reason::Close => 11,
            Reason::End => 12,
        }
    }
}

/// How a log ends: by a box that holds everything, so that nothing is left, or because the run stopped.
#[derive(Clone, Copy, Debug, PartialEq, Eq)]
pub enum End {
    Complete,
    Open,
}
