//! A text with the marks of its outline.
ghost use Rattle.std.specs.Prelude.{◌≡◌};
ghost use Rattle.es_grammar.specs.Reading.{spelled};
ghost use Rattle.es_scope.specs.Source.{Source, spelled_at};

use es_outline::Mark;
use es_tree::{ProgramGoal, Token};
use std::marker::Model;

/// A text, the goal at which it was read, and the marks of its outline.
#[derive(Drop)]
pub struct Outlined<'a> {
    text: &'a [u8],
    goal: ProgramGoal,
    marks: &'a [Mark],
}

impl<'a> Model for Outlined<'a> {
    ghost use Rattle.es_scope.specs.Source.{Source};

    ghost Value = { Source };

    ghost view = { λ outlined. record {
      text = outlined.text.now;
      goal = outlined.goal;
      marks = outlined.marks.now;
    } };
}

impl<'a> Outlined<'a> {
    /// A text with these marks. Where a token of theirs lies behind the text, nothing is spelled there.
    pub fn new(text: &'a [u8], goal: ProgramGoal, marks: &'a [Mark]) -> Outlined<'a>
        ensures { result ≡ record { text = text.now; goal = goal; marks = marks.now } }
    {
        Outlined { text, goal, marks }
    }

    /// The marks.
    pub fn marks(&self) -> &'a [Mark]
        ensures { result.now ≡ self.now.marks }
    {
        self.marks
    }

    /// The goal.
    pub fn goal(&self) -> ProgramGoal
        ensures { result ≡ self.now.goal }
    {
        self.goal
    }

    /// How a token is spelled.
    pub fn spelled(&self, token: Token) -> &'a [u8]
        ensures { result.now ≡ spelled self.now.text token }
    {
        let end = (token.end as usize).min(self.text.len());
        let start = (token.start as usize).min(end);
        &self.text[start..end]
    }

    /// How the token at the place is spelled; nothing where a mark of another kind stands.
    pub fn spelled_at(&self, place: usize) -> &'a [u8]
        ensures { result.now ≡ spelled_at self.now place }
    {
        match self.marks.get(place) {
            Some(Mark::Token(_, token)) => self.spelled(*token),
            _ => &[],
        }
    }
}
