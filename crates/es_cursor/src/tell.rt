//! What a token is, and tokens that have to stand somewhere.
ghost use Rattle.std.specs.Prelude.{◌≡◌, IfOk, Some};
ghost use Rattle.es_grammar.specs.Reading.{spelled};
ghost use Rattle.es_reader.specs.Basics as spec;
ghost use Rattle.es_reader.specs.Basics.{Reads};
ghost use Rattle.es_cursor.specs.Standing.{Lies, Stands};

use crate::cursor::Cursor;
use es_grammar::Context;
use es_lexer::is_reserved;
use es_names::{is_plain, name};
use es_reader::ParseFault;
use es_tree::{Goal, Token, TokenKind};

impl<'a> Cursor<'a> {
    /// How a token is spelled.
    pub fn spelled(&self, token: Token) -> &[u8]
        requires { Lies self.now token }
        ensures { result.now ≡ spelled self.now token }
    {
        &self.text[token.start as usize..token.end as usize]
    }

    /// Whether it is a punctuator that is spelled so.
    #[tactic(auto, unfolding(es_reader::specs::Basics::is_mark))]
    pub fn is_mark(&self, mark: &[u8], token: Token) -> bool
        requires { Lies self.now token }
        ensures { result ≡ spec.is_mark self.now mark.now token }
    {
        match token.kind {
            TokenKind::Punctuator => self.spelled(token) == mark,
            _ => false,
        }
    }

    /// Whether it is a word of the grammar, written without escapes.
    #[tactic(auto, unfolding(es_reader::specs::Basics::is_word))]
    pub fn is_word(&self, word: &[u8], token: Token) -> bool
        requires { Lies self.now token }
        ensures { result ≡ spec.is_word self.now word.now token }
    {
        match token.kind {
            TokenKind::IdName => self.spelled(token) == word,
            _ => false,
        }
    }

    /// Whether it is a Name: an identifier name that is no reserved word.
    #[tactic(auto, unfolding(es_reader::specs::Basics::is_name))]
    pub fn is_name(&self, c: Context, token: Token) -> Result<bool, ParseFault>
        requires { Lies self.now token }
        ensures { Reads (Some (spec.is_name self.now c token)) result }
    {
        match token.kind {
            TokenKind::IdName => {
                let spelling = self.spelled(token);
                if is_plain(spelling) {
                    return Ok(!is_reserved(spelling, c.goal));
                }
                let decoded = name(self.alloc, spelling)?;
                Ok(!is_reserved(decoded.as_slice(), c.goal))
            }
            _ => Ok(false),
        }
    }

    /// Takes a punctuator that has to stand there.
    #[tactic(auto, unfolding(es_reader::specs::Basics::mark))]
    pub fn mark(&mut self, goal: Goal, mark: &[u8], at: u32) -> Result<Token, ParseFault>
        requires { Stands self.old at }
        ensures reads { Reads (spec.mark self.old goal mark.now at) result }
        ensures lies { IfOk result (Lies self.old) }
        ensures kept { self.new ≡ self.old }
    {
        let token = self.token(goal, at)?;
        if self.is_mark(mark, token) {
            Ok(token)
        } else {
            Err(ParseFault::Syntax)
        }
    }

    /// Takes a word of the grammar that has to stand there.
    #[tactic(auto, unfolding(es_reader::specs::Basics::word))]
    pub fn word(&mut self, goal: Goal, word: &[u8], at: u32) -> Result<Token, ParseFault>
        requires { Stands self.old at }
        ensures reads { Reads (spec.word self.old goal word.now at) result }
        ensures lies { IfOk result (Lies self.old) }
        ensures kept { self.new ≡ self.old }
    {
        let token = self.token(goal, at)?;
        if self.is_word(word, token) {
            Ok(token)
        } else {
            Err(ParseFault::Syntax)
        }
    }

    /// Takes a Name that has to stand there.
    #[tactic(auto, unfolding(es_reader::specs::Basics::name))]
    pub fn name(&mut self, goal: Goal, c: Context, at: u32) -> Result<Token, ParseFault>
        requires { Stands self.old at }
        ensures reads { Reads (spec.name self.old goal c at) result }
        ensures lies { IfOk result (Lies self.old) }
        ensures kept { self.new ≡ self.old }
    {
        let token = self.token(goal, at)?;
        if self.is_name(c, token)? {
            Ok(token)
        } else {
            Err(ParseFault::Syntax)
        }
    }
}
