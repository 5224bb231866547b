//! Tokens of a kind that have to stand somewhere.
ghost use Rattle.std.specs.Prelude.{◌≡◌, IfOk};
ghost use Rattle.es_reader.specs.Basics.{Reads};
ghost use Rattle.es_reader.specs.Modules as spec;
ghost use Rattle.es_cursor.specs.Standing.{Lies, Stands};

use es_begins::{is_end, is_id, is_string};
use es_cursor::Cursor;
use es_reader::ParseFault;
use es_tree::{Goal, Token};

/// The text of a request.
#[tactic(auto, unfolding(es_reader::specs::Modules::string))]
pub fn string(cursor: &mut Cursor, at: u32) -> Result<Token, ParseFault>
    requires stands { Stands cursor.old at }
    ensures reads { Reads (spec.string cursor.old at) result }
    ensures lies { IfOk result (Lies cursor.old) }
    ensures kept { cursor.new ≡ cursor.old }
{
    let token = cursor.token(Goal::Operand, at)?;
    if is_string(token) {
        Ok(token)
    } else {
        Err(ParseFault::Syntax)
    }
}

/// An identifier name, a reserved word or not.
#[tactic(auto, unfolding(es_reader::specs::Modules::id_name))]
pub fn id_name(cursor: &mut Cursor, at: u32) -> Result<Token, ParseFault>
    requires stands { Stands cursor.old at }
    ensures reads { Reads (spec.id_name cursor.old at) result }
    ensures lies { IfOk result (Lies cursor.old) }
    ensures kept { cursor.new ≡ cursor.old }
{
    let token = cursor.token(Goal::Operand, at)?;
    if is_id(token) {
        Ok(token)
    } else {
        Err(ParseFault::Syntax)
    }
}

/// The end of the text.
#[tactic(auto, unfolding(es_reader::specs::Modules::end))]
pub fn end(cursor: &mut Cursor, at: u32) -> Result<Token, ParseFault>
    requires stands { Stands cursor.old at }
    ensures reads { Reads (spec.end cursor.old at) result }
    ensures lies { IfOk result (Lies cursor.old) }
    ensures kept { cursor.new ≡ cursor.old }
{
    let token = cursor.token(Goal::Operand, at)?;
    if is_end(token) {
        Ok(token)
    } else {
        Err(ParseFault::Syntax)
    }
}
