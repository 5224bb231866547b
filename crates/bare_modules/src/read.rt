ghost use Rattle.std.specs.Prelude.{◌≤◌, length, IfOk};
ghost use Rattle.bare_modules.specs.Meaning.{ReadsModule};
ghost use Rattle.pk_types.specs.declared.limits.TheConstants.{MAX_FILE_LEN};

use crate::draft::Draft;
use crate::parts::{are_blank, part_of};
use crate::steps::{Place, step};
use es_lexer::next_token;
use es_tree::{Goal, TokenKind};
use pk_types::{Kind, Sequence, Text};
use std::alloc::{AllocError, Global};

/// What a module's text says.
#[derive(Debug, Drop)]
pub struct ModuleText {
    /// Of ECMAScript where the text has an import declaration, else of CommonJS.
    pub kind: Kind,
    /// What the declarations ask for, each once, in the order of their first places.
    pub requests: Sequence<Text>,
    /// The tokens of the calls, with what stood between two of them cut down to one LF, one space or nothing.
    pub body: Text,
}

/// What a text says that holds simple calls `NAME(ARGUMENTS);` and declarations `import STRING;` alone. `None` where it
/// is none of these texts.
pub fn read_module(alloc: Global, text: &[u8]) -> Result<Option<ModuleText>, AllocError>
    requires { length text.now ≤ MAX_FILE_LEN }
    ensures { IfOk result (ReadsModule text.now) }
{
    let mut draft = Draft::new(alloc, text.len())?;
    let mut place = Place::Between;
    let mut at = 0;
    'tokens: loop {
        let Ok(token) = next_token(text, at, Goal::Operand) else {
            return Ok(None);
        };
        if !are_blank(&text[at as usize..token.start as usize]) {
            return Ok(None);
        }
        if let TokenKind::End = token.kind {
            return match place {
                Place::Between => draft.finish(alloc),
                _ => Ok(None),
            };
        }
        let word = &text[token.start as usize..token.end as usize];
        let part = part_of(token.kind, word);
        let Some((deed, next)) = step(place, part) else {
            return Ok(None);
        };
        draft.take(alloc, text, token, part, deed)?;
        place = next;
        at = token.end;
    }
}
