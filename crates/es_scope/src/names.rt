//! The numbers of the names of a text.
ghost use Rattle.std.specs.Prelude.{◌≡◌, ℕ, List, Some, IfOk, true, ◌↔◌, IsTrue};
ghost use Rattle.es_tree.specs.Names.{name_of};
ghost use Rattle.pk_text.specs.Places.{place_of};
ghost use Rattle.es_scope.specs.Named as spec;

use crate::outlined::Outlined;
use es_names::{is_plain, name};
use es_outline::{Mark, Role};
use pk_text::Interner;
use std::alloc::{AllocError, Global};

/// The names of a text, each with a number: of each mark the number of its name, and 0 where it has none.
#[derive(Drop)]
pub(crate) struct Names {
    pub(crate) texts: Interner,
    pub(crate) numbers: Vec<u32>,

    /// The number of the name that functions declare.
    pub(crate) arguments: u32,
}

// Whether tokens of a role name something that scopes ask for.
fn is_naming(role: Role) -> bool
    ensures { result ≡ spec.is_naming role }
{
    matches!(
        role,
        Role::Reference
            | Role::Bound
            | Role::FunctionName
            | Role::ClassName
            | Role::Imported
            | Role::ImportedDefault
            | Role::ImportedSpace
            | Role::Exported
    )
}

/// Whether a mark is a name that scopes ask for.
pub(crate) fn names_it(mark: Mark) -> bool
    ensures { result ≡ spec.names_it (Some mark) }
{
    match mark {
        Mark::Token(role, _) => is_naming(role),
        _ => false,
    }
}

// The number of the name that a spelling spells.
fn number_of(alloc: Global, texts: &mut Interner, spelling: &[u8]) -> Result<u32, AllocError>
    ensures number { IfOk result (λ number. place_of texts.new (name_of spelling.now) ≡ Some number) }
    ensures kept { spec.Keeps texts.old texts.new }
{
    let number = if is_plain(spelling) {
        texts.intern(spelling)?
    } else {
        texts.intern(name(alloc, spelling)?.as_slice())?
    };
    Ok(number)
}

// The number of the name of a mark; 0 where it has none.
fn number_at(
    alloc: Global,
    texts: &mut Interner,
    outlined: &Outlined<'_>,
    mark: Mark,
) -> Result<u32, AllocError>
    ensures number { IfOk result (spec.IsNumberOf outlined.now texts.new (Some mark)) }
    ensures kept { spec.Keeps texts.old texts.new }
{
    let number = match mark {
        Mark::Token(role, token) if is_naming(role) => {
            number_of(alloc, texts, outlined.spelled(token))?
        }
        _ => 0,
    };
    Ok(number)
}

/// The names of a text.
pub(crate) fn numbered(alloc: Global, outlined: &Outlined<'_>) -> Result<Names, AllocError>
    ensures numbered { IfOk result (λ names. spec.AreNumbered outlined.now names.texts names.numbers.items) }
    ensures arguments { IfOk result (λ names. spec.IsArguments names.texts names.arguments) }
{
    let mut texts = Interner::new(alloc);
    let arguments = texts.intern(b"arguments")?;
    let mut numbers = Vec::with_capacity(alloc, outlined.marks().len())?;
    for mark in outlined.marks() {
        numbers.push(number_at(alloc, &mut texts, outlined, *mark)?)?;
    }
    Ok(Names {
        texts,
        numbers,
        arguments,
    })
}
