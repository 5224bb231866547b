//! What names stand for.
ghost use Rattle.std.specs.Prelude.{◌≡◌, ◌<◌, length};
ghost use Rattle.es_sites.specs.Marks as marks;
ghost use Rattle.es_sites.specs.Meant as spec;
ghost use Rattle.es_sites.specs.Tables.{AreTables};

use crate::marks::role_at;
use crate::tables::{Tables, entry, part_around};
use es_outline::Role;
use pk_types::Ref;

/// What a name stands for: a binding of the top or an import, or the namespace that a request leads to.
#[derive(Clone, Copy)]
pub(crate) enum Meaning {
    Name(Ref),
    Space(u32),
}

// The request of the declaration that a place stands directly in.
fn request_of(tables: &Tables<'_, '_>, place: u32) -> Option<u32>
    requires { AreTables tables.now }
    ensures { result ≡ spec.request_of tables.now place }
{
    let opening = part_around(tables.outlined.marks(), tables.enclosing, place)?;
    entry(tables.inside.requests.as_slice(), opening)
}

// The binding that has the name at a place.
fn binding_of(tables: &Tables<'_, '_>, place: u32) -> Option<u32>
    ensures { result ≡ spec.binding_of tables.now place }
{
    let number = tables.scopes.number_at(place)?;
    entry(tables.declarations.binding_of.as_slice(), number)
}

// What the name at a place stands for that the top declares at another place.
fn meant_as(tables: &Tables<'_, '_>, place: u32, declaration: u32) -> Option<Meaning>
    requires { AreTables tables.now }
    ensures { result
        ≡ spec.meant_as tables.now place declaration (marks.role_at tables.now.source declaration) }
{
    match role_at(tables.outlined.marks(), declaration as usize)? {
        Role::ImportedSpace => Some(Meaning::Space(request_of(tables, declaration)?)),
        Role::Imported | Role::ImportedDefault => {
            let number = entry(tables.declarations.import_at.as_slice(), declaration)?;
            Some(Meaning::Name(Ref::Imported(number)))
        }
        _ => Some(Meaning::Name(Ref::Own(binding_of(tables, place)?))),
    }
}

/// What the name at a place stands for, if it is a binding of the top, an import or a namespace.
#[tactic(auto, unfolding(crate::specs::Meant::meant))]
pub(crate) fn meant(tables: &Tables<'_, '_>, place: u32) -> Option<Meaning>
    requires { AreTables tables.now }
    ensures { result ≡ spec.meant tables.now place }
{
    let declared = tables.scopes.declared_by(place)?;
    if declared.scope == 0 {
        meant_as(tables, place, declared.place)
    } else {
        None
    }
}
