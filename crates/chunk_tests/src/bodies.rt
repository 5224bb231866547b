// The bodies of the modules, the texts of their files, and the getters of their scopes.
ghost use Rattle.std.specs.Prelude.{◌≡◌, List, [], ◌∷◌, IfOk};
ghost use Rattle.chunk_tests.specs.Worked.{the_bodies, the_sources, no_lists, the_getters};

use emit_body::{Body, Getter, Getters, Piece, ScopeGetters, Variable};
use pk_types::{BindKind, Sequence, Text};
use std::alloc::{AllocError, Global};

fn body(alloc: Global, text: &[u8], pieces: Vec<Piece>) -> Result<Body, AllocError>
    ensures { IfOk result (λ body. body ≡ record { text = text.now; pieces = pieces.items }) }
{
    Ok(Body {
        text: Text::from_slice(alloc, text)?,
        pieces: Sequence::from_vec(pieces),
    })
}

fn piece(plain: u64, kind: u8, site: u64) -> Piece
    ensures { result ≡ record { plain = plain; kind = kind; site = site } }
{
    Piece { plain, kind, site }
}

/// The bodies, which are no more than bytes and pieces here.
pub(crate) fn bodies(alloc: Global) -> Result<Sequence<Body>, AllocError>
    ensures { IfOk result (λ bodies. bodies ≡ the_bodies) }
{
    let index = vec![in alloc; piece(6, b'i', 3), piece(3, b'r', 19), piece(2, b'd', 16)]?;
    let view = vec![in alloc; piece(12, b'q', 15)]?;
    let mut bodies = Vec::new(alloc);
    bodies.push(body(
        alloc,
        b"const see = __webpack_r.w(12).n;\n__webpack_r.d(7);",
        index,
    )?)?;
    bodies.push(body(alloc, b"", Vec::new(alloc))?)?;
    bodies.push(body(alloc, b"exports.n = __webpack_r(12).n;", view)?)?;
    Ok(Sequence::from_vec(bodies))
}

/// The texts of the files, of which that of the JSON module alone is looked at.
pub(crate) fn sources(alloc: Global) -> Result<Sequence<Text>, AllocError>
    ensures { IfOk result (λ sources. sources ≡ the_sources) }
{
    let mut sources = Vec::new(alloc);
    sources.push(Text::from_slice(alloc, b"")?)?;
    sources.push(Text::from_slice(alloc, b"\xEF\xBB\xBF{\"n\": \"it's \\\\\"}\r\n")?)?;
    sources.push(Text::from_slice(alloc, b"")?)?;
    Ok(Sequence::from_vec(sources))
}

// The lists of a scope that declares nothing and of which nothing is read.
fn no_lists(alloc: Global) -> ScopeGetters
    ensures { result ≡ no_lists }
{
    ScopeGetters {
        variables: Sequence::new(alloc),
        cells: Sequence::new(alloc),
        space: None,
    }
}

// The lists of the entry's scope.
fn index_lists(alloc: Global) -> Result<ScopeGetters, AllocError>
    ensures { IfOk result (λ lists. lists ∷ no_lists ∷ no_lists ∷ [] ≡ the_getters.scopes) }
{
    let variable = Variable {
        kind: BindKind::Const,
        name: Text::from_slice(alloc, b"see")?,
    };
    let getter = Getter {
        name: Text::from_slice(alloc, b"see")?,
        spelling: Text::from_slice(alloc, b"see")?,
    };
    Ok(ScopeGetters {
        variables: Sequence::one(alloc, variable)?,
        cells: Sequence::one(alloc, Text::from_slice(alloc, b"see")?)?,
        space: Some(Sequence::one(alloc, getter)?),
    })
}

/// What the heads of the factories list.
pub(crate) fn getters(alloc: Global) -> Result<Getters, AllocError>
    ensures { IfOk result (λ getters. getters ≡ the_getters) }
{
    let mut scopes = Vec::new(alloc);
    scopes.push(index_lists(alloc)?)?;
    scopes.push(no_lists(alloc))?;
    scopes.push(no_lists(alloc))?;
    Ok(Getters {
        scopes: Sequence::from_vec(scopes),
    })
}
