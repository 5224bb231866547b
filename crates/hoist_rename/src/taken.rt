// Names that are taken, and what is given in their place.
ghost use Rattle.std.specs.Prelude.{◌≡◌, ◌≢◌, None, Some, ℕ, List, ◌<◌, ◌≤◌, ◌++◌, [], ◌∷◌, length, slice_index_or, IfOk, OnOk};
ghost use Rattle.std.specs.List.{Contains};
ghost use Rattle.pk_types.specs.GivenNames.{IsGivenFor, numbered_name, GivesInOrder};
ghost use Rattle.hoist_rename.specs.Kept.{IsKept, IsNext, HaveSame};

use indexmap::IndexSet;
use pk_types::{Key, Name, Text};
use std::alloc::{AllocError, Global};

/// The names that are taken, each with the last number that was tried behind it; 0 where none was.
#[derive(Drop)]
pub struct Taken {
    pub names: IndexSet<Text>,
    pub last: Vec<u64>,
}

/// No names.
pub fn nothing_taken(alloc: Global) -> Taken
    ensures names { result.names.keys ≡ [] }
    ensures last { result.last.items ≡ [] }
{
    Taken {
        names: IndexSet::new(alloc),
        last: Vec::new(alloc),
    }
}

// Takes a name that is free.
fn add(taken: &mut Taken, name: Text) -> Result<(), AllocError>
    requires free { ¬ Contains taken.old.names.keys name }
    requires kept { IsKept taken.old.names.keys taken.old.last.items }
    ensures names { OnOk result (taken.new.names.keys ≡ taken.old.names.keys ++ name ∷ []) }
    ensures last { OnOk result (taken.new.last.items ≡ taken.old.last.items ++ 0 ∷ []) }
    ensures kept { OnOk result (IsKept taken.new.names.keys taken.new.last.items) }
{
    taken.names.insert(name)?;
    taken.last.push(0)?;
    Ok(())
}

// Takes a name, if it isn't taken.
fn avoid_one(alloc: Global, taken: &mut Taken, name: &[u8]) -> Result<(), AllocError>
    requires { IsKept taken.old.names.keys taken.old.last.items }
    ensures names { OnOk result (HaveSame taken.new.names.keys (taken.old.names.keys ++ name.now ∷ [])) }
    ensures kept { OnOk result (IsKept taken.new.names.keys taken.new.last.items) }
{
    if !taken.names.contains(Key(name)) {
        add(taken, Text::from_slice(alloc, name)?)?;
    }
    Ok(())
}

/// Takes these names, but for those that are taken.
pub fn avoid(alloc: Global, taken: &mut Taken, names: &[Name]) -> Result<(), AllocError>
    requires { IsKept taken.old.names.keys taken.old.last.items }
    ensures names { OnOk result (HaveSame taken.new.names.keys (taken.old.names.keys ++ names.now)) }
    ensures kept { OnOk result (IsKept taken.new.names.keys taken.new.last.items) }
{
    for name in names {
        avoid_one(alloc, taken, name.as_slice())?;
    }
    Ok(())
}

// The name, `_` and the number.
fn numbered(alloc: Global, name: &[u8], number: u64) -> Result<Text, AllocError>
    ensures { IfOk result (λ text. text ≡ numbered_name name.now number) }
{
    let mut bytes = Vec::from_slice(alloc, name)?;
    bytes.push(b'_')?;
    bytes.extend_from_slice(number.to_string(alloc)?.as_bytes())?;
    Ok(Text::from_vec(bytes))
}

// The first number behind the last one with which the name is free, and that name.
fn next_free(
    alloc: Global,
    names: &IndexSet<Text>,
    name: &[u8],
    last: u64,
) -> Result<(u64, Text), AllocError>
    requires { (number : ℕ) → 0 < number → number ≤ last → Contains names.now.keys (numbered_name name.now number) }
    ensures { IfOk result (λ next. IsNext names.now.keys name.now next.0 next.1) }
{
    // Each number that was tried stands behind a name of its own.
    let most = names.len() as u64;
    let mut number = last;
    loop {
        prove!(number <= most);
        number += 1;
        let candidate = numbered(alloc, name, number)?;
        if !names.contains(Key(candidate.as_slice())) {
            return Ok((number, candidate));
        }
    }
}

// Gives a free name.
fn keep(alloc: Global, taken: &mut Taken, name: &[u8]) -> Result<Name, AllocError>
    requires free { ¬ Contains taken.old.names.keys name.now }
    requires kept { IsKept taken.old.names.keys taken.old.last.items }
    ensures given { IfOk result (λ given. IsGivenFor taken.old.names.keys name.now given) }
    ensures names { IfOk result (λ given. taken.new.names.keys ≡ taken.old.names.keys ++ given ∷ []) }
    ensures kept { OnOk result (IsKept taken.new.names.keys taken.new.last.items) }
{
    let given = Text::from_slice(alloc, name)?;
    add(taken, Text::from_slice(alloc, name)?)?;
    Ok(given)
}

// Gives another name in the place of one that is taken.
fn rename(alloc: Global, taken: &mut Taken, name: &[u8], place: usize) -> Result<Name, AllocError>
    requires inside { place < length taken.old.names.keys }
    requires place { slice_index_or taken.old.names.keys place [] ≡ name.now }
    requires kept { IsKept taken.old.names.keys taken.old.last.items }
    ensures given { IfOk result (λ given. IsGivenFor taken.old.names.keys name.now given) }
    ensures names { IfOk result (λ given. taken.new.names.keys ≡ taken.old.names.keys ++ given ∷ []) }
    ensures kept { OnOk result (IsKept taken.new.names.keys taken.new.last.items) }
{
    let (number, given) = next_free(alloc, &taken.names, name, taken.last[place])?;
    add(taken, Text::from_slice(alloc, given.as_slice())?)?;
    taken.last[place] = number;
    Ok(given)
}

/// The name that a binding of this name is given, which is taken from now on.
pub fn give(alloc: Global, taken: &mut Taken, name: &[u8]) -> Result<Name, AllocError>
    requires kept { IsKept taken.old.names.keys taken.old.last.items }
    ensures given { IfOk result (λ given. IsGivenFor taken.old.names.keys name.now given) }
    ensures names { IfOk result (λ given. taken.new.names.keys ≡ taken.old.names.keys ++ given ∷ []) }
    ensures kept { OnOk result (IsKept taken.new.names.keys taken.new.last.items) }
{
    match taken.names.get_index_of(Key(name)) {
        None => keep(alloc, taken, name),
        Some(place) => rename(alloc, taken, name, place),
    }
}
