// What imports and exports ask of other modules.
ghost use Rattle.std.specs.Prelude.{◌≡◌};
ghost use Rattle.std.specs.Option.{option_map};
ghost use Rattle.export_faults.specs.Questions.{asked_by_import, asked_by_export};
ghost use Rattle.export_faults.specs.Asking.{asked};

use pk_types::{ExportEntry, ImportEntry, Name, Origin};

// A name that is asked of what a request leads to.
#[derive(Clone, Copy)]
pub struct Question<'a> {
    pub place: u32,
    pub request: u32,
    pub name: &'a Name,
}

// What an import asks: nothing where it is a namespace.
pub fn of_import(entry: &ImportEntry) -> Option<Question<'_>>
    ensures { option_map asked result ≡ asked_by_import entry.now }
{
    match &entry.name {
        Some(name) => Some(Question {
            place: entry.place,
            request: entry.request,
            name,
        }),
        None => None,
    }
}

// What an export asks: nothing where it is a binding of its own module, or a namespace.
pub fn of_export(entry: &ExportEntry) -> Option<Question<'_>>
    ensures { option_map asked result ≡ asked_by_export entry.now }
{
    match &entry.origin {
        Origin::Other(request, name) => Some(Question {
            place: entry.place,
            request: *request,
            name,
        }),
        Origin::Own(_) | Origin::Space(_) => None,
    }
}
