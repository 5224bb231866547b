// What a line says of a module.
use crate::fault::Fault;
use pk_base::Path;
use pk_types::{BindKind, Binding, ExportEntry, Origin, Text};
use std::alloc::{AllocError, Global};

/// The exports of a module, and the modules that its requests lead to.
#[derive(Drop)]
pub struct Draft {
    pub targets: Vec<Path>,
    pub exports: Vec<ExportEntry>,
    pub stars: Vec<u32>,
    pub bindings: Vec<Binding>,
}

/// The path of the module whose number the word says.
pub fn path_of(alloc: Global, word: &str) -> Result<Path, Fault> {
    match Path::root(alloc).join(word.as_bytes())? {
        Some(path) => Ok(path),
        None => Err(Fault::Unread),
    }
}

// The place of the next item behind so many.
fn place(count: usize) -> Result<u32, Fault> {
    match u32::try_from(count) {
        Ok(place) => Ok(place),
        Err(_) => Err(Fault::TooMany),
    }
}

fn export(alloc: Global, name: &str, origin: Origin) -> Result<ExportEntry, AllocError> {
    let name = Text::from_slice(alloc, name.as_bytes())?;
    Ok(ExportEntry {
        name,
        origin,
        place: 0,
    })
}

impl Draft {
    fn new(alloc: Global) -> Draft {
        Draft {
            targets: Vec::new(alloc),
            exports: Vec::new(alloc),
            stars: Vec::new(alloc),
            bindings: Vec::new(alloc),
        }
    }

    // A new request, which leads to the module.
    fn request(&mut self, alloc: Global, target: &str) -> Result<u32, Fault> {
        let request = place(self.targets.len())?;
        self.targets.push(path_of(alloc, target)?)?;
        Ok(request)
    }

    // A new binding.
    fn own(&mut self, alloc: Global, name: &str) -> Result<Origin, Fault> {
        let binding = place(self.bindings.len())?;
        let name = Text::from_slice(alloc, name.as_bytes())?;
        self.bindings.push(Binding {
            name,
            kind: BindKind::Let,
        })?;
        Ok(Origin::Own(binding))
    }

    // A name or the namespace of another module, as `1.x` and `1.*` say, or a binding by its place.
    fn origin(&mut self, alloc: Global, from: &str) -> Result<Origin, Fault> {
        let Some((target, name)) = from.split_once('.') else {
            return match from.parse::<u32>() {
                Ok(binding) => Ok(Origin::Own(binding)),
                Err(_) => Err(Fault::Unread),
            };
        };
        let request = self.request(alloc, target)?;
        if name == "*" {
            return Ok(Origin::Space(request));
        }
        let name = Text::from_slice(alloc, name.as_bytes())?;
        Ok(Origin::Other(request, name))
    }

    fn add(&mut self, alloc: Global, word: &str) -> Result<(), Fault> {
        if let Some(target) = word.strip_prefix('*') {
            let star = self.request(alloc, target)?;
            self.stars.push(star)?;
            return Ok(());
        }
        let entry = match word.split_once('=') {
            Some((name, from)) => export(alloc, name, self.origin(alloc, from)?)?,
            None => export(alloc, word, self.own(alloc, word)?)?,
        };
        self.exports.push(entry)?;
        Ok(())
    }

    /// What the words say.
    pub fn read(alloc: Global, words: &str) -> Result<Draft, Fault> {
        let mut draft = Draft::new(alloc);
        for word in words.split_whitespace() {
            draft.add(alloc, word)?;
        }
        Ok(draft)
    }
}
