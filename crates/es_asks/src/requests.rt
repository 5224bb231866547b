//! Requests, each with a number.
ghost use Rattle.std.specs.Prelude.{◌≡◌, ◌<◌, ◌^◌, ◌∷◌, ◌++◌, [], length, IfOk, OnOk};
ghost use Rattle.es_asks.specs.Requested as spec;

use indexmap::IndexMap;
use pk_text::{Key, Text};
use pk_types::{Form, Request};
use std::alloc::{AllocError, Global};

/// How a text is asked for: by a declaration or `import()`, by a declaration as JSON, or by `require`.
#[derive(Clone, Copy, Debug, PartialEq, Eq)]
pub(crate) enum Manner {
    Import,
    Json,
    Require,
}

impl Manner {
    // The form of such a request.
    fn form(self) -> Form
        ensures { result ≡ spec.form_of self }
    {
        match self {
            Manner::Require => Form::Require,
            _ => Form::Import,
        }
    }

    // Whether it is made for JSON.
    fn is_json(self) -> bool
        ensures { result ≡ spec.is_json self }
    {
        matches!(self, Manner::Json)
    }
}

// The request of a text.
fn request(alloc: Global, text: &[u8], how: Manner) -> Result<Request, AllocError>
    ensures { IfOk result (λ request. request ≡ spec.request_of text.now how) }
{
    let text = Text::from_slice(alloc, text)?;
    Ok(Request {
        text,
        form: how.form(),
        json: how.is_json(),
    })
}

// The numbers of the requests of one text.
#[derive(Clone, Copy)]
pub(crate) struct Numbers {
    imported: Option<u32>,
    json: Option<u32>,
    required: Option<u32>,
}

impl Numbers {
    // None has a number.
    fn none() -> Numbers
        ensures { result ≡ spec.no_number }
    {
        Numbers {
            imported: None,
            json: None,
            required: None,
        }
    }

    // The number of the request that is made like this.
    fn of(self, how: Manner) -> Option<u32>
        ensures { result ≡ spec.number_in how self }
    {
        match how {
            Manner::Import => self.imported,
            Manner::Json => self.json,
            Manner::Require => self.required,
        }
    }

    // The same with one number more.
    fn with(self, how: Manner, number: u32) -> Numbers
        ensures { result ≡ spec.with_number how number self }
    {
        let number = Some(number);
        let Numbers {
            imported,
            json,
            required,
        } = self;
        match how {
            Manner::Import => Numbers {
                imported: number,
                json,
                required,
            },
            Manner::Json => Numbers {
                imported,
                json: number,
                required,
            },
            Manner::Require => Numbers {
                imported,
                json,
                required: number,
            },
        }
    }
}

/// Distinct requests in the order of their numbers, and their numbers by their texts.
#[derive(Drop)]
pub(crate) struct Requests {
    pub(crate) numbers: IndexMap<Text, Numbers>,
    pub(crate) items: Vec<Request>,
}

impl Requests {
    /// No request.
    pub(crate) fn new(alloc: Global) -> Requests
        ensures keyed { spec.AreKeyed result.numbers.entries result.items.items }
        ensures none { result.items.items ≡ [] }
    {
        Requests {
            numbers: IndexMap::new(alloc),
            items: Vec::new(alloc),
        }
    }

    // The number of a request, if it has one.
    fn told(&self, text: &[u8], how: Manner) -> Option<u32>
        ensures { result ≡ spec.told self.now.numbers.entries text.now how }
    {
        let numbers = self.numbers.get(Key(text))?;
        numbers.of(how)
    }

    // Tells the number of a request.
    fn tell(
        &mut self,
        alloc: Global,
        text: &[u8],
        how: Manner,
        number: u32,
    ) -> Result<(), AllocError>
        ensures tells { OnOk result
            (spec.Tells text.now how number self.old.numbers.entries self.new.numbers.entries) }
        ensures items { self.new.items ≡ self.old.items }
    {
        let numbers = match self.numbers.get(Key(text)) {
            Some(numbers) => *numbers,
            None => Numbers::none(),
        };
        self.numbers
            .insert(Text::from_slice(alloc, text)?, numbers.with(how, number))?;
        Ok(())
    }

    // Adds a request. Its number.
    fn add(&mut self, alloc: Global, text: &[u8], how: Manner) -> Result<u32, AllocError>
        requires { length self.old.items.items < 2 ^ 32 }
        ensures number { IfOk result (λ number. number ≡ length self.old.items.items) }
        ensures items { OnOk result
            (self.new.items.items ≡ self.old.items.items ++ spec.request_of text.now how ∷ []) }
        ensures tells { OnOk result
            (spec.Tells text.now how (length self.old.items.items)
            self.old.numbers.entries self.new.numbers.entries) }
    {
        let number = self.items.len() as u32;
        self.items.push(request(alloc, text, how)?)?;
        self.tell(alloc, text, how, number)?;
        Ok(number)
    }

    /// The number of a request, which is the next one where it is new.
    pub(crate) fn number(
        &mut self,
        alloc: Global,
        text: &[u8],
        how: Manner,
    ) -> Result<u32, AllocError>
        requires keyed { spec.AreKeyed self.old.numbers.entries self.old.items.items }
        requires short { length self.old.items.items < 2 ^ 32 }
        ensures takes { IfOk result
            (spec.Takes self.old.items.items self.new.items.items (spec.request_of text.now how)) }
        ensures keyed { OnOk result (spec.AreKeyed self.new.numbers.entries self.new.items.items) }
    {
        if let Some(number) = self.told(text, how) {
            return Ok(number);
        }
        let number = self.add(alloc, text, how)?;
        Ok(number)
    }
}
