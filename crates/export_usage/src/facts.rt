// What is known of the use of a graph.
ghost use Rattle.std.specs.Prelude.{◌≡◌, [], IfOk, OnOk};
ghost use Rattle.export_usage.specs.Claims.{Claim, AreReached, AreExposed, AreUsed, IsTheClaim, Learns};
ghost use Rattle.export_usage.specs.Putting.{IsPut, Names};

use indexmap::IndexSet;
use pk_text::Interner;
use pk_types::Name;
use std::alloc::{AllocError, Global};

/// Something that is known of a module, by its number. A name is known by its number too.
#[derive(Clone, Copy, Debug, PartialEq, Eq, Hash)]
pub enum Fact {
    /// The module is reached.
    Reached(u32),

    /// All names that the module exports are used.
    Exposed(u32),

    /// The namespace of the module is used.
    Space(u32),

    /// A name of the module is used.
    Used(u32, u32),
}

/// What is known so far, in the order in which it came to be known.
#[derive(Drop)]
pub struct Facts {
    pub known: IndexSet<Fact>,
    pub names: Interner,
}

impl Facts {
    /// Nothing is known.
    pub fn none(alloc: Global) -> Facts
        ensures { result.known.keys ≡ [] }
    {
        Facts {
            known: IndexSet::new(alloc),
            names: Interner::new(alloc),
        }
    }

    // Makes a fact known.
    fn put(&mut self, fact: Fact) -> Result<(), AllocError>
        ensures { OnOk result (IsPut self.old fact self.new) }
    {
        self.known.insert(fact)?;
        Ok(())
    }

    // The number of a name.
    fn number_of(&mut self, name: &[u8]) -> Result<u32, AllocError>
        ensures { IfOk result (Names self.old name.now self.new) }
    {
        let number = self.names.intern(name)?;
        Ok(number)
    }

    /// Makes known that a module is reached.
    pub fn put_reached(&mut self, module: u32) -> Result<(), AllocError>
        ensures { OnOk result (Learns self.old (IsTheClaim (Claim.is_reached «module»)) self.new) }
    {
        self.put(Fact::Reached(module))?;
        Ok(())
    }

    /// Makes known that all names are used that a module exports.
    pub fn put_exposed(&mut self, module: u32) -> Result<(), AllocError>
        ensures { OnOk result (Learns self.old (IsTheClaim (Claim.is_exposed «module»)) self.new) }
    {
        self.put(Fact::Exposed(module))?;
        Ok(())
    }

    /// Makes known that the namespace of a module is used.
    pub fn put_space(&mut self, module: u32) -> Result<(), AllocError>
        ensures { OnOk result (Learns self.old (IsTheClaim (Claim.is_space «module»)) self.new) }
    {
        self.put(Fact::Space(module))?;
        Ok(())
    }

    /// Makes known that a name of a module is used.
    pub fn put_used(&mut self, module: u32, name: &[u8]) -> Result<(), AllocError>
        ensures { OnOk result (Learns self.old (IsTheClaim (Claim.is_used «module» name.now)) self.new) }
    {
        let number = self.number_of(name)?;
        self.put(Fact::Used(module, number))?;
        Ok(())
    }

    /// Makes known that these modules are reached.
    pub fn put_all_reached(&mut self, modules: &[u32]) -> Result<(), AllocError>
        ensures { OnOk result (Learns self.old (AreReached modules.now) self.new) }
    {
        for module in modules {
            self.put_reached(*module)?;
        }
        Ok(())
    }

    /// Makes known that these modules are reached, and all names are used that they export.
    pub fn put_all_exposed(&mut self, modules: &[u32]) -> Result<(), AllocError>
        ensures { OnOk result (Learns self.old (AreExposed modules.now) self.new) }
    {
        for module in modules {
            self.put_reached(*module)?;
            self.put_exposed(*module)?;
        }
        Ok(())
    }

    /// Makes known that these names of a module are used.
    pub fn put_all_used(&mut self, module: u32, names: &[Name]) -> Result<(), AllocError>
        ensures { OnOk result (Learns self.old (AreUsed «module» names.now) self.new) }
    {
        for name in names {
            self.put_used(module, name.as_slice())?;
        }
        Ok(())
    }
}
