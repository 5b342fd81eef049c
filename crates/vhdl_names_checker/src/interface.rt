//! What an instance needs to know of its entity.

ghost use Rattle.std.specs.Prelude.{◌≡◌, OnOk, string_bytes};
ghost use Rattle.vhdl_names_checker.specs.Around.{no_interface};
ghost use Rattle.vhdl_names_checker.specs.Declaring.{with_formal};

use sqlite_items::Items;
use std::alloc::{AllocError, Global};
use vhdl_names_scope::Region;
use vhdl_units::{Class, Entry, Object};

/// The generics and ports of an entity, in their order, and the region that declares them (6.5.6).
pub struct Interface {
    pub generics: Items<Object>,
    pub ports: Items<Object>,
    pub formals: Region,
}

// A `drop` of its own is called, where a derived one is written out and proved wherever an interface may be dropped.
impl Drop for Interface {
    fn drop(self) {
        let Interface {
            generics: _generics,
            ports: _ports,
            formals: _formals,
        } = self;
    }
}

impl Interface {
    /// No generics and no ports.
    #[tactic(auto, unfolding(crate::specs::Around::no_interface))]
    pub fn new(alloc: Global) -> Interface
        ensures { result ≡ no_interface }
    {
        Interface {
            generics: Items::new(alloc),
            ports: Items::new(alloc),
            formals: Region::new(alloc),
        }
    }

    /// Adds an object of a name. Only a generic or a port is a formal: any other object changes nothing.
    #[tactic(auto, unfolding(crate::specs::Declaring::with_formal))]
    pub fn add(&mut self, class: Class, name: &String, object: Object) -> Result<(), AllocError>
        ensures { OnOk result (self.new ≡ with_formal class (string_bytes name.now) object self.old) }
    {
        match class {
            Class::Generic => {
                let name = name.clone()?;
                self.generics.push(object)?;
                self.formals.add(name, Entry::Object(object))?;
                Ok(())
            }
            Class::Port(_) => {
                let name = name.clone()?;
                self.ports.push(object)?;
                self.formals.add(name, Entry::Object(object))?;
                Ok(())
            }
            _ => Ok(()),
        }
    }
}
