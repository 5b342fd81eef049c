//! The open regions.

ghost use Rattle.std.specs.Prelude.{◌≡◌, ◌++◌, ◌∷◌, [], IfOk, OnOk, OnErr, string_bytes};
ghost use Rattle.std.specs.List.{list_any, last_or};
ghost use Rattle.vhdl_names_overloads.specs.Hiding.{met};
ghost use Rattle.vhdl_names_overloads.specs.Literals.{is_other};
ghost use Rattle.vhdl_names_scope.specs.Declarations.{own};
ghost use Rattle.vhdl_names_overloads.specs.Literals.{literal_types};
ghost use Rattle.vhdl_names_overloads.specs.Sharing as sharing;
ghost use Rattle.vhdl_names_scope.specs.Hiding.{seen};
ghost use Rattle.vhdl_names_scope.specs.Pairs.{BothSeen};
ghost use Rattle.vhdl_names_scope.specs.Nesting.{OpenRegion, Nested, beginning, outermost, opened, closed, declared_in, declared, loop_opened_in, loop_opened, loop_closed_in, loop_closed, regions_in, whole, meanings, declares_other};

use crate::further::Further;
use crate::pairs::pair_in_loop;
use crate::region::{Declared, Region};
use std::alloc::{AllocError, Global};
use std::marker::Model;
use std::mem;
use vhdl_names_overloads::{Meanings, Overloads, Pair, Shared, met};
use vhdl_units::Entry;

// What a name denotes in a loop's region.
fn seen_in_loop(
    alloc: Global,
    parameter: &Declared,
    name: &str,
    found: Meanings,
) -> Result<Meanings, AllocError>
    ensures { IfOk result (λ seen. seen ≡ met (own name.now (parameter.now ∷ [])) found) }
{
    if name == parameter.name() {
        let mut own = Overloads::new(alloc);
        own.push(parameter.entry())?;
        met(alloc, &own, &Overloads::new(alloc), found)
    } else {
        Ok(found)
    }
}

// An open region with the loops that are open in it, the outermost first.
#[derive(Debug, Drop)]
struct Open {
    region: Further,
    loops: Vec<Declared>,
}

impl Model for Open {
    ghost use Rattle.std.specs.Prelude.{reverse};
    ghost use Rattle.vhdl_names_scope.specs.Nesting.{OpenRegion};

    ghost Value = { OpenRegion };

    ghost view = { λ o. record { region = o.region; loops = reverse o.loops.items } };
}

impl Open {
    fn new(alloc: Global, base: Region) -> Open
        ensures { result ≡ beginning base }
    {
        Open {
            region: Further::new(alloc, base),
            loops: Vec::new(alloc),
        }
    }

    fn add(&mut self, name: String, entry: Entry) -> Result<(), AllocError>
        ensures ok { OnOk result (self.new ≡ declared_in (record { name = string_bytes name; entry = entry }) self.old) }
        ensures err { OnErr result (self.new ≡ self.old) }
    {
        self.region.add(name, entry)
    }

    fn open_loop(&mut self, parameter: Declared) -> Result<(), AllocError>
        ensures ok { OnOk result (self.new ≡ loop_opened_in parameter self.old) }
        ensures err { OnErr result (self.new ≡ self.old) }
    {
        self.loops.push(parameter)?;
        Ok(())
    }

    fn close_loop(&mut self)
        ensures { self.new ≡ loop_closed_in self.old }
    {
        self.loops.pop();
    }

    fn declares_other(&self, name: &str) -> bool
        ensures { result ≡ list_any is_other (own name.now (whole self.now.region)) }
    {
        self.region.declares_other(name)
    }

    fn last(&self, name: &str) -> Option<Entry>
        ensures { result ≡ last_or None (own name.now (whole self.now.region)) }
    {
        self.region.last(name)
    }

    fn into_region(self) -> Further
        ensures { result ≡ self.region }
    {
        self.region
    }

    // What a name denotes in the region and its loops.
    fn seen(&self, alloc: Global, name: &str, found: Meanings) -> Result<Meanings, AllocError>
        ensures { IfOk result (λ all. all ≡ seen name.now (regions_in self.now) found) }
    {
        let mut all = self.region.seen(alloc, name, found)?;
        for parameter in &self.loops {
            all = seen_in_loop(alloc, parameter, name, all)?;
        }
        Ok(all)
    }

    // Two names in the region and its loops, where they are seen so around it.
    fn pair(&self, alloc: Global, left: &str, right: &str, around: Pair) -> Result<Pair, AllocError>
        ensures { IfOk result (λ pair. BothSeen left.now right.now (regions_in self.now) around pair) }
    {
        let mut all = self.region.pair(alloc, left, right, around)?;
        for parameter in &self.loops {
            all = pair_in_loop(alloc, parameter, left, right, all)?;
        }
        Ok(all)
    }

    fn keep_shared(&mut self, alloc: Global, left: &str, right: &str) -> Result<(), AllocError>
        ensures { self.new ≡ self.old }
    {
        self.region.keep_shared(alloc, left, right)
    }
}

/// The regions that are open at a place of a design: what is always visible; the region of an entity or of
/// an architecture with its entity; that of a process; and those of its `for` loops (12.1). The region that
/// was opened last and isn't a loop's is the innermost one.
#[derive(Debug, Drop)]
pub struct Regions {
    // The outermost first.
    outer: Vec<Open>,
    inner: Open,
}

impl Model for Regions {
    ghost use Rattle.std.specs.Prelude.{reverse};
    ghost use Rattle.vhdl_names_scope.specs.Nesting.{Nested};

    ghost Value = { Nested };

    ghost view = { λ r. record { inner = r.inner; outer = reverse r.outer.items } };
}

impl Regions {
    /// One open region.
    pub fn new(alloc: Global, base: Region) -> Regions
        ensures { result ≡ outermost base }
    {
        Regions {
            outer: Vec::new(alloc),
            inner: Open::new(alloc, base),
        }
    }

    /// Opens a region that goes on another one, inside the innermost. Where memory runs out the open
    /// regions stay as they were.
    pub fn open(&mut self, alloc: Global, base: Region) -> Result<(), AllocError>
        ensures ok { OnOk result (self.new ≡ opened base self.old) }
        ensures err { OnErr result (self.new ≡ self.old) }
    {
        let around = mem::replace(&mut self.inner, Open::new(alloc, base));
        match self.outer.push(around) {
            Ok(()) => Ok(()),
            Err(full) => {
                self.inner = full.value;
                Err(AllocError)
            }
        }
    }

    /// Closes the innermost region and its loops, and gives it back. Where no other is open one of no
    /// declarations takes its place.
    pub fn close(&mut self, alloc: Global) -> Further
        ensures new { self.new ≡ closed self.old }
        ensures region { result ≡ self.old.inner.region }
    {
        let around = match self.outer.pop() {
            Some(around) => around,
            None => Open::new(alloc, Region::new(alloc)),
        };
        mem::replace(&mut self.inner, around).into_region()
    }

    /// Adds a declaration to the innermost region, behind the others; from inside loops too. Where memory
    /// runs out all stays as it was.
    pub fn add(&mut self, name: String, entry: Entry) -> Result<(), AllocError>
        ensures ok { OnOk result (self.new ≡ declared (record { name = string_bytes name; entry = entry }) self.old) }
        ensures err { OnErr result (self.new ≡ self.old) }
    {
        self.inner.add(name, entry)
    }

    /// Opens the region of a `for` loop, which holds the loop's parameter alone (10.10). Where memory runs
    /// out all stays as it was.
    pub fn open_loop(&mut self, name: String, entry: Entry) -> Result<(), AllocError>
        ensures ok { OnOk result (self.new ≡ loop_opened (record { name = string_bytes name; entry = entry }) self.old) }
        ensures err { OnErr result (self.new ≡ self.old) }
    {
        self.inner.open_loop(Declared::new(name, entry))
    }

    /// Closes the region of the innermost `for` loop.
    pub fn close_loop(&mut self)
        ensures { self.new ≡ loop_closed self.old }
    {
        self.inner.close_loop();
    }

    /// Whether the innermost region declares a name to be something that is no enumeration literal. Two
    /// such declarations may not have one name.
    pub fn declares_other(&self, name: &str) -> bool
        ensures { result ≡ declares_other self.now name.now }
    {
        self.inner.declares_other(name)
    }

    /// What the innermost region declared a name to be last, if it declares it.
    pub fn last(&self, name: &str) -> Option<Entry>
        ensures { result ≡ last_or None (own name.now (whole self.now.inner.region)) }
    {
        self.inner.last(name)
    }

    /// What a name denotes, by hiding and overloading (12.3 to 12.5): several entries only where all are
    /// enumeration literals, those of an inner region first; none where the name isn't declared.
    pub fn meanings(&self, alloc: Global, name: &str) -> Result<Meanings, AllocError>
        ensures { IfOk result (λ entries. entries ≡ meanings self.now name.now) }
    {
        let mut found = Meanings::new(alloc);
        for region in &self.outer {
            found = region.seen(alloc, name, found)?;
        }
        self.inner.seen(alloc, name, found)
    }

    /// The discrete types of which two names denote literals (5.3.2.1). Where `keep_shared` was called for them it
    /// takes a lookup in each region and, where both have literals in several regions, the logarithm of how many.
    pub fn shared(&self, alloc: Global, left: &str, right: &str) -> Result<Shared, AllocError>
        ensures { IfOk result (λ shared. shared ≡ sharing.shared (literal_types (meanings self.now left.now)) (literal_types (meanings self.now right.now))) }
    {
        let mut pair = Pair::new(alloc);
        for region in &self.outer {
            pair = region.pair(alloc, left, right, pair)?;
        }
        let all = self.inner.pair(alloc, left, right, pair)?;
        Ok(all.shared())
    }

    /// Keeps the types that two names share in the innermost region that is no loop's and in the one around it, until
    /// a literal is declared there.
    pub fn keep_shared(&mut self, alloc: Global, left: &str, right: &str) -> Result<(), AllocError>
        ensures { self.new ≡ self.old }
    {
        if let Some(around) = self.outer.last_mut() {
            around.keep_shared(alloc, left, right)?;
        }
        self.inner.keep_shared(alloc, left, right)
    }
}
