//! What stands around a place of a design file.

ghost use Rattle.std.specs.Prelude.{◌≡◌, ◌<◌, ◌+◌, ◌^◌, ◌==◌, ◌∷◌, [], IfOk, OnOk, drop, false, length, not, reverse, slice_index_or, slice_set, string_bytes};
ghost use Rattle.std.specs.List.{list_any};
ghost use Rattle.std.specs.Option.{option_map};
ghost use Rattle.vhdl_names_scope.specs.Nesting.{closed, declared, loop_closed, opened};
ghost use Rattle.vhdl_units.specs.declared.entry.Entry.TheVariants as entry;
ghost use Rattle.vhdl_names_checker.specs.After as after;
ghost use Rattle.vhdl_names_checker.specs.Around as around;
ghost use Rattle.vhdl_names_checker.specs.Declaring as declaring;
ghost use Rattle.vhdl_names_checker.specs.Faults as faults;

use crate::interface::Interface;
use std::alloc::{AllocError, Global};
use std::marker::Model;
use std::mem;
use vhdl_names_scope::{Further, Region, Regions, STANDARD_MARKS, standard};
use vhdl_names_typing::LiteralBounds;
use vhdl_units::{BaseType, Class, Entry, Object};

/// The label of a loop, if it has one.
#[derive(Drop)]
pub struct Label {
    name: Option<String>,
}

impl Model for Label {
    ghost use Rattle.std.specs.Prelude.{List, Option, ℕ, string_bytes};
    ghost use Rattle.std.specs.Option.{option_map};

    ghost Value = { Option (List ℕ) };

    ghost view = { λ l. option_map string_bytes l.name };
}

impl Label {
    pub fn new(name: Option<String>) -> Label
        ensures { result ≡ option_map string_bytes name }
    {
        Label { name }
    }

    /// Whether the loop has this label.
    #[tactic(auto, unfolding(crate::specs::Faults::is_labelled))]
    pub fn is(&self, word: &str) -> bool
        ensures { result ≡ faults.is_labelled word.now self.now }
    {
        match &self.name {
            Some(name) => word == name.as_str(),
            None => false,
        }
    }
}

// Whether one of some loops has this label, the innermost of which is the last.
fn is_among(loops: &[Label], label: &str) -> bool
    ensures { result ≡ list_any (faults.is_labelled label.now) (reverse loops.now) }
{
    loops.iter().rev().any(|open| open.is(label))
}

// How many of some loops stand inside the innermost one of this label. The innermost is the last.
#[tactic(auto, unfolding(crate::specs::Faults::loops_within))]
fn count_within(loops: &[Label], label: &str) -> usize
    ensures { result ≡ faults.loops_within label.now (reverse loops.now) }
{
    let mut count = 0;
    let mut rest = loops;
    while let [outer @ .., open] = rest {
        if open.is(label) {
            return count;
        }
        count += 1;
        rest = outer;
    }
    count
}

/// What stands around a place of a design file, by all that stands before it. It is changed by the events of
/// a `Checker`, and only read by others.
#[derive(Drop)]
pub struct Surroundings {
    regions: Regions,
    // All types, subtypes, objects and labels so far, each at the place of its number among the design's own.
    declarations: Vec<Entry>,
    // The entities by name, and the architectures by `entity.architecture`.
    library: Region,
    // Those of the entities, by their number.
    interfaces: Vec<Interface>,
    // The region of each entity: it is lent to the architecture that is open.
    bases: Vec<Region>,
    // That of the entity that is open.
    interface: Interface,
    // The entity of the architecture that is open.
    entity: Option<usize>,
    architecture: String,
    // Whether an attribute may stand here.
    is_allowed: bool,
    // Whether the process that is open has a sensitivity list.
    is_listed: bool,
    // The labels of the loops that are open, the outermost first.
    loops: Vec<Label>,
    // The types that the open case statements choose by, the outermost first.
    subjects: Vec<Option<BaseType>>,
}

impl Model for Surroundings {
    ghost use Rattle.std.specs.Prelude.{reverse, string_bytes};
    ghost use Rattle.vhdl_names_checker.specs.Around.{Around};

    ghost Value = { Around };

    ghost view = { λ s. record {
      regions = s.regions;
      declarations = s.declarations.items;
      library = s.library;
      interfaces = s.interfaces.items;
      bases = s.bases.items;
      interface = s.interface;
      entity = s.entity;
      architecture = string_bytes s.architecture;
      is_allowed = s.is_allowed;
      is_listed = s.is_listed;
      loops = reverse s.loops.items;
      subjects = reverse s.subjects.items;
    } };
}

/// The name of an architecture in the library: `entity.architecture`.
#[tactic(auto, unfolding(crate::specs::After::architecture_key))]
pub fn architecture_key(
    alloc: Global,
    entity: &str,
    architecture: &str,
) -> Result<String, AllocError>
    ensures { IfOk result (λ key. string_bytes key ≡ after.architecture_key entity.now architecture.now) }
{
    let mut key = String::new(alloc);
    key.push_str(entity)?;
    key.push_str(".")?;
    key.push_str(architecture)?;
    Ok(key)
}

// Takes the region of an entity, and leaves an empty one in its place.
fn taken(alloc: Global, bases: &mut Vec<Region>, entity: usize) -> Region
    ensures region { result ≡ slice_index_or bases.old.items entity [] }
    ensures rest { bases.new.items ≡ slice_set bases.old.items entity [] }
{
    if entity < bases.len() {
        mem::replace(&mut bases[entity], Region::new(alloc))
    } else {
        Region::new(alloc)
    }
}

// The region of the entity of an architecture that begins.
#[tactic(auto, unfolding(crate::specs::After::lent, crate::specs::After::without_base))]
fn lend(alloc: Global, bases: &mut Vec<Region>, entity: Option<usize>) -> Region
    ensures region { result ≡ after.lent entity bases.old.items }
    ensures rest { bases.new.items ≡ after.without_base entity bases.old.items }
{
    match entity {
        Some(number) => taken(alloc, bases, number),
        None => Region::new(alloc),
    }
}

// What a region declares itself. The region that it goes on is dropped.
fn own_part(region: Further) -> Region
    ensures { result ≡ region.more }
{
    region.more
}

fn put(bases: &mut Vec<Region>, entity: usize, base: Region)
    ensures { bases.new.items ≡ slice_set bases.old.items entity base }
{
    if entity < bases.len() {
        bases[entity] = base;
    }
}

// Puts the region of an entity back where its architecture ends.
#[tactic(auto, unfolding(crate::specs::After::given_back))]
fn give_back(bases: &mut Vec<Region>, entity: Option<usize>, base: Region)
    ensures { bases.new.items ≡ after.given_back entity base bases.old.items }
{
    if let Some(number) = entity {
        put(bases, number, base);
    }
}

impl Surroundings {
    /// What stands around the beginning of a file.
    #[tactic(auto, unfolding(crate::specs::Around::beginning, crate::specs::Around::no_interface))]
    pub(crate) fn new(alloc: Global) -> Result<Surroundings, AllocError>
        ensures { IfOk result (λ s. s ≡ around.beginning) }
    {
        let always = standard(alloc)?;
        Ok(Surroundings {
            regions: Regions::new(alloc, always),
            declarations: Vec::new(alloc),
            library: Region::new(alloc),
            interfaces: Vec::new(alloc),
            bases: Vec::new(alloc),
            interface: Interface::new(alloc),
            entity: None,
            architecture: String::new(alloc),
            is_allowed: false,
            is_listed: false,
            loops: Vec::new(alloc),
            subjects: Vec::new(alloc),
        })
    }

    // ---- what is known

    /// The open regions, the innermost of which is searched first (12.1).
    pub fn regions(&self) -> &Regions
        ensures { result.now ≡ self.now.regions }
    {
        &self.regions
    }

    /// The entities so far by name, and the architectures by `entity.architecture` (13.1).
    pub fn library(&self) -> &Region
        ensures { result.now ≡ self.now.library }
    {
        &self.library
    }

    /// The generics and ports of the entities so far, by the entity's number.
    pub fn interfaces(&self) -> &[Interface]
        ensures { result.now ≡ self.now.interfaces }
    {
        self.interfaces.as_slice()
    }

    /// The name of the architecture that is open, or was open last, in lower case.
    pub fn architecture(&self) -> &str
        ensures { result.now ≡ self.now.architecture }
    {
        self.architecture.as_str()
    }

    /// Whether an attribute may stand here: the architecture has nothing else, and none yet (7.2).
    pub fn is_allowed(&self) -> bool
        ensures { result ≡ self.now.is_allowed }
    {
        self.is_allowed
    }

    /// Whether the process that is open, or was open last, has a sensitivity list (11.3).
    pub fn is_listed(&self) -> bool
        ensures { result ≡ self.now.is_listed }
    {
        self.is_listed
    }

    /// The number of the next declaration that has one.
    #[tactic(auto, unfolding(crate::specs::Declaring::next_number, crate::specs::Declaring::standard_marks))]
    pub fn next_number(&self) -> usize
        ensures number { result ≡ declaring.next_number self.now }
        ensures bound { result < 2 ^ 63 + declaring.standard_marks }
    {
        STANDARD_MARKS + self.declarations.len()
    }

    /// Whether a loop is open.
    pub fn has_loop(&self) -> bool
        ensures { result ≡ not (length self.now.loops == 0) }
    {
        !self.loops.is_empty()
    }

    /// Whether a loop of this label is open.
    pub fn has_loop_of(&self, label: &str) -> bool
        ensures { result ≡ list_any (faults.is_labelled label.now) self.now.loops }
    {
        is_among(self.loops.as_slice(), label)
    }

    /// How many of the open loops stand inside the innermost one of this label: 0 where it is the innermost
    /// of all (10.11, 10.12). Where none has the label, how many are open.
    pub fn loops_within(&self, label: &str) -> usize
        ensures { result ≡ faults.loops_within label.now self.now.loops }
    {
        count_within(self.loops.as_slice(), label)
    }

    /// The type that the innermost open case statement chooses by.
    #[tactic(auto, unfolding(crate::specs::Faults::subject))]
    pub fn subject(&self) -> Option<BaseType>
        ensures { result ≡ faults.subject self.now.subjects }
    {
        match self.subjects.iter().rev().next() {
            Some(subject) => *subject,
            None => None,
        }
    }

    /// Keeps the types that two bounds share.
    pub(crate) fn keep_shared(
        &mut self,
        alloc: Global,
        bounds: &LiteralBounds,
    ) -> Result<(), AllocError>
        ensures { self.new ≡ self.old }
    {
        bounds.keep(alloc, &mut self.regions)
    }

    // ---- declarations

    /// Adds a declaration that has a number to the innermost region.
    #[tactic(auto, unfolding(crate::specs::Declaring::numbered))]
    pub(crate) fn numbered(&mut self, name: String, entry: Entry) -> Result<(), AllocError>
        ensures { OnOk result (self.new ≡ declaring.numbered (string_bytes name) entry self.old) }
    {
        self.declarations.push(entry)?;
        self.regions.add(name, entry)?;
        Ok(())
    }

    /// Adds an enumeration literal to the innermost region.
    pub(crate) fn add_literal(
        &mut self,
        name: String,
        base: BaseType,
        position: usize,
    ) -> Result<(), AllocError>
        ensures { OnOk result (self.new ≡
            record self.old { regions = declared (record { name = string_bytes name; entry = entry.Literal base position }) self.old.regions }) }
    {
        self.regions.add(name, Entry::Literal(base, position))?;
        Ok(())
    }

    /// Adds an object to the entity that is open, if it is a formal.
    pub(crate) fn add_formal(
        &mut self,
        class: Class,
        name: &String,
        object: Object,
    ) -> Result<(), AllocError>
        ensures { OnOk result (self.new ≡
            record self.old { interface = declaring.with_formal class (string_bytes name.now) object self.old.interface }) }
    {
        self.interface.add(class, name, object)?;
        Ok(())
    }

    // ---- entities and architectures

    /// An entity begins.
    #[tactic(auto, unfolding(crate::specs::After::entity_begun))]
    pub(crate) fn begin_entity(&mut self, alloc: Global) -> Result<(), AllocError>
        ensures { OnOk result (self.new ≡ after.entity_begun self.old) }
    {
        self.regions.open(alloc, Region::new(alloc))?;
        self.interface = Interface::new(alloc);
        Ok(())
    }

    /// An entity of this name ends.
    #[tactic(auto, unfolding(crate::specs::After::entity_ended, crate::specs::After::in_library))]
    pub(crate) fn end_entity(&mut self, alloc: Global, name: String) -> Result<(), AllocError>
        ensures { OnOk result (self.new ≡ after.entity_ended (string_bytes name) self.old) }
    {
        let number = self.interfaces.len();
        let region = own_part(self.regions.close(alloc));
        self.bases.push(region)?;
        let interface = mem::replace(&mut self.interface, Interface::new(alloc));
        self.interfaces.push(interface)?;
        self.library.add(name, Entry::Label(number))?;
        Ok(())
    }

    /// An architecture begins: its region goes on that of its entity.
    #[tactic(auto, unfolding(crate::specs::After::architecture_of, crate::specs::After::in_library))]
    pub(crate) fn begin_architecture(
        &mut self,
        alloc: Global,
        entity: Option<usize>,
        entity_name: &str,
        name: String,
        is_bare: bool,
    ) -> Result<(), AllocError>
        ensures { OnOk result (self.new ≡ after.architecture_of entity entity_name.now (string_bytes name) is_bare self.old) }
    {
        let key = architecture_key(alloc, entity_name, name.as_str())?;
        let base = lend(alloc, &mut self.bases, entity);
        self.regions.open(alloc, base)?;
        self.library.add(key, Entry::Label(0))?;
        self.entity = entity;
        self.architecture = name;
        self.is_allowed = is_bare;
        Ok(())
    }

    /// An architecture ends, and its entity has its region again.
    #[tactic(auto, unfolding(crate::specs::After::architecture_ended))]
    pub(crate) fn end_architecture(&mut self, alloc: Global)
        ensures { self.new ≡ after.architecture_ended self.old }
    {
        let region = self.regions.close(alloc);
        give_back(&mut self.bases, self.entity, region.base);
        self.entity = None;
    }

    /// An attribute stands here: none may follow.
    pub(crate) fn disallow(&mut self)
        ensures { self.new ≡ record self.old { is_allowed = false } }
    {
        self.is_allowed = false;
    }

    // ---- processes, loops and case statements

    /// A process begins, with or without a sensitivity list.
    pub(crate) fn begin_process(&mut self, alloc: Global, is_listed: bool) -> Result<(), AllocError>
        ensures { OnOk result (self.new ≡ record self.old { regions = opened [] self.old.regions; is_listed = is_listed }) }
    {
        self.regions.open(alloc, Region::new(alloc))?;
        self.is_listed = is_listed;
        Ok(())
    }

    /// A process ends.
    pub(crate) fn end_process(&mut self, alloc: Global)
        ensures { self.new ≡ record self.old { regions = closed self.old.regions } }
    {
        self.regions.close(alloc);
    }

    /// A `for` loop begins: its parameter stands in a region of its own.
    #[tactic(auto, unfolding(crate::specs::After::with_parameter))]
    pub(crate) fn add_parameter(&mut self, name: String, entry: Entry) -> Result<(), AllocError>
        ensures { OnOk result (self.new ≡ after.with_parameter (string_bytes name) entry self.old) }
    {
        self.declarations.push(entry)?;
        self.regions.open_loop(name, entry)?;
        Ok(())
    }

    /// A `for` loop ends.
    pub(crate) fn drop_parameter(&mut self)
        ensures { self.new ≡ record self.old { regions = loop_closed self.old.regions } }
    {
        self.regions.close_loop();
    }

    /// A loop begins.
    #[tactic(auto, unfolding(crate::specs::After::in_loop))]
    pub(crate) fn begin_loop(&mut self, label: Label) -> Result<(), AllocError>
        ensures { OnOk result (self.new ≡ after.in_loop label self.old) }
    {
        self.loops.push(label)?;
        Ok(())
    }

    /// A loop ends.
    pub(crate) fn end_loop(&mut self)
        ensures { self.new ≡ record self.old { loops = drop 1 self.old.loops } }
    {
        self.loops.pop();
    }

    /// A case statement begins, which chooses by values of this type, if it is known.
    pub(crate) fn begin_case(&mut self, subject: Option<BaseType>) -> Result<(), AllocError>
        ensures { OnOk result (self.new ≡ record self.old { subjects = subject ∷ self.old.subjects }) }
    {
        self.subjects.push(subject)?;
        Ok(())
    }

    /// A case statement ends.
    pub(crate) fn end_case(&mut self)
        ensures { self.new ≡ record self.old { subjects = drop 1 self.old.subjects } }
    {
        self.subjects.pop();
    }
}
