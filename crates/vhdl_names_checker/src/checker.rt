//! The way along a design file, event by event, and the static rules that are broken on it.

ghost use Rattle.std.specs.Prelude.{◌≡◌, ◌++◌, IfOk, List, OnOk};
ghost use Rattle.vhdl_units.specs.declared.fault.Fault.{Fault};
ghost use Rattle.std.specs.Option.{option_copied};
ghost use Rattle.vhdl_names_checker.specs.Events.{Event};
ghost use Rattle.vhdl_names_checker.specs.Progress.{setting_out, step};

use crate::declaring::{
    declare_enumeration, declare_label, declare_objects, declare_subtype, twice, type_or,
};
use crate::entities::{architecture_faults, begin_architecture, end_entity, entity_faults};
use crate::instances::instance_faults;
use crate::statements::{begin_loop, is_in_loop, jump_place, leave_loop};
use crate::surroundings::Surroundings;
use crate::telling::{
    choices_here, conditions, expression, name_here, names_here, objects_here, optional, reject,
    subtype_here, wait_here, waveforms,
};
use sqlite_items::Items;
use std::alloc::{AllocError, Global};
use std::marker::Model;
use vhdl_names_rules::{
    arm_faults, attribute_faults, end_faults, jump_faults, library_faults, objects_faults,
    sensitivity_faults, severity_faults, signal_assignment_faults, subject_faults, subject_type,
    subtype_faults, tested, use_faults, variable_assignment_faults, wait_faults,
};
use vhdl_names_scope::Region;
use vhdl_names_typing::append;
use vhdl_tokens::Token;
use vhdl_tree::{
    Alternative, Assertion, AttributeSpecification, Choice, Delay, Element, Expr, Instantiation,
    Jump, Name, Report, Scheme, Subtype, SubtypeDeclaration, TypeDeclaration, Use, Wait,
};
use vhdl_units::{Class, Fault};

/// The way along a design file. Its methods are the events of the file, and are called in the order of its
/// text. Where memory runs out in one of them the checker is of no more use.
#[derive(Drop)]
pub struct Checker<'a> {
    alloc: Global,
    text: &'a [u8],
    // The architectures of the whole file, by `entity.architecture`.
    file: &'a Region,
    around: Surroundings,
    broken: Items<Fault>,
}

impl<'a> Model for Checker<'a> {
    ghost use Rattle.vhdl_names_checker.specs.Progress.{Progress};

    ghost Value = { Progress };

    ghost view = { λ c. record {
      text = c.text.now;
      file = c.file.now;
      around = c.around;
      broken = c.broken;
    } };
}

impl<'a> Checker<'a> {
    /// Sets out at the beginning of a text, with the architectures of the whole file by
    /// `entity.architecture`.
    #[tactic(auto, unfolding(crate::specs::Progress::setting_out))]
    pub fn new(alloc: Global, text: &'a [u8], file: &'a Region) -> Result<Checker<'a>, AllocError>
        ensures { IfOk result (λ c. c ≡ setting_out text.now file.now) }
    {
        let around = Surroundings::new(alloc)?;
        Ok(Checker {
            alloc,
            text,
            file,
            around,
            broken: Items::new(alloc),
        })
    }

    /// The allocator.
    pub fn alloc(&self) -> Global {
        self.alloc
    }

    /// The text of the design file.
    pub fn text(&self) -> &'a [u8]
        ensures { result.now ≡ self.now.text }
    {
        self.text
    }

    /// What stands around the place behind the events so far.
    pub fn around(&self) -> &Surroundings
        ensures { result.now ≡ self.now.around }
    {
        &self.around
    }

    /// The broken rules so far, in the order of the events.
    pub fn broken(&self) -> &[Fault]
        ensures { result.now ≡ self.now.broken }
    {
        self.broken.as_slice()
    }

    // Adds the broken rules that were found, as the last step of an event.
    fn note(&mut self, faults: Result<Items<Fault>, AllocError>) -> Result<(), AllocError>
        ensures { (found : List Fault) → IfOk faults (λ v. v ≡ found)
            → OnOk result (self.new ≡ record self.old { broken = self.old.broken ++ found }) }
    {
        self.broken.append(faults?)?;
        Ok(())
    }

    // ---- context clauses

    /// A library clause (13.2).
    #[tactic(auto, unfolding(crate::specs::Progress::step, crate::specs::After::after, crate::specs::Faults::faults))]
    pub fn library(&mut self, tokens: &[Token]) -> Result<(), AllocError>
        ensures { OnOk result (self.new ≡ step (Event.Library tokens.now) self.old) }
    {
        let faults = library_faults(self.alloc, self.text, tokens);
        self.note(faults)
    }

    /// A use clause (12.4).
    #[tactic(auto, unfolding(crate::specs::Progress::step, crate::specs::After::after, crate::specs::Faults::faults))]
    pub fn uses(&mut self, clause: &Use) -> Result<(), AllocError>
        ensures { OnOk result (self.new ≡ step (Event.Uses clause.now) self.old) }
    {
        let faults = use_faults(self.alloc, self.text, clause);
        self.note(faults)
    }

    // ---- units

    /// An entity begins (3.2).
    #[tactic(auto, unfolding(crate::specs::Progress::step, crate::specs::After::after, crate::specs::Faults::faults))]
    pub fn entity(&mut self, name: &Token) -> Result<(), AllocError>
        ensures { OnOk result (self.new ≡ step (Event.Entity name.now) self.old) }
    {
        let faults = entity_faults(self.alloc, self.text, name, &self.around);
        self.note(faults)?;
        self.around.begin_entity(self.alloc)?;
        Ok(())
    }

    /// The entity ends, with a name at its end or without.
    #[tactic(auto, unfolding(crate::specs::Progress::step, crate::specs::After::after, crate::specs::Faults::faults))]
    pub fn end_entity(&mut self, name: &Token, end_name: &Option<Token>) -> Result<(), AllocError>
        ensures { OnOk result (self.new ≡ step (Event.EndEntity name.now end_name.now) self.old) }
    {
        let faults = end_faults(self.alloc, self.text, Some(*name), *end_name);
        self.note(faults)?;
        end_entity(&mut self.around, self.alloc, self.text, name)?;
        Ok(())
    }

    /// An architecture of an entity begins, and whether nothing but attributes stands in it (3.3).
    #[tactic(auto, unfolding(crate::specs::Progress::step, crate::specs::After::after, crate::specs::Faults::faults))]
    pub fn architecture(
        &mut self,
        name: &Token,
        entity: &Token,
        is_bare: bool,
    ) -> Result<(), AllocError>
        ensures { OnOk result (self.new ≡ step (Event.Architecture name.now entity.now is_bare) self.old) }
    {
        let faults = architecture_faults(self.alloc, self.text, name, entity, &self.around);
        self.note(faults)?;
        begin_architecture(
            &mut self.around,
            self.alloc,
            self.text,
            name,
            entity,
            is_bare,
        )?;
        Ok(())
    }

    /// The architecture ends, with a name at its end or without.
    #[tactic(auto, unfolding(crate::specs::Progress::step, crate::specs::After::after, crate::specs::Faults::faults))]
    pub fn end_architecture(
        &mut self,
        name: &Token,
        end_name: &Option<Token>,
    ) -> Result<(), AllocError>
        ensures { OnOk result (self.new ≡ step (Event.EndArchitecture name.now end_name.now) self.old) }
    {
        let faults = end_faults(self.alloc, self.text, Some(*name), *end_name);
        self.note(faults)?;
        self.around.end_architecture(self.alloc);
        Ok(())
    }

    // ---- declarations

    /// The declaration of an enumeration type (5.2.2).
    #[tactic(auto, unfolding(crate::specs::Progress::step, crate::specs::After::after, crate::specs::Faults::faults))]
    pub fn enumeration(&mut self, declaration: &TypeDeclaration) -> Result<(), AllocError>
        ensures { OnOk result (self.new ≡ step (Event.Enumeration declaration.now) self.old) }
    {
        let faults = twice(self.alloc, self.text, &self.around, &declaration.name);
        self.note(faults)?;
        declare_enumeration(&mut self.around, self.alloc, self.text, declaration)?;
        Ok(())
    }

    /// The declaration of a subtype (6.3).
    #[tactic(auto, unfolding(crate::specs::Progress::step, crate::specs::After::after, crate::specs::Faults::faults))]
    pub fn subtyped(&mut self, declaration: &SubtypeDeclaration) -> Result<(), AllocError>
        ensures { OnOk result (self.new ≡ step (Event.Subtyped declaration.now) self.old) }
    {
        let told = subtype_here(self.alloc, self.text, &self.around, &declaration.subtype)?;
        let mark = told.mark;
        let faults = subtype_faults(self.alloc, told)?;
        let more = twice(self.alloc, self.text, &self.around, &declaration.name)?;
        let faults = append(faults, more);
        self.note(faults)?;
        declare_subtype(
            &mut self.around,
            self.alloc,
            self.text,
            &declaration.name,
            mark,
        )?;
        Ok(())
    }

    /// A declaration of objects of one class, with their value at the beginning or without (6.4.2, 6.5).
    #[tactic(auto, unfolding(crate::specs::Progress::step, crate::specs::After::after, crate::specs::Faults::faults, crate::specs::Telling::objects_here))]
    pub fn objects(
        &mut self,
        class: Class,
        names: &[Token],
        subtype: &Subtype,
        initial: Option<&Expr>,
    ) -> Result<(), AllocError>
        ensures { OnOk result (self.new ≡ step (Event.Objects class names.now subtype.now (option_copied initial.entry)) self.old) }
    {
        let told = objects_here(self.alloc, self.text, &self.around, subtype, initial)?;
        let base = type_or(told.subtype.mark);
        let faults = objects_faults(self.alloc, told, names)?;
        let more = declare_objects(&mut self.around, self.alloc, self.text, class, base, names)?;
        let faults = append(faults, more);
        self.note(faults)
    }

    /// An attribute specification (7.2).
    #[tactic(auto, unfolding(crate::specs::Progress::step, crate::specs::After::after, crate::specs::Faults::faults))]
    pub fn attributed(&mut self, specification: &AttributeSpecification) -> Result<(), AllocError>
        ensures { OnOk result (self.new ≡ step (Event.Attributed specification.now) self.old) }
    {
        let told = expression(self.alloc, self.text, &self.around, &specification.value)?;
        let faults = attribute_faults(
            self.alloc,
            self.text,
            self.around.architecture().as_bytes(),
            self.around.is_allowed(),
            specification,
            told,
        );
        self.note(faults)?;
        self.around.disallow();
        Ok(())
    }

    /// The label of a statement (11.1, 12.3).
    #[tactic(auto, unfolding(crate::specs::Progress::step, crate::specs::After::after, crate::specs::Faults::faults))]
    pub fn labelled(&mut self, label: &Token) -> Result<(), AllocError>
        ensures { OnOk result (self.new ≡ step (Event.Labelled label.now) self.old) }
    {
        let faults = twice(self.alloc, self.text, &self.around, label);
        self.note(faults)?;
        declare_label(&mut self.around, self.alloc, self.text, label)?;
        Ok(())
    }

    // ---- processes

    /// The sensitivity list of a process (11.3).
    #[tactic(auto, unfolding(crate::specs::Progress::step, crate::specs::After::after, crate::specs::Faults::faults))]
    pub fn sensitive(&mut self, names: &[Name]) -> Result<(), AllocError>
        ensures { OnOk result (self.new ≡ step (Event.Sensitive names.now) self.old) }
    {
        let told = names_here(self.alloc, self.text, &self.around, names)?;
        let faults = sensitivity_faults(self.alloc, told);
        self.note(faults)
    }

    /// A process begins, with or without a sensitivity list (11.3).
    #[tactic(auto, unfolding(crate::specs::Progress::step, crate::specs::After::after, crate::specs::Faults::faults))]
    pub fn process(&mut self, is_listed: bool) -> Result<(), AllocError>
        ensures { OnOk result (self.new ≡ step (Event.Process is_listed) self.old) }
    {
        self.around.begin_process(self.alloc, is_listed)?;
        Ok(())
    }

    /// The process ends, with a name at its end or without.
    #[tactic(auto, unfolding(crate::specs::Progress::step, crate::specs::After::after, crate::specs::Faults::faults))]
    pub fn end_process(
        &mut self,
        label: &Option<Token>,
        end_name: &Option<Token>,
    ) -> Result<(), AllocError>
        ensures { OnOk result (self.new ≡ step (Event.EndProcess label.now end_name.now) self.old) }
    {
        let faults = end_faults(self.alloc, self.text, *label, *end_name);
        self.note(faults)?;
        self.around.end_process(self.alloc);
        Ok(())
    }

    // ---- statements

    /// A signal assignment, sequential or concurrent (10.5, 11.6). A sequential one has no alternatives and no condition.
    #[tactic(auto, unfolding(crate::specs::Progress::step, crate::specs::After::after, crate::specs::Faults::faults))]
    pub fn assigned(
        &mut self,
        target: &Name,
        delay: &Delay,
        waveform: &[Element],
        alternatives: &[Alternative],
        condition: Option<&Expr>,
    ) -> Result<(), AllocError>
        ensures { OnOk result (self.new ≡ step (Event.Assigned target.now delay.now waveform.now alternatives.now (option_copied condition.entry)) self.old) }
    {
        let elements = waveforms(self.alloc, self.text, &self.around, waveform, alternatives)?;
        let conditions = conditions(self.alloc, self.text, &self.around, alternatives, condition)?;
        let target = name_here(self.alloc, self.text, &self.around, target)?;
        let limit = reject(self.alloc, self.text, &self.around, delay)?;
        let faults = signal_assignment_faults(self.alloc, target, limit, elements, conditions);
        self.note(faults)
    }

    /// A variable assignment (10.6).
    #[tactic(auto, unfolding(crate::specs::Progress::step, crate::specs::After::after, crate::specs::Faults::faults))]
    pub fn assigned_variable(&mut self, target: &Name, value: &Expr) -> Result<(), AllocError>
        ensures { OnOk result (self.new ≡ step (Event.AssignedVariable target.now value.now) self.old) }
    {
        let target = name_here(self.alloc, self.text, &self.around, target)?;
        let value = expression(self.alloc, self.text, &self.around, value)?;
        let faults = variable_assignment_faults(self.alloc, target, value);
        self.note(faults)
    }

    /// A wait statement (10.2).
    #[tactic(auto, unfolding(crate::specs::Progress::step, crate::specs::After::after, crate::specs::Faults::faults))]
    pub fn waits(&mut self, wait: &Wait) -> Result<(), AllocError>
        ensures { OnOk result (self.new ≡ step (Event.Waits wait.now) self.old) }
    {
        let told = wait_here(self.alloc, self.text, &self.around, wait)?;
        let faults = wait_faults(self.alloc, self.around.is_listed(), told);
        self.note(faults)
    }

    /// An assertion (10.3).
    #[tactic(auto, unfolding(crate::specs::Progress::step, crate::specs::After::after, crate::specs::Faults::faults))]
    pub fn asserted(&mut self, assertion: &Assertion) -> Result<(), AllocError>
        ensures { OnOk result (self.new ≡ step (Event.Asserted assertion.now) self.old) }
    {
        let told = expression(self.alloc, self.text, &self.around, &assertion.condition)?;
        let faults = tested(self.alloc, told)?;
        let more = severity_faults(self.alloc, self.text, assertion.severity)?;
        let faults = append(faults, more);
        self.note(faults)
    }

    /// A report (10.4).
    #[tactic(auto, unfolding(crate::specs::Progress::step, crate::specs::After::after, crate::specs::Faults::faults))]
    pub fn reported(&mut self, report: &Report) -> Result<(), AllocError>
        ensures { OnOk result (self.new ≡ step (Event.Reported report.now) self.old) }
    {
        let faults = severity_faults(self.alloc, self.text, report.severity);
        self.note(faults)
    }

    /// A condition of an if statement (10.8).
    #[tactic(auto, unfolding(crate::specs::Progress::step, crate::specs::After::after, crate::specs::Faults::faults))]
    pub fn tested(&mut self, condition: &Expr) -> Result<(), AllocError>
        ensures { OnOk result (self.new ≡ step (Event.Tested condition.now) self.old) }
    {
        let told = expression(self.alloc, self.text, &self.around, condition)?;
        let faults = tested(self.alloc, told);
        self.note(faults)
    }

    /// An if statement ends, with a name at its end or without.
    #[tactic(auto, unfolding(crate::specs::Progress::step, crate::specs::After::after, crate::specs::Faults::faults))]
    pub fn end_if(
        &mut self,
        label: &Option<Token>,
        end_name: &Option<Token>,
    ) -> Result<(), AllocError>
        ensures { OnOk result (self.new ≡ step (Event.EndIf label.now end_name.now) self.old) }
    {
        let faults = end_faults(self.alloc, self.text, *label, *end_name);
        self.note(faults)
    }

    /// A case statement begins with what it chooses by (10.9).
    #[tactic(auto, unfolding(crate::specs::Progress::step, crate::specs::After::after, crate::specs::Faults::faults))]
    pub fn chosen(&mut self, subject: &Expr) -> Result<(), AllocError>
        ensures { OnOk result (self.new ≡ step (Event.Chosen subject.now) self.old) }
    {
        let told = expression(self.alloc, self.text, &self.around, subject)?;
        let base = subject_type(&told);
        let faults = subject_faults(self.alloc, told);
        self.note(faults)?;
        self.around.begin_case(base)?;
        Ok(())
    }

    /// The choices of an arm of the case statement, and whether it is the last arm (10.9).
    #[tactic(auto, unfolding(crate::specs::Progress::step, crate::specs::After::after, crate::specs::Faults::faults))]
    pub fn arm(&mut self, is_last: bool, choices: &[Choice]) -> Result<(), AllocError>
        ensures { OnOk result (self.new ≡ step (Event.Arm is_last choices.now) self.old) }
    {
        let told = choices_here(self.alloc, self.text, &self.around, choices)?;
        let faults = arm_faults(self.alloc, self.around.subject(), is_last, told);
        self.note(faults)
    }

    /// The case statement ends, with a name at its end or without.
    #[tactic(auto, unfolding(crate::specs::Progress::step, crate::specs::After::after, crate::specs::Faults::faults))]
    pub fn end_case(
        &mut self,
        label: &Option<Token>,
        end_name: &Option<Token>,
    ) -> Result<(), AllocError>
        ensures { OnOk result (self.new ≡ step (Event.EndCase label.now end_name.now) self.old) }
    {
        let faults = end_faults(self.alloc, self.text, *label, *end_name);
        self.note(faults)?;
        self.around.end_case();
        Ok(())
    }

    /// A loop begins (10.10).
    #[tactic(auto, unfolding(crate::specs::Progress::step, crate::specs::After::after, crate::specs::Faults::faults))]
    pub fn looped(&mut self, label: &Option<Token>, scheme: &Scheme) -> Result<(), AllocError>
        ensures { OnOk result (self.new ≡ step (Event.Looped label.now scheme.now) self.old) }
    {
        let faults = begin_loop(&mut self.around, self.alloc, self.text, label, scheme)?;
        self.note(Ok(faults))
    }

    /// The loop ends, with a name at its end or without.
    #[tactic(auto, unfolding(crate::specs::Progress::step, crate::specs::After::after, crate::specs::Faults::faults))]
    pub fn end_loop(
        &mut self,
        scheme: &Scheme,
        label: &Option<Token>,
        end_name: &Option<Token>,
    ) -> Result<(), AllocError>
        ensures { OnOk result (self.new ≡ step (Event.EndLoop scheme.now label.now end_name.now) self.old) }
    {
        let faults = end_faults(self.alloc, self.text, *label, *end_name);
        self.note(faults)?;
        leave_loop(&mut self.around, scheme);
        Ok(())
    }

    /// A next or exit statement (10.11, 10.12).
    #[tactic(auto, unfolding(crate::specs::Progress::step, crate::specs::After::after, crate::specs::Faults::faults))]
    pub fn jumped(&mut self, jump: &Jump) -> Result<(), AllocError>
        ensures { OnOk result (self.new ≡ step (Event.Jumped jump.now) self.old) }
    {
        let is_inside = is_in_loop(self.alloc, self.text, &jump.label, &self.around)?;
        let condition = optional(self.alloc, self.text, &self.around, jump.condition.as_ref())?;
        let faults = jump_faults(self.alloc, is_inside, jump_place(jump), condition);
        self.note(faults)
    }

    /// An instance of an entity (11.7).
    #[tactic(auto, unfolding(crate::specs::Progress::step, crate::specs::After::after, crate::specs::Faults::faults))]
    pub fn instance(&mut self, instance: &Instantiation) -> Result<(), AllocError>
        ensures { OnOk result (self.new ≡ step (Event.Instance instance.now) self.old) }
    {
        let faults = instance_faults(self.alloc, self.text, self.file, &self.around, instance);
        self.note(faults)
    }
}
