//! Laws of what expressions, declarations, statements and whole design files mean. Each is a call with an empty body,
//! which a proof cites for what it ensures.

ghost use Rattle.vhdl_names_laws.specs.Flags.{FlagsAreTested};
ghost use Rattle.vhdl_names_laws.specs.ValueLaws.{EverythingHasMeanings, TargetsAreKnown, TargetsHaveTypes};
ghost use Rattle.vhdl_names_laws.specs.PartLaws.{TypesAreKnown, SubtypesAreKnown, ObjectsAreKnown, AttributesAreKnown, WaitsAreKnown, AssertionsAreKnown, AssignmentsAreKnown, VariablesAreKnown, ConditionsAreKnown, SubjectsAreKnown, SubjectsHaveTypes, ChoicesAreKnown, LoopsAreKnown, JumpsAreKnown, SensitivitiesAreKnown, ConcurrentAssignmentsAreKnown, InstancesAreKnown, EntitiesAreKnown};
ghost use Rattle.std.specs.Prelude.{◌≡◌, ℕ, List, None, true};
ghost use Rattle.vhdl_names_laws.specs.KnownUnits.{known_units};
ghost use Rattle.vhdl_names.specs.Static.{Static};
ghost use Rattle.vhdl_names.specs.Units.{units_of};
ghost use Rattle.vhdl_tree.specs.declared.units.DesignFile.{DesignFile};

/// Where no static rule is broken in it, an expression can have the types that the rules give it and means something at
/// each of them, which is of that type, as all that stands in it is of the type that its place asks (`Typed`; an operand in
/// a row of operators that isn't a relation has some type). Where it is handed on whether it is globally static, that is what the rules tested. The name of an object, of an element of it
/// or of a slice means just that, with indexes and bounds that mean something; so do the bounds of a choice and of a
/// range, and a range that is named is that of an array. What such a name means as a target, or where a signal is named,
/// is known, and of the type that the rules gave it. Each index and slice in it has a flag that says whether it is
/// globally static, and that is what the rules tested of it.
pub fn expressions_have_meanings()
    ensures meanings { EverythingHasMeanings }
    ensures targets { TargetsAreKnown }
    ensures target_types { TargetsHaveTypes }
    ensures flags { FlagsAreTested }
{}

/// A declaration at which no rule is broken has a meaning in each of its parts.
pub fn declarations_have_meanings()
    ensures types { TypesAreKnown }
    ensures subtypes { SubtypesAreKnown }
    ensures objects { ObjectsAreKnown }
    ensures attributes { AttributesAreKnown }
{}

/// So has a simple sequential statement, and the head of another.
pub fn statements_have_meanings()
    ensures waits { WaitsAreKnown }
    ensures assertions { AssertionsAreKnown }
    ensures assignments { AssignmentsAreKnown }
    ensures variables { VariablesAreKnown }
    ensures conditions { ConditionsAreKnown }
    ensures subjects { SubjectsAreKnown }
    ensures types { SubjectsHaveTypes }
    ensures choices { ChoicesAreKnown }
    ensures loops { LoopsAreKnown }
    ensures jumps { JumpsAreKnown }
{}

/// So have the heads of processes and architectures, concurrent assignments and instances.
pub fn concurrent_statements_have_meanings()
    ensures sensitivities { SensitivitiesAreKnown }
    ensures assignments { ConcurrentAssignmentsAreKnown }
    ensures instances { InstancesAreKnown }
    ensures entities { EntitiesAreKnown }
{}

/// Where a design file breaks no static rule, all of it has a meaning: each expression, name, choice and range in its
/// units means something, each object and subtype has its type, each architecture and instance its entity, and each
/// association its formal (3 to 13).
pub fn nothing_is_unknown()
    ensures { (text : List ℕ) (tree : DesignFile) → Static text tree None → known_units (units_of text tree) ≡ true }
{}
