//! Laws of the nine values, over their whole tables. Each is a call with an empty body, which a
//! proof cites for what it ensures.

ghost use Rattle.sim_logic.specs.Logic.{resolution, and_table, or_table, xor_table, OperatorsIgnoreStrength, IsCommutative, IsAssociative, IgnoresOrder, UninitializedAbsorbs, DeMorgan, SingleSourceIsKept};

/// Resolution doesn't depend on which source comes first, nor on how sources are grouped.
pub fn resolution_is_a_join()
    ensures commutative { IsCommutative resolution }
    ensures associative { IsAssociative resolution }
{}

/// The value of a signal doesn't depend on the order of its sources.
pub fn resolution_ignores_order()
    ensures { IgnoresOrder }
{}

/// A source `'U'` absorbs all others, and a source `'X'` all that are left.
pub fn uninitialized_absorbs()
    ensures { UninitializedAbsorbs }
{}

/// A single source through the table wouldn't stay as it is: `'-'` would become `'X'`.
pub fn single_source_is_kept()
    ensures { SingleSourceIsKept }
{}

/// `not (a and b)` is `not a or not b`, and `not (a or b)` is `not a and not b`.
pub fn de_morgan()
    ensures { DeMorgan }
{}

/// "and", "or" and "xor" don't depend on the order and the grouping of their operands.
pub fn operators_are_joins()
    ensures and_commutes { IsCommutative and_table }
    ensures and_associates { IsAssociative and_table }
    ensures or_commutes { IsCommutative or_table }
    ensures or_associates { IsAssociative or_table }
    ensures xor_commutes { IsCommutative xor_table }
    ensures xor_associates { IsAssociative xor_table }
{}

/// The operators look at values without their strength: `'L'` as `'0'`, `'H'` as `'1'`, and `'Z'`,
/// `'W'` and `'-'` as `'X'`.
pub fn operators_ignore_strength()
    ensures { OperatorsIgnoreStrength }
{}
