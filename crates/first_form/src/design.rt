ghost use Rattle.std.specs.Prelude.{IfOk, IsErrOf};
ghost use Rattle.sim_design.specs.declared.Design.{Design};
ghost use Rattle.sim_design.specs.Design.{IsSound, IsNumbered};
ghost use Rattle.first_form.specs.FirstForm.{IsForm, IsReading};

use crate::building::design_of;
use crate::fault::FormError;
use crate::reading::form_in;
use sim_design::Design;
use std::alloc::Global;
use vhdl_tree::DesignFile;

fn read(alloc: Global, text: &[u8], tree: &DesignFile) -> Result<Design, FormError>
    ensures read { IsReading result text.now tree.now }
    ensures numbered { IfOk result (λ d. IsNumbered d) }
{
    // No `?`: it would convert the fault to itself, of which the proof would need a lemma.
    let form = match form_in(alloc, text, tree) {
        Ok(form) => form,
        Err(fault) => return Err(fault),
    };
    design_of(alloc, &form)
}

/// Makes the design of a design file of the first form (IEEE Std 1076-2008, clause 14) out of the text
/// and its syntax tree: one instance, a net for each signal and a process for each assignment, in the
/// order of the text. Names are in lower case, and times are femtoseconds.
///
/// Every other tree is `NotBuilt`. Where the form or the design has no room, it is `NoMemory`.
pub fn design_of_form(alloc: Global, text: &[u8], tree: &DesignFile) -> Result<Design, FormError>
    // What is built is of the form. The tree stands for no other design: the law `one_design`.
    ensures found { IfOk result (λ d. IsForm text.now tree.now d) }
    // What is refused is not of the form.
    ensures none { IsErrOf result FormError.NotBuilt → (d : Design) → IsForm text.now tree.now d → ⊥ }
    ensures sound { IfOk result (λ d. IsSound d) }
    ensures numbered { IfOk result (λ d. IsNumbered d) }
{
    read(alloc, text, tree)
}
