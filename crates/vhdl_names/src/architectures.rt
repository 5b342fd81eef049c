//! The architectures of a design file, which instances may name before they stand.

ghost use Rattle.std.specs.Prelude.{◌≡◌, ◌++◌, IfOk, OnOk};
ghost use Rattle.std.specs.List.{flat_map};
ghost use Rattle.vhdl_names.specs.Units.{architecture_named, architectures};

use std::alloc::{AllocError, Global};
use vhdl_names_checker::architecture_key;
use vhdl_names_scope::{Region, word};
use vhdl_tree::{DesignFile, DesignUnit, LibraryUnit};
use vhdl_units::Entry;

#[tactic(auto, unfolding(crate::specs::Units::architecture_named))]
fn add_architecture(
    alloc: Global,
    text: &[u8],
    unit: &LibraryUnit,
    region: &mut Region,
) -> Result<(), AllocError>
    ensures { OnOk result (region.new ≡ region.old ++ architecture_named text.now unit.now) }
{
    match unit {
        LibraryUnit::Entity(_) => Ok(()),
        LibraryUnit::Architecture(architecture) => {
            let entity = word(alloc, text, &architecture.entity)?;
            let name = word(alloc, text, &architecture.name)?;
            let key = architecture_key(alloc, entity.as_str(), name.as_str())?;
            region.add(key, Entry::Label(0))
        }
    }
}

fn add_architectures(
    alloc: Global,
    text: &[u8],
    units: &[DesignUnit],
    region: &mut Region,
) -> Result<(), AllocError>
    ensures { OnOk result (region.new ≡ region.old ++ flat_map (λ u. architecture_named text.now u.unit) units.now) }
{
    for unit in units {
        add_architecture(alloc, text, &unit.unit, region)?;
    }
    Ok(())
}

/// The architectures of a design file, each declared as `entity.architecture`.
#[tactic(auto, unfolding(crate::specs::Units::architectures))]
pub(crate) fn architectures(
    alloc: Global,
    text: &[u8],
    file: &DesignFile,
) -> Result<Region, AllocError>
    ensures { IfOk result (λ region. region ≡ architectures text.now file.now) }
{
    let mut region = Region::new(alloc);
    add_architectures(alloc, text, file.units.as_slice(), &mut region)?;
    Ok(region)
}
