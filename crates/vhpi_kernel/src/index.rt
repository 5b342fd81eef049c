// Which driver each net has.
ghost use Rattle.std.specs.Prelude.{◌≡◌, ◌<◌, ◌^◌, ℕ, length, List, Option, None, IfOk, slice_index_or, IsTrue};
ghost use Rattle.std.specs.List.{list_all};
ghost use Rattle.vhpi_kernel.specs.Index.{driver_of, noted_at, IsIndex};

use crate::NoMemory;
use sim_design::Process;
use std::alloc::Global;

// Makes the index of `nets` nets.
pub(crate) fn index_drivers(
    alloc: Global,
    nets: usize,
    processes: &[Process],
) -> Result<Vec<Option<u32>>, NoMemory>
    requires { length processes.now < 2 ^ 32 }
    ensures { IfOk result (λ index. IsIndex index.items nets processes.now) }
{
    let mut index = vec![in alloc; None; nets]?;
    for number in 0..processes.len() {
        note_driver(&mut index, processes[number].target as usize, number as u32);
    }
    Ok(index)
}

// Notes the driver of a net that has none yet.
fn note_driver(index: &mut Vec<Option<u32>>, net: usize, number: u32)
    ensures len { length index.new.items ≡ length index.old.items }
    ensures noted { (e : ℕ) → e < length index.new.items → slice_index_or index.new.items e None ≡ noted_at net number e (slice_index_or index.old.items e None) }
{
    if net < index.len() {
        if index[net].is_none() {
            index[net] = Some(number);
        }
    }
}
