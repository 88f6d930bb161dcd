//! Arrays whose writes read what stands for what they read.

ghost use Rattle.std.specs.Prelude.{◌≡◌, map};
ghost use Rattle.fir_fold.specs.working.Standing.{stands_for, write_read, written_array};

use crate::stands::Stands;
use fir_base::Seq;
use fir_net::{Array, ArrayWrite};
use std::alloc::Global;
use std::mem;

/// Arrays whose writes read what stands for what they read.
pub fn arrays_anew(alloc: Global, arrays: Seq<Array>, stands: &Stands) -> Seq<Array>
    ensures { result ≡ map (written_array (stands_for stands.now)) arrays }
{
    let mut arrays = arrays.into_vec();
    read_arrays_anew(alloc, &mut arrays, stands);
    Seq::from_vec(arrays)
}

fn read_arrays_anew(alloc: Global, arrays: &mut [Array], stands: &Stands)
    ensures { arrays.new ≡ map (written_array (stands_for stands.now)) arrays.old }
{
    for array in arrays.iter_mut() {
        read_array_anew(alloc, array, stands);
    }
}

fn read_array_anew(alloc: Global, array: &mut Array, stands: &Stands)
    ensures { array.new ≡ written_array (stands_for stands.now) array.old }
{
    let writes = mem::replace(&mut array.writes, Seq::from_vec(Vec::new(alloc)));
    let mut writes = writes.into_vec();
    read_writes_anew(&mut writes, stands);
    array.writes = Seq::from_vec(writes);
}

fn read_writes_anew(writes: &mut [ArrayWrite], stands: &Stands)
    ensures { writes.new ≡ map (write_read (stands_for stands.now)) writes.old }
{
    for write in writes.iter_mut() {
        read_write_anew(write, stands);
    }
}

fn read_write_anew(write: &mut ArrayWrite, stands: &Stands)
    ensures { write.new ≡ write_read (stands_for stands.now) write.old }
{
    write.condition = stands.read(write.condition);
    write.address = stands.read(write.address);
    write.given = stands.read(write.given);
}
