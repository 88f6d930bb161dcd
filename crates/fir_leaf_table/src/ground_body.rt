//! The nodes of a module and its statements over leaves.

ghost use Rattle.std.specs.Prelude.{◌≡◌, ◌<◌, IfOk, length};
ghost use Rattle.fir_ast.specs.Circuits.{CircuitTree};
ghost use Rattle.fir_ast.specs.working.Views.{module_of};
ghost use Rattle.fir_meaning.specs.ModuleScenes.{Scene};
ghost use Rattle.fir_leaf_table.specs.working.Frames.{Frames};
ghost use Rattle.fir_leaf_table.specs.working.ModuleWalks.{IsGroundOf, IsWithinLimit};

use crate::frame::Frame;
use crate::sinks::driven_leaves;
use fir_ast::Module;
use fir_base::MemoryOut;
use fir_ground::{Driver, Ground, first_leaves, in_block};
use fir_leaf::{LeafStmt, Node};
use fir_meaning::faultless_is_well_typed;
use std::alloc::Global;

/// What the walk over the expressions and statements of a module has made.
#[derive(Drop)]
pub struct GroundBody {
    pub nodes: Vec<Node>,
    /// What gives the leaves of each declaration behind the ports their values.
    pub drivers: Vec<Driver>,
    pub body: Vec<LeafStmt>,
}

/// The nodes and statements of a module that is within the limit of costs.
pub fn ground_body(alloc: Global, frame: &Frame, part: &Module) -> Result<GroundBody, MemoryOut>
    requires { frame.now.number < length frame.now.findings.now.notes.items }
    ensures { IfOk result (λ made. (c : CircuitTree) (s : Scene) → Frames frame.now c s → module_of part.now ≡ s.own.inside → IsWithinLimit c.modules s.own.inside → IsGroundOf s made) }
{
    faultless_is_well_typed();
    let table = &frame.findings.table;
    let firsts = first_leaves(alloc, table, frame.declared)?;
    let driven = driven_leaves(alloc, frame)?;
    let ground = Ground {
        table,
        firsts: firsts.as_slice(),
    };
    let around = fir_ground::Frame {
        ground,
        names: frame.names,
        sinks: driven.as_slice(),
    };
    let mut walk = fir_ground::Walk {
        notes: frame.findings.notes[frame.number].as_slice(),
        nodes: Vec::new(alloc),
        drivers: Vec::new(alloc),
    };
    let mut declared = part.ports.len();
    let mut body = Vec::new(alloc);
    in_block(
        part.body.as_slice(),
        alloc,
        &around,
        &mut walk,
        &mut declared,
        &mut body,
    )?;
    Ok(GroundBody {
        nodes: walk.nodes,
        drivers: walk.drivers,
        body,
    })
}
