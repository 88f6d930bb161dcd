//! The leaves of a flat net.

ghost use Rattle.std.specs.Prelude.{◌≡◌, ◌++◌, IfOk, OnOk, length};
ghost use Rattle.fir_flatten.specs.working.FlatRoles.{added_behind, added_by, flat_leaf_of, flat_leaves_of, width_of};

use crate::design_net::DesignLeaf;
use crate::flat_role::flat_role;
use crate::kept_nodes::KeptNodes;
use fir_base::MemoryOut;
use fir_bits::NumTy;
use fir_leaf_circuit::LeafType;
use fir_net::Leaf;
use fir_whens::NetRole;
use std::alloc::Global;

/// The leaves of a design with these roles, of which so many are ports, over kept nodes.
pub fn flat_leaves(
    alloc: Global,
    port_leaves: usize,
    declared: Vec<DesignLeaf>,
    roles: &[NetRole],
    kept: &mut KeptNodes,
) -> Result<Vec<Leaf>, MemoryOut>
    ensures leaves { IfOk result (λ leaves. leaves.items ≡ flat_leaves_of kept.old.places.items port_leaves 0 declared.items roles.now (length kept.old.nodes.items)) }
    ensures nodes { OnOk result (kept.new.nodes.items ≡ kept.old.nodes.items ++ added_behind kept.old.places.items declared.items roles.now (length kept.old.nodes.items)) }
{
    let mut leaves = Vec::with_capacity(alloc, roles.len())?;
    for (leaf, role) in declared.into_iter().zip(roles) {
        let is_port = leaves.len() < port_leaves;
        leaves.push(flat_leaf(alloc, leaf, is_port, *role, kept)?)?;
    }
    Ok(leaves)
}

/// A leaf.
fn flat_leaf(
    alloc: Global,
    leaf: DesignLeaf,
    is_port: bool,
    role: NetRole,
    kept: &mut KeptNodes,
) -> Result<Leaf, MemoryOut>
    ensures leaf { IfOk result (λ l. l ≡ flat_leaf_of kept.old.places.items leaf is_port role (length kept.old.nodes.items)) }
    ensures nodes { OnOk result (kept.new.nodes.items ≡ kept.old.nodes.items ++ added_by kept.old.places.items role (length kept.old.nodes.items)) }
    ensures places { OnOk result (kept.new.places.items ≡ kept.old.places.items) }
{
    let DesignLeaf {
        path,
        place,
        holds,
        is_driven,
    } = leaf;
    let ty = type_of(holds);
    let role = flat_role(alloc, is_port, is_driven, holds, role, kept)?;
    Ok(Leaf {
        path,
        place,
        signed: ty.signed,
        width: ty.width,
        role,
    })
}

/// The type of what a leaf holds. A clock is one bit wide.
pub fn type_of(holds: LeafType) -> NumTy
    ensures { result ≡ width_of holds }
{
    match holds {
        LeafType::Number(ty) => ty,
        LeafType::Clock => NumTy {
            signed: false,
            width: 1,
        },
    }
}
