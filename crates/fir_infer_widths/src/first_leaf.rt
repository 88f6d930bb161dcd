//! The first leaf of a type that passes a test (FIRRTL spec, "Width Inference").

ghost use Rattle.std.specs.Prelude.{◌≡◌, List, IfOk, map};
ghost use Rattle.fir_ast.specs.Types.{DataType};
ghost use Rattle.fir_meaning.specs.LeafPaths.{Step, named};
ghost use Rattle.fir_meaning.specs.WidthExpressions.{Widths};
ghost use Rattle.fir_type_table.specs.working.Tables.{made_of, member_fields, members_at, shown, type_at, types_of};
ghost use Rattle.fir_type_table.specs.working.Wanted.{IsPathFound};
ghost use Rattle.fir_infer_widths.specs.working.FirstLeaves.{first_where, ground_leaf, lacks_width, passes};
ghost use Rattle.fir_infer_widths.specs.working.NumberedLeaves.{NumberedLeaf, numbered_field_leaves, numbered_leaves, numbered_under};
ghost use Rattle.fir_infer_widths.specs.working.SpotFaults.{is_over};
ghost use Rattle.fir_meaning.specs.working.AssignedWidths.{assigned};

use crate::direction::direction;
use crate::leaf_path::{kept, put_element, put_field};
use fir_base::MemoryOut;
use fir_least_widths::OVER;
use fir_type_table::{Kind, Member, TypeId, TypeTable};
use fir_width::width_at;

/// What is looked for.
#[derive(Clone, Copy)]
pub enum Test {
    /// A leaf with a width over 128 bits.
    Over,
    /// An input without a width, which its type alone tells: whether types are taken without their widths,
    /// and whether straight leaves are inputs, or else flipped ones.
    Unwritten(bool, bool),
}

impl Test {
    /// Whether a ground type passes, whose leaf has that number.
    fn passes(self, widths: &[u32], kind: Kind, number: usize) -> bool
        ensures { (ts : List DataType) (members : List Member) → result ≡ passes (assigned widths.now) self (ground_leaf number (made_of ts kind members)) }
    {
        match self {
            Test::Over => is_over(widths, number),
            Test::Unwritten(is_bare, inward) => inward && lacks_width(kind, is_bare),
        }
    }

    /// The test of the leaves within a field.
    #[tactic(auto, using(crate::proofs::FirstFields::unwritten_below))]
    fn within(self, flip: bool) -> Test
        ensures { (u : Widths) (step : Step) (leaf : NumberedLeaf) → passes u self (numbered_under flip step leaf) ≡ passes u result leaf }
    {
        match self {
            Test::Over => Test::Over,
            Test::Unwritten(is_bare, inward) => Test::Unwritten(is_bare, direction(inward, flip)),
        }
    }
}

/// Whether the number has a width over 128 bits; the widths stand by their numbers.
pub fn is_over(widths: &[u32], number: usize) -> bool
    ensures { result ≡ is_over (assigned widths.now number) }
{
    width_at(widths, number) >= OVER
}

/// Whether a ground type is a UInt or an SInt without a width, where it is shown without its width or as it
/// is.
fn lacks_width(kind: Kind, is_bare: bool) -> bool
    ensures { (ts : List DataType) (members : List Member) → result ≡ lacks_width (shown is_bare (made_of ts kind members)) }
{
    match kind {
        Kind::UInt(width) | Kind::SInt(width) => is_bare || width.is_none(),
        _ => false,
    }
}

/// Writes the path to the first leaf of a type that passes behind what stands there; where none passes
/// nothing is written. The leaves have the numbers from `first` on, and the widths stand by their numbers. All
/// elements of a vector have the same leaves, so only its first element is entered.
#[cycle(first)]
pub fn find_leaf(
    table: &TypeTable,
    widths: &[u32],
    test: Test,
    id: TypeId,
    first: usize,
    path: &mut Vec<u8>,
) -> Result<bool, MemoryOut>
    ensures { IfOk result (λ found. IsPathFound path.old.items path.new.items found (first_where (passes (assigned widths.now) test) (numbered_leaves first (type_at (types_of table.now) id.number)))) }
{
    match table.kind(id) {
        Kind::Bundle => find_in_bundle(table, widths, test, id, first, path),
        Kind::Vector(element, length) => {
            if length == 0 {
                return Ok(false);
            }
            let before = path.len();
            put_element(path, 0)?;
            let found = find_leaf(table, widths, test, element, first, path)?;
            Ok(kept(path, before, found))
        }
        kind => Ok(test.passes(widths, kind, first)),
    }
}

/// Numbers past 2^64 - 1 count as that one: none of them has a width.
#[cycle(first)]
fn find_in_bundle(
    table: &TypeTable,
    widths: &[u32],
    test: Test,
    id: TypeId,
    first: usize,
    path: &mut Vec<u8>,
) -> Result<bool, MemoryOut>
    ensures { IfOk result (λ found. IsPathFound path.old.items path.new.items found (first_where (passes (assigned widths.now) test) (numbered_field_leaves first (member_fields (types_of table.now) (members_at table.now id.number))))) }
{
    let mut number = first;
    for member in table.members(id) {
        if find_in_member(table, widths, test, member, number, path)? {
            return Ok(true);
        }
        number = number.saturating_add(table.shared_leaves(member.ty) as usize);
    }
    Ok(false)
}

#[cycle(first)]
fn find_in_member(
    table: &TypeTable,
    widths: &[u32],
    test: Test,
    member: &Member,
    first: usize,
    path: &mut Vec<u8>,
) -> Result<bool, MemoryOut>
    ensures { IfOk result (λ found. IsPathFound path.old.items path.new.items found (first_where (passes (assigned widths.now) test) (map (numbered_under member.now.flip (named member.now.name)) (numbered_leaves first (type_at (types_of table.now) member.now.ty.number))))) }
{
    let before = path.len();
    put_field(path, &member.name)?;
    let found = find_leaf(
        table,
        widths,
        test.within(member.flip),
        member.ty,
        first,
        path,
    )?;
    Ok(kept(path, before, found))
}
