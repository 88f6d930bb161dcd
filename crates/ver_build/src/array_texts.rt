//! What is read of arrays and written into them, as text (IEEE 1364-2005, 4.9, 9.7.2).

ghost use Rattle.std.specs.Prelude.{◌≡◌, [], ◌∷◌, ◌++◌, IfOk, OnOk, option_map};
ghost use Rattle.fir_net.specs.working.Arrays.{words_of};
ghost use Rattle.ver_ast.specs.Atoms.{net as named_net};
ghost use Rattle.ver_ast.specs.declared.tree.Rhs.TheVariants as right;
ghost use Rattle.ver_build.specs.working.ArrayTexts as text;
ghost use Rattle.ver_build.specs.working.Operands.{atom_at as atom_value};
ghost use Rattle.ver_build.specs.working.Places.{read_width};
ghost use Rattle.ver_build.specs.working.Texts.{helper as helper_name};

use crate::atoms::{atom_at, constant, net};
use crate::held::Held;
use crate::places::Guard;
use crate::right_sides::{Inner, helper, push_inner};
use fir_base::{MemoryOut, Name};
use fir_net::{FlatNet, Read};
use fir_work::read_type;
use std::alloc::Global;
use ver_ast::{Atom, BinaryOp, Rhs};

/// The width of what is read.
pub fn read_width(net: &FlatNet, read: Read) -> u32
    ensures { result ≡ read_width net.now read }
{
    read_type(net.leaves.as_slice(), net.nodes.as_slice(), &read).width
}

/// How many words an array has.
pub fn words_of(net: &FlatNet, array: usize) -> usize
    ensures { result ≡ words_of net.now.arrays array }
{
    match net.arrays.as_slice().get(array) {
        Some(array) => array.words,
        None => 0,
    }
}

/// Whether no address of so many bits is past the end of so many words.
pub fn always_within(width: u32, words: usize) -> bool
    ensures { result ≡ text.always_within width words }
{
    width < 64 && 1 << width <= words as u64
}

/// Whether an address of so many bits is within so many words.
fn within(alloc: Global, width: u32, words: usize, address: Held) -> Result<Rhs, MemoryOut>
    ensures { IfOk result (λ r. r ≡ text.within_rhs width words address) }
{
    let address = atom_at(alloc, width, address)?;
    Ok(Rhs::Binary(address, BinaryOp::Lt, constant(width, words as u128)))
}

/// Whether both are 1.
fn both(alloc: Global, within: Name, under: Held) -> Result<Rhs, MemoryOut>
    ensures { IfOk result (λ r. r ≡ text.and_rhs within under) }
{
    let under = atom_at(alloc, 1, under)?;
    Ok(Rhs::Binary(net(within), BinaryOp::And, under))
}

/// The value where the condition is 1, and else zero.
fn or_zero(width: u32, condition: Atom, value: Atom) -> Rhs
    ensures { result ≡ text.or_zero width condition value }
{
    Rhs::Conditional(condition, value, constant(width, 0))
}

/// A read of an array.
#[derive(Drop)]
pub struct ArrayText {
    /// The array's name.
    pub array: Name,
    /// How many words it has.
    pub words: usize,
    /// Their width in bits.
    pub width: u32,
    /// The width of the address in bits.
    pub address_width: u32,
    pub address: Held,
    /// One bit, which is 1 while something is read.
    pub enable: Held,
}

/// The nets of a read, the last of which has the given name and what is read, and those before it the names of
/// the helpers.
pub fn reading_inners(
    alloc: Global,
    read: ArrayText,
    helpers: &[Name],
    name: &Name,
) -> Result<Vec<Inner>, MemoryOut>
    ensures { IfOk result (λ v. v.items
        ≡ text.reading_inners read.array read.words read.width read.address_width read.address read.enable helpers.now name.now) }
{
    if always_within(read.address_width, read.words) {
        direct_inners(alloc, read, helpers, name)
    } else {
        guarded_inners(alloc, read, helpers, name)
    }
}

/// The nets of a read that is never past the end: the word, and that or zero.
fn direct_inners(
    alloc: Global,
    read: ArrayText,
    helpers: &[Name],
    name: &Name,
) -> Result<Vec<Inner>, MemoryOut>
    ensures { IfOk result (λ v. v.items ≡ text.direct_inners read.array read.width read.address_width read.address read.enable helpers.now name.now) }
{
    let width = read.width;
    let enable = atom_at(alloc, 1, read.enable)?;
    let address = atom_at(alloc, read.address_width, read.address)?;
    let mut inners = Vec::new(alloc);
    push_word(alloc, &mut inners, helpers, 0, width, read.array, address)?;
    push_or_zero(alloc, &mut inners, name, width, enable, helpers, 0)?;
    Ok(inners)
}

/// The nets of a read that may be past the end: whether it is within, whether something is read then, the address
/// or else 0, the word there, and that or zero.
fn guarded_inners(
    alloc: Global,
    read: ArrayText,
    helpers: &[Name],
    name: &Name,
) -> Result<Vec<Inner>, MemoryOut>
    ensures { IfOk result (λ v. v.items
        ≡ text.guarded_inners read.array read.words read.width read.address_width read.address read.enable helpers.now name.now) }
{
    let (width, address_width) = (read.width, read.address_width);
    let mut inners = Vec::new(alloc);
    push_tests(
        alloc,
        &mut inners,
        (address_width, read.words),
        read.address.copy(alloc)?,
        read.enable,
        helpers,
    )?;
    push_address(alloc, &mut inners, address_width, read.address, helpers)?;
    push_guarded_word(alloc, &mut inners, width, read.array, helpers)?;
    let enabled = net(helper(alloc, helpers, 1)?);
    push_or_zero(alloc, &mut inners, name, width, enabled, helpers, 3)?;
    Ok(inners)
}

/// Appends the net that tells whether an address of the first number of bits is within the second number of words,
/// and the net that tells whether something is read then.
fn push_tests(
    alloc: Global,
    inners: &mut Vec<Inner>,
    sizes: (u32, usize),
    address: Held,
    enable: Held,
    helpers: &[Name],
) -> Result<(), MemoryOut>
    ensures { OnOk result (inners.new.items
        ≡ (inners.old.items ++ record { name = helper_name helpers.now 0; width = 1; rhs = text.within_rhs sizes.0 sizes.1 address } ∷ [])
        ++ record { name = helper_name helpers.now 1; width = 1; rhs = text.and_rhs (helper_name helpers.now 0) enable } ∷ []) }
{
    let rhs = within(alloc, sizes.0, sizes.1, address)?;
    push_helper(alloc, inners, helpers, 0, 1, rhs)?;
    let rhs = both(alloc, helper(alloc, helpers, 0)?, enable)?;
    push_helper(alloc, inners, helpers, 1, 1, rhs)
}

/// Appends the net of the address, or else 0.
fn push_address(
    alloc: Global,
    inners: &mut Vec<Inner>,
    width: u32,
    address: Held,
    helpers: &[Name],
) -> Result<(), MemoryOut>
    ensures { OnOk result (inners.new.items
        ≡ inners.old.items ++ record { name = helper_name helpers.now 2; width = width; rhs = text.or_zero width (named_net (helper_name helpers.now 1)) (atom_value width address) } ∷ []) }
{
    let address = atom_at(alloc, width, address)?;
    let enabled = net(helper(alloc, helpers, 1)?);
    let rhs = or_zero(width, enabled, address);
    push_helper(alloc, inners, helpers, 2, width, rhs)
}

/// Appends the net of the word at the net of the address.
fn push_guarded_word(
    alloc: Global,
    inners: &mut Vec<Inner>,
    width: u32,
    array: Name,
    helpers: &[Name],
) -> Result<(), MemoryOut>
    ensures { OnOk result (inners.new.items
        ≡ inners.old.items ++ record { name = helper_name helpers.now 3; width = width; rhs = right.Word array (named_net (helper_name helpers.now 2)) } ∷ []) }
{
    let address = net(helper(alloc, helpers, 2)?);
    push_word(alloc, inners, helpers, 3, width, array, address)
}

/// Appends the net of a word, which has the name of that helper.
fn push_word(
    alloc: Global,
    inners: &mut Vec<Inner>,
    helpers: &[Name],
    k: usize,
    width: u32,
    array: Name,
    address: Atom,
) -> Result<(), MemoryOut>
    ensures { OnOk result (inners.new.items ≡ inners.old.items ++ record { name = helper_name helpers.now k; width = width; rhs = right.Word array address } ∷ []) }
{
    push_helper(alloc, inners, helpers, k, width, Rhs::Word(array, address))
}

/// Appends the net of that name, with the net of a helper where the condition is 1, and else zero.
fn push_or_zero(
    alloc: Global,
    inners: &mut Vec<Inner>,
    name: &Name,
    width: u32,
    condition: Atom,
    helpers: &[Name],
    k: usize,
) -> Result<(), MemoryOut>
    ensures { OnOk result (inners.new.items
        ≡ inners.old.items ++ record { name = name.now; width = width; rhs = text.or_zero width condition (named_net (helper_name helpers.now k)) } ∷ []) }
{
    let value = net(helper(alloc, helpers, k)?);
    let own = name.copy(alloc)?;
    push_inner(inners, own, width, or_zero(width, condition, value))
}

/// Appends a net with the name of that helper.
fn push_helper(
    alloc: Global,
    inners: &mut Vec<Inner>,
    helpers: &[Name],
    k: usize,
    width: u32,
    rhs: Rhs,
) -> Result<(), MemoryOut>
    ensures { OnOk result (inners.new.items ≡ inners.old.items ++ record { name = helper_name helpers.now k; width = width; rhs = rhs } ∷ []) }
{
    let name = helper(alloc, helpers, k)?;
    push_inner(inners, name, width, rhs)
}

/// Appends the nets of a write at an address of the first number of bits, which may be past the second number of
/// words: whether it is within, and whether something is written then.
pub fn push_guard(
    alloc: Global,
    inners: &mut Vec<Inner>,
    sizes: (u32, usize),
    address: Held,
    condition: Held,
    guard: &Guard,
) -> Result<(), MemoryOut>
    ensures { OnOk result (inners.new.items ≡ inners.old.items ++ text.guard_inners sizes.1 sizes.0 address condition guard.now) }
{
    let rhs = within(alloc, sizes.0, sizes.1, address)?;
    push_inner(inners, guard.within.copy(alloc)?, 1, rhs)?;
    let rhs = both(alloc, guard.within.copy(alloc)?, condition)?;
    push_inner(inners, guard.written.copy(alloc)?, 1, rhs)
}

/// The condition of a write.
pub fn write_condition(
    alloc: Global,
    condition: Held,
    guard: Option<&Guard>,
) -> Result<Atom, MemoryOut>
    ensures { IfOk result (λ a. a ≡ text.write_condition condition (option_map (λ g. g.now) guard.entry)) }
{
    match guard {
        Some(guard) => Ok(net(guard.written.copy(alloc)?)),
        None => atom_at(alloc, 1, condition),
    }
}
