//! Types that are equivalent, and types that a connect may join (FIRRTL spec, "Type Equivalence", "Connects",
//! "Partial Connects").

ghost use Rattle.std.specs.Prelude.{◌≡◌};
ghost use Rattle.fir_meaning.specs.Equivalence.{is_connectable, is_equivalent, is_partly_connectable};
ghost use Rattle.fir_type_table.specs.working.Tables.{types_of};
ghost use Rattle.fir_types.specs.working.Seen.{found_type};
ghost use Rattle.fir_types.specs.working.Sorts.{sorts_fit};

use fir_type_table::TypeTable;
use fir_types::found::sort;
use fir_types::{Found, Sort};

/// Whether they are equivalent, whatever their widths.
#[tactic(auto, using(fir_types::proofs::BarePairs::equivalent_shown))]
pub fn are_equivalent(table: &TypeTable, a: Found, b: Found) -> bool
    ensures { result ≡ is_equivalent (found_type (types_of table.now) a) (found_type (types_of table.now) b) }
{
    match (a, b) {
        (Found::Type(one, _), Found::Type(other, _)) => table.are_equivalent(one, other),
        _ => sort(table, a) == sort(table, b),
    }
}

/// Whether a connect may join them.
#[tactic(auto, using(fir_types::proofs::BarePairs::connectable_shown))]
pub fn fit(table: &TypeTable, a: Found, b: Found) -> bool
    ensures { result ≡ is_connectable (found_type (types_of table.now) a) (found_type (types_of table.now) b) }
{
    match (a, b) {
        (Found::Type(one, _), Found::Type(other, _)) => table.fit(one, other),
        _ => sorts_fit(sort(table, a), sort(table, b)),
    }
}

/// Whether a partial connect may join them.
#[tactic(auto, using(fir_types::proofs::BarePairs::partly_shown))]
pub fn fit_partly(table: &TypeTable, a: Found, b: Found) -> bool
    ensures { result ≡ is_partly_connectable (found_type (types_of table.now) a) (found_type (types_of table.now) b) }
{
    match (a, b) {
        (Found::Type(one, _), Found::Type(other, _)) => table.fit_partly(one, other),
        _ => sorts_fit(sort(table, a), sort(table, b)),
    }
}

/// Whether ground types of these sorts fit: a Reset fits a UInt and an AsyncReset.
fn sorts_fit(a: Sort, b: Sort) -> bool
    ensures { result ≡ sorts_fit a b }
{
    match (a, b) {
        (Sort::UInt | Sort::AsyncReset, Sort::Reset) => true,
        (Sort::Reset, Sort::UInt | Sort::AsyncReset) => true,
        _ => a == b,
    }
}
