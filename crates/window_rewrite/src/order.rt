ghost use Rattle.std.specs.Prelude.{◌≡◌, IfOk, Some, None, MatchOption};
ghost use Rattle.data_layout.specs.Index.{IsReady};
ghost use Rattle.statement_rules.specs.Trees.{tree_of};
ghost use Rattle.date_uses.specs.Conditions.{pair};
ghost use Rattle.window_rewrite.specs.Old.{old_of};
ghost use Rattle.window_rewrite.specs.Orders as spec;

use crate::site::Site;
use cobol_syntax::{Expr, Operand, Rel};
use date_uses::{Used, operand_used};
use statement_rules::single;
use std::alloc::Global;
use window_dates::{WindowedYear, window_of};
use y2k_base::Memory;
use year_index::YearIndex;

/// The operands that two expressions without an operator or a sign are.
pub(crate) fn pair_of<'a>(left: &'a Expr, right: &'a Expr) -> Option<(&'a Operand, &'a Operand)>
    ensures { MatchOption result (pair (tree_of left.now) (tree_of right.now) ≡ None) (λ two. pair (tree_of left.now) (tree_of right.now) ≡ Some (two.0.now, two.1.now)) }
{
    match single(left) {
        None => None,
        Some(one) => match single(right) {
            None => None,
            Some(other) => Some((one, other)),
        },
    }
}

fn pivot_of(year: Option<WindowedYear>) -> Option<u8>
    ensures { result ≡ spec.pivot_of year }
{
    match year {
        None => None,
        Some(year) => Some(year.pivot),
    }
}

/// The pivot of a comparison, if it is one of order and of years that keep their two digits.
pub(crate) fn order_pivot(index: &YearIndex, left: &Used, rel: Rel, right: &Used) -> Option<u8>
    ensures { result ≡ spec.order_pivot index.now left.now rel right.now }
{
    match rel {
        Rel::Equal => None,
        Rel::Less => pivot_of(window_of(index, left, right)),
        Rel::Greater => pivot_of(window_of(index, left, right)),
    }
}

/// Whether two operands are compared so.
fn is_windowed_pair(
    alloc: Global,
    site: Site,
    left: &Operand,
    rel: Rel,
    right: &Operand,
) -> Result<bool, Memory>
    requires { IsReady site.layout.now }
    ensures { IfOk result (λ is. is ≡ spec.is_windowed_pair (old_of site.entry) rel (Some (left.now, right.now))) }
{
    let left = operand_used(alloc, site.layout, left)?;
    let right = operand_used(alloc, site.layout, right)?;
    Ok(order_pivot(site.index, &left, rel, &right).is_some())
}

/// Whether a relation is one of order of years that keep their two digits.
pub(crate) fn is_windowed(
    alloc: Global,
    site: Site,
    left: &Expr,
    rel: Rel,
    right: &Expr,
) -> Result<bool, Memory>
    requires { IsReady site.layout.now }
    ensures { IfOk result (λ is. is ≡ spec.is_windowed (old_of site.entry) (tree_of left.now) rel (tree_of right.now)) }
{
    match pair_of(left, right) {
        None => Ok(false),
        Some((one, other)) => {
            let is = is_windowed_pair(alloc, site, one, rel, other)?;
            Ok(is)
        }
    }
}
