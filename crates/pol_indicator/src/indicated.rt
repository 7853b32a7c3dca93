ghost use Rattle.std.specs.Prelude.{◌≡◌, ℕ, ◌+◌, ◌^◌, ◌<◌, ◌≤◌, ◌↔◌, List, length, IfOk, OnOk};
ghost use Rattle.pol_relation.specs.Relations.{rows_of};
ghost use Rattle.pol_relation.specs.Weights.{weight_of, most_weight};
ghost use Rattle.pol_csp.specs.Problems.{Admits, FitsLanguage};
ghost use Rattle.pol_indicator.specs.Indicators.{AreIndicated};
ghost use Rattle.pol_indicator.specs.Ruled.{IsRuledTable, SameCells};

use crate::rules::ruled_cells;
use crate::scope::scope_at;
use pol_base::{NoMemory, advance};
use pol_csp::Problem;
use pol_identity::Identity;
use pol_relation::Language;
use std::alloc::Global;

/// The indicator problem of the language for operations of `K` arguments that obey the rules of the
/// identity: its cells are those of a table, with the rules as masks and ties, and it has a constraint for
/// each list of `K` rows of each relation. The lists of values that it admits are exactly the cells of the
/// polymorphisms that obey the rules; the identity may ask more than its rules.
///
/// The identity is to suit the domain, `K` to be from 1 to 16, and there are to be at most 4,096 cells and
/// at most 2^21 lists of rows in all. (P. Jeavons, D. Cohen and M. Gyssens, Closure properties of
/// constraints, Journal of the ACM 44, 1997.)
pub fn problem<const K: usize, I: Identity<K>>(
    alloc: Global,
    lang: &Language,
    identity: &I,
) -> Result<Problem, NoMemory>
    requires suited { I.suits identity.now lang.now.domain }
    requires some_arguments { 1 ≤ K }
    requires few_arguments { K ≤ 16 }
    requires few_cells { lang.now.domain ^ K ≤ 4096 }
    requires few_lists { weight_of K lang.now.relations ≤ most_weight }
    ensures cells { IfOk result (λ p. length p.masks ≡ lang.now.domain ^ K) }
    ensures fits { IfOk result (λ p. FitsLanguage lang.now p) }
    ensures few { IfOk result (λ p. length p.constraints ≤ weight_of K lang.now.relations) }
    ensures exact { IfOk result (λ p. (xs : List ℕ) → Admits lang.now p xs
        ↔ IsRuledTable lang.now K (I.rule_of identity.now lang.now.domain) xs) }
{
    let mut problem = ruled_cells(alloc, lang.domain(), identity)?;
    for number in 0..lang.len() {
        add_lists::<K>(&mut problem, lang, number)?;
    }
    // for its clause that the masks are nonempty
    let _domain = problem.domain();
    Ok(problem)
}

/// Adds the constraint of each list of `K` rows of the relation with the number.
fn add_lists<const K: usize>(
    problem: &mut Problem,
    lang: &Language,
    number: u32,
) -> Result<(), NoMemory>
    requires some_arguments { 1 ≤ K }
    requires few_arguments { K ≤ 16 }
    requires known { number < length lang.now.relations }
    requires few_cells { lang.now.domain ^ K ≤ 4096 }
    requires cells { length problem.old.masks ≡ lang.now.domain ^ K }
    requires room { length problem.old.constraints + length (rows_of lang.now number) ^ K ≤ most_weight }
    requires indicated { AreIndicated lang.now K number problem.old.constraints }
    ensures indicated { OnOk result (AreIndicated lang.now K (number + 1) problem.new.constraints) }
    ensures same { OnOk result (SameCells problem.old problem.new) }
    ensures counted { OnOk result (length problem.new.constraints
        ≡ length problem.old.constraints + length (rows_of lang.now number) ^ K) }
{
    let r = lang.relation(number);
    let count = r.len();
    if count == 0 {
        return Ok(());
    }
    let arity = r.arity() as usize;
    let mut numbers = [0u32; K];
    'lists: loop {
        let scope = scope_at(r, &numbers);
        problem.add(number, &scope[..arity])?;
        if !advance(&mut numbers, count) {
            return Ok(());
        }
    }
}
