ghost use Rattle.std.specs.Prelude.{ℕ, ◌≤◌, ◌+◌, false, option_map, OnOk, IfOk};
ghost use Rattle.pol_base.specs.declared.class_name.ClassName.{ClassName};
ghost use Rattle.pol_base.specs.Least.{AnswersLeast};
ghost use Rattle.pol_relation.specs.Relations.{LanguageView};
ghost use Rattle.pol_relation.specs.Weights.{weight_of, subset_weight_of, most_weight};
ghost use Rattle.pol_optable.specs.Identities.{IsConstant, IsSemilattice, IsNearUnanimity, IsMaltsev};
ghost use Rattle.pol_optable.specs.ClassLines.{IsTable};
ghost use Rattle.pol_optable.specs.Choices.{AreLines, HasTable, IsNu4Line};
ghost use Rattle.pol_setfn.specs.Sought.{IsSought};
ghost use Rattle.pol_classify.specs.Found.{AreFound, place_of};

use crate::affine::least_affine;
use pol_base::{ClassName, NoMemory};
use pol_identity::{Constant, Maltsev, NearUnanimity, Semilattice};
use pol_indicator::least_op;
use pol_optable::{CLASSES, Classes, Nu4, OpTable, SetFn};
use pol_relation::Language;
use pol_setfn::least_setfn;
use std::alloc::Global;

/// The most that the fourth powers of the numbers of rows may sum to where a table of `nu4` is sought.
const MOST_WEIGHT: u64 = 1 << 21;

/// The line of each class: the least table, none exactly where the language has none, and `Beyond`
/// exactly where the fourth powers of the numbers of rows sum to more than 2^21.
pub fn classify(alloc: Global, lang: &Language) -> Result<Classes, NoMemory>
    requires few_rows { weight_of 3 lang.now.relations ≤ most_weight }
    requires few_sets { subset_weight_of lang.now.domain lang.now.relations ≤ most_weight }
    ensures lines { IfOk result (AreLines lang.now) }
{
    let mut classes = nothing_found();
    for class in CLASSES {
        find_line(alloc, lang, class, &mut classes)?;
    }
    Ok(classes)
}

/// The classes before the first search: a line was found of none of them, and none has a table.
pub fn nothing_found() -> Classes
    ensures found { (lang : LanguageView) → AreFound lang 0 result }
    ensures none { (class : ClassName) → ¬ HasTable result class }
{
    Classes {
        constant: None,
        semilattice: None,
        setfn: None,
        majority: None,
        nu4: Nu4::Absent,
        affine: None,
        maltsev: None,
    }
}

/// Finds the line of the class, given those of all classes before it. What was found on the way for an
/// earlier class is not sought again. Fails where memory runs out.
pub fn find_line(
    alloc: Global,
    lang: &Language,
    class: ClassName,
    classes: &mut Classes,
) -> Result<(), NoMemory>
    requires few_rows { weight_of 3 lang.now.relations ≤ most_weight }
    requires few_sets { subset_weight_of lang.now.domain lang.now.relations ≤ most_weight }
    requires found { AreFound lang.now (place_of class) classes.old }
    ensures found { OnOk result (AreFound lang.now (place_of class + 1) classes.new) }
{
    // for its clause that the domain has 1 to 5 values
    let _domain = lang.domain();
    match class {
        ClassName::Constant => {
            classes.setfn = least_setfn(alloc, lang, false)?;
            classes.constant = least_constant(alloc, lang, &classes.setfn)?;
        }
        ClassName::Semilattice => {
            classes.semilattice = least_semilattice(alloc, lang, &classes.setfn)?;
        }
        // found with the line of `constant`, which asks for it
        ClassName::SetFunction => {}
        ClassName::Majority => {
            classes.majority = least_op::<3, _>(alloc, lang, &NearUnanimity)?;
        }
        ClassName::Nu4 => {
            classes.maltsev = least_op::<3, _>(alloc, lang, &Maltsev)?;
            classes.nu4 = least_nu4(alloc, lang, &classes.majority, &classes.maltsev)?;
        }
        ClassName::Affine => {
            classes.affine = least_affine(alloc, lang)?;
        }
        // found with the line of `nu4`, which asks for it
        ClassName::Maltsev => {}
    }
    Ok(())
}

/// The table of the line of `constant`, not sought where there is no set function.
fn least_constant(
    alloc: Global,
    lang: &Language,
    setfn: &Option<SetFn>,
) -> Result<Option<OpTable<1>>, NoMemory>
    requires setfn { AnswersLeast (IsSought lang.now false) (option_map (λ g. g.cells) setfn.now) }
    ensures least { IfOk result (λ answer.
        AnswersLeast (IsTable IsConstant 1 lang.now) (option_map (λ t. t.cells) answer)) }
{
    // for its clause that the domain has 1 to 5 values
    let _domain = lang.domain();
    // a constant operation makes the set function with its value everywhere
    if setfn.is_none() {
        return Ok(None);
    }
    least_op::<1, _>(alloc, lang, &Constant)
}

/// The table of the line of `semilattice`, not sought where there is no set function.
fn least_semilattice(
    alloc: Global,
    lang: &Language,
    setfn: &Option<SetFn>,
) -> Result<Option<OpTable<2>>, NoMemory>
    requires setfn { AnswersLeast (IsSought lang.now false) (option_map (λ g. g.cells) setfn.now) }
    ensures least { IfOk result (λ answer.
        AnswersLeast (IsTable IsSemilattice 2 lang.now) (option_map (λ t. t.cells) answer)) }
{
    // for its clause that the domain has 1 to 5 values
    let _domain = lang.domain();
    // a semilattice operation makes the set function that folds it
    if setfn.is_none() {
        return Ok(None);
    }
    least_op::<2, _>(alloc, lang, &Semilattice)
}

/// The line of `nu4`, for which large languages are not searched, nor those with a Mal'tsev operation and
/// no majority operation.
fn least_nu4(
    alloc: Global,
    lang: &Language,
    majority: &Option<OpTable<3>>,
    maltsev: &Option<OpTable<3>>,
) -> Result<Nu4, NoMemory>
    requires majority { AnswersLeast (IsTable IsNearUnanimity 3 lang.now) (option_map (λ t. t.cells) majority.now) }
    requires maltsev { AnswersLeast (IsTable IsMaltsev 3 lang.now) (option_map (λ t. t.cells) maltsev.now) }
    ensures line { IfOk result (IsNu4Line lang.now) }
{
    if lang.weight(4) > MOST_WEIGHT {
        return Ok(Nu4::Beyond);
    }
    // for its clause that the domain has 1 to 5 values
    let _domain = lang.domain();
    // a near unanimity operation f and a Mal'tsev operation p make the majority operation
    // p(f(x, x, y, z), f(x, x, z, z), f(x, y, z, z))
    if majority.is_none() && maltsev.is_some() {
        return Ok(Nu4::Absent);
    }
    match least_op::<4, _>(alloc, lang, &NearUnanimity)? {
        Some(table) => Ok(Nu4::Found(table)),
        None => Ok(Nu4::Absent),
    }
}
