//! Relations, languages and instances from what is written of them.
ghost use Rattle.std.specs.Prelude.{◌≡◌, IfOk};
ghost use Rattle.std.specs.Bool.{OnTrue};
ghost use Rattle.pol_optable.specs.Operations.{IsPolymorphism};

use pol_base::Domain;
use pol_optable::OpTable;
use pol_relation::{Instance, Language, Relation};
use std::alloc::Global;
use std::process::Abort;
use std::test::Fail;

/// A relation: its arity, and its rows, one behind another.
pub(crate) type Listed = (u32, &'static [u8]);

/// A constraint: the number of its relation, and its scope.
pub(crate) type On = (u32, &'static [u32]);

pub(crate) fn relation(
    rt: &impl Abort,
    alloc: Global,
    d: Domain,
    arity: u32,
    rows: &[u8],
) -> Result<Relation, Fail>
    ensures domain { IfOk result (λ r. r.domain ≡ d) }
    ensures arity { IfOk result (λ r. r.arity ≡ arity) }
{
    let size = d.size();
    assert!(rt; 1 <= arity && arity <= 6);
    assert!(rt; rows.len() % arity as usize == 0);
    assert!(rt; rows.iter().all(|value| *value < size));
    Ok(Relation::from_rows(alloc, d, arity, rows)?)
}

/// The language of the relations over so many values.
pub(crate) fn language(
    rt: &impl Abort,
    alloc: Global,
    size: u32,
    relations: &[Listed],
) -> Result<Language, Fail> {
    let d = Domain::new(size).expect(rt, "a domain");
    let mut language = Language::new(alloc, d);
    for (arity, rows) in relations {
        let d = language.domain();
        assert!(rt; language.len() < 26);
        let name = [b'a' + language.len() as u8];
        language.add(&name, relation(rt, alloc, d, *arity, rows)?)?;
    }
    Ok(language)
}

/// The instance of so many variables with the constraints.
pub(crate) fn instance(
    rt: &impl Abort,
    alloc: Global,
    variables: u32,
    constraints: &[On],
) -> Result<Instance, Fail> {
    let mut instance = Instance::new(alloc, b"small")?;
    for x in 0..variables {
        assert!(rt; x < 100 && instance.variables() < 100);
        instance.add_variable(&[x as u8])?;
    }
    for (relation, scope) in constraints {
        add(rt, &mut instance, *relation, scope)?;
    }
    Ok(instance)
}

/// Adds a constraint of the relation with the number.
pub(crate) fn add(
    rt: &impl Abort,
    instance: &mut Instance,
    relation: u32,
    scope: &[u32],
) -> Result<(), Fail> {
    let variables = instance.variables();
    assert!(rt; 1 <= scope.len() && scope.len() <= 6);
    assert!(rt; scope.iter().all(|x| *x < variables));
    assert!(rt; instance.constraints() < 256);
    instance.add_constraint(relation, scope)?;
    Ok(())
}

/// Whether the operation preserves each relation of the language.
pub(crate) fn preserves<const K: usize>(op: &OpTable<K>, language: &Language) -> bool
    requires domain { op.now.domain ≡ language.now.domain }
    ensures preserves { OnTrue result (IsPolymorphism op.now language.now) }
{
    for i in 0..language.len() {
        if !op.preserves(language.relation(i)) {
            return false;
        }
    }
    true
}

/// Whether the assignment is a solution of the instance, which fits the language.
pub(crate) fn is_solution(
    rt: &impl Abort,
    language: &Language,
    instance: &Instance,
    assignment: &[u8],
) -> bool {
    let d = language.domain().size();
    assert!(rt; instance.fits(language));
    assert!(rt; assignment.len() == instance.variables() as usize);
    assert!(rt; assignment.iter().all(|value| *value < d));
    instance.is_solution(language, assignment)
}
