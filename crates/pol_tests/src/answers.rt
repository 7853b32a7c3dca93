ghost use Rattle.std.specs.Prelude.{◌≡◌, ◌≤◌, length, IfOk};
ghost use Rattle.pol_relation.specs.Instances.{Fits};
ghost use Rattle.pol_optable.specs.Choices.{AreLines, AreTables};

use crate::harness::lines;
use crate::sizes::are_sizes;
use pol_base::{ClassName, Domain, NoMemory, cells, digit};
use pol_classify::classify;
use pol_lang::{File, read_file};
use pol_modp::check_combination;
use pol_nogood::check_log;
use pol_optable::{Classes, Nu4};
use pol_relation::{Instance, Language};
use pol_solve::{InstanceAnswer, answer};
use std::alloc::Global;
use std::process::Abort;
use std::test::Fail;

/// No constraint, or one on three variables: the number of its relation, and the number that its scope
/// writes in base three, the last place first.
type Candidate = Option<(u32, u32)>;

const CONSTANT: [(&[u8], usize); 2] = [
    (
        b"polyanna 1|domain 2|relation never 1|relation or 2|tuple 0 1|tuple 1 0|tuple 1 1|end|",
        13,
    ),
    (
        b"polyanna 1|domain 3|relation le 2|tuple 0 0|tuple 0 1|tuple 0 2|tuple 1 1|tuple 1 2|tuple 2 2|relation never 2|end|",
        19,
    ),
];

#[test]
fn instances_of_constants(rt: HostRuntime) -> Result<(), Fail> {
    for (language, triples) in CONSTANT {
        assert_answers(&rt, rt.alloc(), language, ClassName::Constant, triples)?;
    }
    Ok(())
}

const SEMILATTICE: [(&[u8], usize); 2] = [
    (
        b"polyanna 1|domain 2|relation h 3|tuple 0 0 0|tuple 0 0 1|tuple 0 1 0|tuple 0 1 1|tuple 1 0 0|tuple 1 0 1|tuple 1 1 1|relation zero 1|tuple 0|relation one 1|tuple 1|end|",
        0,
    ),
    (
        b"polyanna 1|domain 3|relation lt 2|tuple 0 1|tuple 0 2|tuple 1 2|relation low 1|tuple 0|tuple 1|end|",
        13,
    ),
];

#[test]
fn instances_of_semilattice_operations(rt: HostRuntime) -> Result<(), Fail> {
    for (language, triples) in SEMILATTICE {
        assert_answers(&rt, rt.alloc(), language, ClassName::Semilattice, triples)?;
    }
    Ok(())
}

const SET_FUNCTION: [(&[u8], usize); 2] = [
    (
        b"polyanna 1|domain 3|relation pp 3|tuple 0 0 0|tuple 0 2 2|tuple 2 0 2|tuple 2 2 0|relation one 1|tuple 1|end|",
        0,
    ),
    (
        b"polyanna 1|domain 4|relation pp 3|tuple 0 0 0|tuple 0 2 2|tuple 2 0 2|tuple 2 2 0|relation next 2|tuple 1 0|tuple 1 3|end|",
        0,
    ),
];

#[test]
fn instances_of_set_functions(rt: HostRuntime) -> Result<(), Fail> {
    for (language, triples) in SET_FUNCTION {
        assert_answers(&rt, rt.alloc(), language, ClassName::SetFunction, triples)?;
    }
    Ok(())
}

const MAJORITY: [(&[u8], usize); 3] = [
    (
        b"polyanna 1|domain 2|relation neq 2|tuple 0 1|tuple 1 0|relation zero 1|tuple 0|end|",
        13,
    ),
    (
        b"polyanna 1|domain 2|relation or 2|tuple 0 1|tuple 1 0|tuple 1 1|relation nand 2|tuple 0 0|tuple 0 1|tuple 1 0|end|",
        19,
    ),
    (
        b"polyanna 1|domain 3|relation turn 2|tuple 0 1|tuple 1 2|tuple 2 0|relation some 1|tuple 0|tuple 1|end|",
        13,
    ),
];

#[test]
fn instances_of_majority_operations(rt: HostRuntime) -> Result<(), Fail> {
    for (language, triples) in MAJORITY {
        assert_answers(&rt, rt.alloc(), language, ClassName::Majority, triples)?;
    }
    Ok(())
}

const ARITY_FOUR: [(&[u8], usize); 2] = [
    (
        b"polyanna 1|domain 3|relation nn 2|tuple 0 2|tuple 2 0|relation qq 3|tuple 0 0 0|tuple 0 0 1|tuple 0 1 0|tuple 0 1 1|tuple 1 0 0|tuple 1 0 1|tuple 1 1 0|end|",
        10,
    ),
    (
        b"polyanna 1|domain 4|relation nn 2|tuple 0 3|tuple 3 0|relation qq 3|tuple 0 0 0|tuple 0 0 1|tuple 0 1 0|tuple 0 1 1|tuple 1 0 0|tuple 1 0 1|tuple 1 1 0|relation some 1|tuple 1|tuple 3|end|",
        10,
    ),
];

#[test]
fn instances_of_operations_of_arity_four(rt: HostRuntime) -> Result<(), Fail> {
    for (language, triples) in ARITY_FOUR {
        assert_answers(&rt, rt.alloc(), language, ClassName::Nu4, triples)?;
    }
    Ok(())
}

const AFFINE: [(&[u8], usize); 2] = [
    (
        b"polyanna 1|domain 2|relation odd 3|tuple 0 0 1|tuple 0 1 0|tuple 1 0 0|tuple 1 1 1|relation zero 1|tuple 0|end|",
        6,
    ),
    (
        b"polyanna 1|domain 3|relation one 3|tuple 0 0 1|tuple 0 1 0|tuple 0 2 2|tuple 1 0 0|tuple 1 1 2|tuple 1 2 1|tuple 2 0 2|tuple 2 1 1|tuple 2 2 0|relation zero 1|tuple 0|end|",
        0,
    ),
];

#[test]
fn instances_of_affine_operations(rt: HostRuntime) -> Result<(), Fail> {
    for (language, triples) in AFFINE {
        assert_answers(&rt, rt.alloc(), language, ClassName::Affine, triples)?;
    }
    Ok(())
}

const MALTSEV: [(&[u8], usize); 2] = [
    (
        b"polyanna 1|domain 3|relation swap 2|tuple 0 1|tuple 1 0|tuple 2 2|relation two 1|tuple 2|relation parity 3|tuple 0 0 0|tuple 0 1 1|tuple 1 0 1|tuple 1 1 0|end|",
        13,
    ),
    (
        b"polyanna 1|domain 4|relation one 1|tuple 1|relation sum 3|tuple 0 0 0|tuple 0 1 3|tuple 0 2 2|tuple 0 3 1|tuple 1 0 3|tuple 1 1 2|tuple 1 2 1|tuple 1 3 0|tuple 2 0 2|tuple 2 1 1|tuple 2 2 0|tuple 2 3 3|tuple 3 0 1|tuple 3 1 0|tuple 3 2 3|tuple 3 3 2|end|",
        4,
    ),
];

#[test]
fn instances_of_maltsev_operations(rt: HostRuntime) -> Result<(), Fail> {
    for (language, triples) in MALTSEV {
        assert_answers(&rt, rt.alloc(), language, ClassName::Maltsev, triples)?;
    }
    Ok(())
}

const ONE_VALUE: &[u8] =
    b"polyanna 1|domain 1|relation r 2|tuple 0 0|relation e 1|instance a x y|constraint r y x|constraint r x x|instance b x|constraint r x x|constraint e x|end|";

/// Of each instance whether it has a solution, and its sizes by a Mal'tsev operation.
const SIZES_OVER_ONE_VALUE: [(bool, [u32; 3]); 2] = [(true, [2, 2, 2]), (false, [1, 1, 0])];

#[test]
fn sizes_over_one_value(rt: HostRuntime) -> Result<(), Fail> {
    let file = read(&rt, rt.alloc(), ONE_VALUE)?;
    let classes = maltsev_alone(rt.alloc(), &file)?;
    assert!(rt; file.instances() == 2);
    for i in 0..2 {
        let inst = file.instance(i);
        assert!(rt; inst.fits(file.lang()) && inst.constraints() == 2);
        assert!(rt; inst.variables() == 1 || inst.variables() == 2);
        let given = answer(rt.alloc(), file.lang(), inst, &classes)?;
        let (solved, sizes) = SIZES_OVER_ONE_VALUE[i as usize];
        assert!(rt; has_sizes(&given, solved, &sizes), "at {i}");
    }
    Ok(())
}

/// What is found for the class `maltsev`, and nothing for the others.
fn maltsev_alone(alloc: Global, file: &File) -> Result<Classes, NoMemory>
    ensures tables { IfOk result (AreTables file.now.language) }
{
    let found = classify(alloc, file.lang())?;
    Ok(Classes {
        constant: None,
        semilattice: None,
        setfn: None,
        majority: None,
        nu4: Nu4::Absent,
        affine: None,
        maltsev: found.maltsev,
    })
}

/// Whether the answer has these sizes, with the solution of zeros where it is to have one.
fn has_sizes(given: &InstanceAnswer, solved: bool, due: &[u32]) -> bool {
    match given {
        InstanceAnswer::YesSizes(values, sizes) => {
            solved && sizes.as_slice() == due && values.as_slice().iter().all(|value| *value == 0)
        }
        InstanceAnswer::NoSizes(sizes) => !solved && sizes.as_slice() == due,
        _ => false,
    }
}

/// The file that is written with a bar for each LF.
fn read(rt: &impl Abort, alloc: Global, text: &[u8]) -> Result<File, Fail> {
    let bytes = lines(alloc, text)?;
    assert!(rt; bytes.as_slice().len() <= 1 << 28);
    let (file, _rest) = read_file(alloc, bytes.as_slice())?;
    Ok(file)
}

/// Each instance of three variables with at most two constraints of the language, or with three of the
/// first so many, is answered by the class: with a solution, or with No where the list of all assignments
/// has none.
fn assert_answers(
    rt: &impl Abort,
    alloc: Global,
    language: &[u8],
    class: ClassName,
    triples: usize,
) -> Result<(), Fail> {
    let file = read(rt, alloc, language)?;
    let classes = classify(alloc, file.lang())?;
    assert_eq!(rt; classes.first(), Some(class));
    let all = candidates(alloc, file.lang())?;
    for i in 0..all.len() {
        for j in 0..i + 1 {
            for k in 0..last_third(i, j, triples) + 1 {
                let inst = instance(rt, alloc, file.lang(), &[all[i], all[j], all[k]])?;
                assert!(rt;
                    inst.fits(file.lang()) && inst.variables() == 3 && inst.constraints() <= 3
                );
                let answered = is_answered(alloc, file.lang(), &inst, &classes)?;
                assert!(rt; answered, "at {i} {j} {k}");
            }
        }
    }
    Ok(())
}

/// The last candidate that may follow two others: one up to the second of them, or that of no constraint.
fn last_third(first: usize, second: usize, triples: usize) -> usize
    ensures within { result ≤ second }
{
    if first < triples { second } else { 0 }
}

/// No constraint, and all constraints on three variables.
fn candidates(alloc: Global, lang: &Language) -> Result<Vec<Candidate>, Fail> {
    let three = Domain::new(3).ok_or("three variables")?;
    let mut all = Vec::new(alloc);
    all.push(None)?;
    for relation in 0..lang.len() {
        let scopes = cells(three, lang.relation(relation).arity()).ok_or("scopes")?;
        for scope in 0..scopes {
            all.push(Some((relation, scope)))?;
        }
    }
    Ok(all)
}

/// The three variables with these constraints.
fn instance(
    rt: &impl Abort,
    alloc: Global,
    lang: &Language,
    constraints: &[Candidate],
) -> Result<Instance, Fail> {
    let mut inst = Instance::new(alloc, b"i")?;
    for name in [b"x", b"y", b"z"] {
        assert!(rt; inst.variables() < 3);
        inst.add_variable(name)?;
    }
    for constraint in constraints {
        if let Some((relation, scope)) = *constraint {
            assert!(rt; relation < lang.len());
            add_constraint(
                rt,
                &mut inst,
                relation,
                lang.relation(relation).arity(),
                scope,
            )?;
        }
    }
    Ok(inst)
}

fn add_constraint(
    rt: &impl Abort,
    inst: &mut Instance,
    relation: u32,
    arity: u32,
    number: u32,
) -> Result<(), Fail> {
    let mut scope = [0u32; 6];
    let mut rest = number;
    for x in scope.iter_mut() {
        *x = rest % 3;
        rest /= 3;
    }
    let scope = scope.get(..arity as usize).ok_or("a scope")?;
    assert!(rt; !scope.is_empty() && scope.iter().all(|x| *x < inst.variables()));
    assert!(rt; inst.constraints() < 3);
    inst.add_constraint(relation, scope)?;
    Ok(())
}

/// Whether the answer is a solution, or a valid log, a valid combination or No with sizes where the list
/// of all assignments has no solution, and sizes are those that are counted over the list.
fn is_answered(
    alloc: Global,
    lang: &Language,
    inst: &Instance,
    classes: &Classes,
) -> Result<bool, NoMemory>
    requires fits { Fits lang.now inst.now }
    requires three { length inst.now.variables ≡ 3 }
    requires few { length inst.now.constraints ≤ 3 }
    requires lines { AreLines lang.now classes.now }
{
    Ok(match answer(alloc, lang, inst, classes)? {
        InstanceAnswer::Yes(values) => is_solution(lang, inst, values.as_slice()),
        InstanceAnswer::NoLog(log) => {
            check_log(lang, inst, &log).is_ok() && !has_solution(lang, inst)
        }
        InstanceAnswer::NoSum(combination) => {
            check_combination(lang, inst, &combination).is_ok() && !has_solution(lang, inst)
        }
        InstanceAnswer::YesSizes(values, sizes) => {
            is_solution(lang, inst, values.as_slice())
                && are_sizes(alloc, lang, inst, sizes.as_slice())?
        }
        InstanceAnswer::NoSizes(sizes) => {
            !has_solution(lang, inst) && are_sizes(alloc, lang, inst, sizes.as_slice())?
        }
        InstanceAnswer::Undecided => false,
    })
}

/// Whether the values are a solution.
fn is_solution(lang: &Language, inst: &Instance, values: &[u8]) -> bool
    requires fits { Fits lang.now inst.now }
{
    let size = lang.domain().size();
    values.len() == inst.variables() as usize
        && values.iter().all(|value| *value < size)
        && inst.is_solution(lang, values)
}

/// Whether one of all assignments is a solution.
fn has_solution(lang: &Language, inst: &Instance) -> bool
    requires fits { Fits lang.now inst.now }
    requires three { length inst.now.variables ≡ 3 }
{
    let d = lang.domain();
    let Some(count) = cells(d, 3) else {
        return false;
    };
    for cell in 0..count {
        let values = [
            digit(d, 3, cell, 0),
            digit(d, 3, cell, 1),
            digit(d, 3, cell, 2),
        ];
        if inst.is_solution(lang, &values) {
            return true;
        }
    }
    false
}
