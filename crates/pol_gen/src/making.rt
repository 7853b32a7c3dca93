ghost use Rattle.std.specs.Prelude.{◌≡◌, ◌==◌, ◌<◌, ◌≤◌, ◌++◌, length, Contains, IfOk, OnOk, []};
ghost use Rattle.std.specs.List.{filter, list_any};
ghost use Rattle.std.specs.Fmt.{decimal};
ghost use Rattle.pol_base.specs.Tuples.{IsTuple};
ghost use Rattle.pol_relation.specs.Instances.{FitsAt, with_variable};
ghost use Rattle.pol_lang.specs.Files.{IsFile, CanTake, with_instance};
ghost use Rattle.pol_gen.specs.Draws.{draw_constraints};
ghost use Rattle.pol_gen.specs.Kinds.{kind_of, language_of, contradiction};
ghost use Rattle.pol_gen.specs.Files.{instance_with, unsolvable, tries, is_met, draw_instance, draw_planted, draw_free, made_file, with_constraints, HaveTheirHiddenSolutions, HaveNoSolution};

use crate::draws::{Constraint, Draws};
use crate::kinds::Kind;
use pol_base::{NoMemory, Values};
use pol_lang::{File, FileFault};
use pol_relation::{AddFault, Instance, Language};
use pol_text::put_number;
use std::alloc::Global;

const INSTANCES: u32 = 8;

const PLANTED: u32 = 6;

const TRIES: u32 = 60;

const MOST_PLACES: usize = 6;

/// The file that the number makes: eight instances over the language of its kind, the number modulo 5. Of the
/// first six every other has hidden values as a solution, and the others have no solution. An instance has 20
/// variables at kind 3, and else 40. docs/FORMATS.md has the rules.
pub fn make(alloc: Global, number: u64) -> Result<File, NoMemory>
    ensures made { IfOk result (λ file. file ≡ made_file number) }
    ensures file { IfOk result IsFile }
    ensures eight { IfOk result (λ file. length file.instances ≡ 8) }
    ensures solved { IfOk result (HaveTheirHiddenSolutions number) }
    ensures unsolvable { IfOk result HaveNoSolution }
{
    let kind = Kind::of(number);
    let language = kind.language(alloc)?;
    // for its clause that it is a language
    let _relations = language.len();
    let mut file = File::new(alloc, language).unwrap();
    let mut draws = Draws::new(number);
    for i in 0..INSTANCES {
        let inst = make_instance(alloc, file.lang(), number, i, &mut draws)?;
        // for its clause that scopes are of its variables
        let _variables = inst.variables();
        add(&mut file, inst)?;
    }
    // for its clause that a file is within the limits
    let _instances = file.instances();
    Ok(file)
}

/// Adds an instance that the file can take.
fn add(file: &mut File, inst: Instance) -> Result<(), NoMemory>
    requires can_take { CanTake file.old inst }
    ensures ok { OnOk result (file.new ≡ with_instance file.old inst) }
{
    match file.add(inst) {
        Ok(()) | Err(FileFault::Unfit) => Ok(()),
        Err(FileFault::NoMemory) => Err(NoMemory),
    }
}

/// The instance with the number `i`.
#[tactic(auto, unfolding(crate::specs::Files::draw_instance))]
fn make_instance(
    alloc: Global,
    lang: &Language,
    number: u64,
    i: u32,
    draws: &mut Draws,
) -> Result<Instance, NoMemory>
    requires language { lang.now ≡ language_of (kind_of number) }
    ensures made { IfOk result (λ inst. inst ≡ (draw_instance number i draws.old).drawn) }
    ensures state { OnOk result (draws.new ≡ (draw_instance number i draws.old).state) }
{
    let kind = Kind::of(number);
    if i < PLANTED {
        planted(alloc, lang, kind, i, draws)
    } else {
        free(alloc, lang, kind, (number / 5 % 61) as u32, i, draws)
    }
}

/// The instance of the constraints that its hidden values meet, and of those that leave no solution
/// where it is to have none.
fn planted(
    alloc: Global,
    lang: &Language,
    kind: Kind,
    i: u32,
    draws: &mut Draws,
) -> Result<Instance, NoMemory>
    requires language { lang.now ≡ language_of kind }
    ensures made { IfOk result (λ inst. inst ≡ (draw_planted kind i draws.old).drawn) }
    ensures state { OnOk result (draws.new ≡ (draw_planted kind i draws.old).state) }
{
    let mut inst = begin(alloc, kind, i)?;
    let hidden = draws.draw_values(alloc, kind.variables(), lang.domain())?;
    add_met(alloc, &mut inst, lang, hidden.as_slice(), draws)?;
    if is_unsolvable(i) {
        contradict(&mut inst, kind)?;
    }
    Ok(inst)
}

/// The instance of so many constraints, whatever they are.
fn free(
    alloc: Global,
    lang: &Language,
    kind: Kind,
    count: u32,
    i: u32,
    draws: &mut Draws,
) -> Result<Instance, NoMemory>
    requires language { lang.now ≡ language_of kind }
    requires few { count ≤ 60 }
    ensures made { IfOk result (λ inst. inst ≡ (draw_free kind count i draws.old).drawn) }
    ensures state { OnOk result (draws.new ≡ (draw_free kind count i draws.old).state) }
{
    let mut inst = begin(alloc, kind, i)?;
    add_drawn(alloc, &mut inst, lang, count, draws)?;
    Ok(inst)
}

/// Whether the instance is made so that it has no solution.
fn is_unsolvable(i: u32) -> bool
    ensures unsolvable { result ≡ list_any (λ k. i == k) unsolvable }
{
    i == 1 || i == 3 || i == 5
}

/// The instance without constraints.
fn begin(alloc: Global, kind: Kind, i: u32) -> Result<Instance, NoMemory>
    ensures begun { IfOk result (λ inst. inst ≡ instance_with kind i []) }
{
    let mut inst = Instance::new(alloc, numbered(alloc, b"i", i)?.as_slice())?;
    for x in 0..kind.variables() {
        add_variable(&mut inst, numbered(alloc, b"x", x)?.as_slice())?;
    }
    Ok(inst)
}

/// The letter, and the number behind it.
fn numbered(alloc: Global, letter: &[u8], i: u32) -> Result<Values, NoMemory>
    ensures name { IfOk result (λ name. name ≡ letter.now ++ decimal i) }
{
    let mut name = Values::from_slice(alloc, letter)?;
    put_number(&mut name, u64::from(i))?;
    Ok(name)
}

/// Adds a variable with a name that is not there.
fn add_variable(inst: &mut Instance, name: &[u8]) -> Result<(), NoMemory>
    requires room { length inst.old.variables < 4096 }
    requires new_name { ¬ Contains inst.old.variables name.now }
    ensures ok { OnOk result (inst.new ≡ with_variable inst.old name.now) }
{
    match inst.add_variable(name) {
        Ok(_) | Err(AddFault::Repeated) => Ok(()),
        Err(AddFault::NoMemory) => Err(NoMemory),
    }
}

/// Draws sixty constraints, and adds those that the hidden values meet.
fn add_met(
    alloc: Global,
    inst: &mut Instance,
    lang: &Language,
    hidden: &[u8],
    draws: &mut Draws,
) -> Result<(), NoMemory>
    requires some_relations { 0 < length lang.now.relations }
    requires some_variables { 0 < length inst.old.variables }
    requires assigns { IsTuple lang.now.domain (length inst.old.variables) hidden.now }
    requires room { length inst.old.constraints ≡ 0 }
    ensures added { OnOk result (inst.new ≡ with_constraints inst.old
        (filter (is_met lang.now hidden.now)
        (draw_constraints tries lang.now (length inst.old.variables) draws.old).drawn)) }
    ensures few { OnOk result (length inst.new.constraints ≤ 60) }
    ensures state { OnOk result
        (draws.new ≡ (draw_constraints tries lang.now (length inst.old.variables) draws.old).state) }
{
    let v = inst.variables();
    for _ in 0..TRIES {
        let constraint = draws.draw_constraint(alloc, lang, v)?;
        if meets(lang, &constraint, hidden) {
            inst.add_constraint(constraint.relation(), constraint.scope())?;
        }
    }
    Ok(())
}

/// Draws so many constraints, and adds them all.
fn add_drawn(
    alloc: Global,
    inst: &mut Instance,
    lang: &Language,
    count: u32,
    draws: &mut Draws,
) -> Result<(), NoMemory>
    requires some_relations { 0 < length lang.now.relations }
    requires some_variables { 0 < length inst.old.variables }
    requires room { length inst.old.constraints ≡ 0 }
    requires few { count ≤ 60 }
    ensures added { OnOk result (inst.new ≡ with_constraints inst.old
        (draw_constraints count lang.now (length inst.old.variables) draws.old).drawn) }
    ensures state { OnOk result
        (draws.new ≡ (draw_constraints count lang.now (length inst.old.variables) draws.old).state) }
{
    let v = inst.variables();
    for _ in 0..count {
        let constraint = draws.draw_constraint(alloc, lang, v)?;
        inst.add_constraint(constraint.relation(), constraint.scope())?;
    }
    Ok(())
}

/// Whether the hidden values meet the constraint.
fn meets(lang: &Language, constraint: &Constraint, hidden: &[u8]) -> bool
    requires fits { FitsAt lang.now (length hidden.now) constraint.now }
    requires assigns { IsTuple lang.now.domain (length hidden.now) hidden.now }
    ensures met { result ≡ is_met lang.now hidden.now constraint.now }
{
    let relation = lang.relation(constraint.relation());
    let scope = constraint.scope();
    let mut tuple = [0; MOST_PLACES];
    for (place, variable) in scope.iter().enumerate() {
        tuple[place] = hidden[*variable as usize];
    }
    relation.has(&tuple[..scope.len()])
}

/// Adds constraints that leave no solution.
#[tactic(auto, unfolding(crate::specs::Kinds::contradiction, crate::specs::Kinds::language_of))]
fn contradict(inst: &mut Instance, kind: Kind) -> Result<(), NoMemory>
    requires room { length inst.old.constraints ≤ 60 }
    requires three_variables { 3 ≤ length inst.old.variables }
    ensures added { OnOk result (inst.new ≡ with_constraints inst.old (contradiction kind)) }
{
    match kind {
        Kind::Horn => {
            inst.add_constraint(2, &[0])?;
            inst.add_constraint(1, &[0])
        }
        Kind::TwoSat => {
            inst.add_constraint(0, &[0, 0])?;
            inst.add_constraint(1, &[0, 0])
        }
        Kind::Sums => {
            inst.add_constraint(0, &[0, 1, 2])?;
            inst.add_constraint(1, &[0, 1, 2])
        }
        Kind::Parity => {
            inst.add_constraint(0, &[0, 0, 0])?;
            inst.add_constraint(2, &[0])
        }
        Kind::Colours => inst.add_constraint(0, &[0, 0]),
    }
}
