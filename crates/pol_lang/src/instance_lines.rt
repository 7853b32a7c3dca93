ghost use Rattle.std.specs.Prelude.{◌≡◌, ◌<◌, ◌≤◌, [], length, not, true, All, IfOk, Ok};
ghost use Rattle.pol_relation.specs.Relations.{LanguageView, names_of};
ghost use Rattle.pol_relation.specs.Instances.{FitsAt, with_variable};
ghost use Rattle.pol_text.specs.declared.word.Word.TheVariants.{BadName, RepeatedName};
ghost use Rattle.pol_text.specs.Lines.{is_name};
ghost use Rattle.pol_lang.specs.Files.{IsFileInstance, instance_names, begun_instance, last_instance};
ghost use Rattle.pol_lang.specs.Limits.{most_variables};
ghost use Rattle.pol_lang.specs.Grammar.{instance_line, constraint_line, after_names, names_of_tokens, scope_of, with_scope};
ghost use Rattle.pol_text.specs.Reading.{unless, Gives};
ghost use Rattle.pol_base.specs.Lists.{is_among};
ghost use Rattle.pol_lang.specs.Reading.{Changes};

use crate::File;
use crate::entries::{behind_name, token};
use crate::limits::{MOST_CONSTRAINTS, MOST_INSTANCES, MOST_VARIABLES};
use pol_base::Numbers;
use pol_relation::{AddFault, Instance, Language};
use pol_text::{Line, LineFail, Tokens, Word, is_name};
use std::alloc::Global;

/// `instance NAME X1 .. Xn`, which begins an instance without constraints.
#[tactic(auto, unfolding(crate::specs::Grammar::instance_line))]
pub(crate) fn instance_line(alloc: Global, file: &mut File, line: &Line<'_>) -> Result<(), LineFail>
    ensures changes { Changes result file.new (instance_line file.old line.now.tokens) }
{
    let count = line.count();
    if count < 3 {
        return Err(LineFail::Refused(Word::BadLine));
    }
    let name = token(line, 1);
    if !is_name(name) {
        return Err(LineFail::Refused(Word::BadName));
    }
    if has_instance(file, name) {
        return Err(LineFail::Refused(Word::RepeatedName));
    }
    if MOST_INSTANCES <= file.instances() {
        return Err(LineFail::Refused(Word::TooManyInstances));
    }
    if (MOST_VARIABLES as usize) < count - 2 {
        return Err(LineFail::Refused(Word::TooManyVariables));
    }
    let inst = begun_instance(alloc, name, behind_name(line))?;
    file.push(inst)?;
    Ok(())
}

/// Whether an instance of the file has the name.
fn has_instance(file: &File, name: &[u8]) -> bool
    ensures name { result ≡ is_among (instance_names file.now) name.now }
{
    file.find_instance(name).is_some()
}

/// The instance without constraints whose variables have the tokens as their names, judged from left to right.
fn begun_instance(alloc: Global, name: &[u8], tokens: Tokens<'_>) -> Result<Instance, LineFail>
    requires name { is_name name.now ≡ true }
    requires some { 1 ≤ length tokens }
    requires few { length tokens ≤ most_variables }
    ensures instance { Gives result (after_names (names_of_tokens [] tokens.entry)
        (λ variables. Ok (begun_instance name.now variables))) }
    ensures name { IfOk result (λ inst. inst.name ≡ name.now) }
    // Without constraints it fits any language.
    ensures fits { IfOk result (λ inst. (lang : LanguageView) → IsFileInstance lang inst) }
{
    let mut inst = Instance::new(alloc, name)?;
    for token in tokens {
        add_variable(&mut inst, token)?;
    }
    Ok(inst)
}

/// Adds a variable whose name is the token.
fn add_variable(inst: &mut Instance, token: &[u8]) -> Result<(), LineFail>
    requires room { length inst.old.variables < 4096 }
    ensures changes { Changes result inst.new
        (unless (is_name token.now) BadName
        (unless (not (is_among inst.old.variables token.now)) RepeatedName
        (Ok (with_variable inst.old token.now)))) }
{
    if !is_name(token) {
        return Err(LineFail::Refused(Word::BadName));
    }
    match inst.add_variable(token) {
        Ok(_number) => Ok(()),
        Err(AddFault::Repeated) => Err(LineFail::Refused(Word::RepeatedName)),
        Err(AddFault::NoMemory) => Err(LineFail::NoMemory),
    }
}

/// `constraint RELATION X1 .. Xn`, which belongs to the last instance.
#[tactic(auto, unfolding(crate::specs::Grammar::constraint_line))]
pub(crate) fn constraint_line(
    alloc: Global,
    file: &mut File,
    line: &Line<'_>,
) -> Result<(), LineFail>
    requires some { 0 < length file.old.instances }
    ensures changes { Changes result file.new (constraint_line file.old line.now.tokens) }
{
    let count = line.count();
    if count < 2 {
        return Err(LineFail::Refused(Word::BadLine));
    }
    let language = file.lang();
    let Some(relation) = language.find(token(line, 1)) else {
        return Err(LineFail::Refused(Word::UnknownRelation));
    };
    if count - 2 != language.relation(relation).arity() as usize {
        return Err(LineFail::Refused(Word::BadArity));
    }
    let scope = scope(alloc, file.last_instance(), behind_name(line))?;
    add_constraint(file, relation, scope.as_slice())
}

/// Adds the constraint to the last instance, where there is room.
#[tactic(auto, unfolding(crate::specs::Grammar::with_scope))]
fn add_constraint(file: &mut File, relation: u32, scope: &[u32]) -> Result<(), LineFail>
    requires some { 0 < length file.old.instances }
    requires fits { FitsAt file.old.language (length (last_instance file.old).variables)
        (record { relation = relation; scope = scope.now }) }
    ensures changes { Changes result file.new (with_scope file.old relation scope.now) }
{
    if MOST_CONSTRAINTS <= file.last_instance().constraints() {
        return Err(LineFail::Refused(Word::TooManyConstraints));
    }
    file.add_constraint(relation, scope)?;
    Ok(())
}

/// The numbers of the variables that the tokens name, judged from left to right.
fn scope(alloc: Global, inst: &Instance, tokens: Tokens<'_>) -> Result<Numbers, LineFail>
    ensures scope { Gives result (scope_of inst.now.variables tokens.entry) }
    ensures long { IfOk result (λ scope. length scope ≡ length tokens.entry) }
    ensures below { IfOk result (All (λ x. x < length inst.now.variables)) }
{
    let mut scope = Numbers::new(alloc);
    for token in tokens {
        let Some(variable) = inst.find_variable(token) else {
            return Err(LineFail::Refused(Word::UnknownVariable));
        };
        scope.push(variable)?;
    }
    Ok(scope)
}
