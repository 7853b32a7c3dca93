ghost use Rattle.std.specs.Prelude.{◌≡◌, ◌-◌, ◌<◌, length, drop, true, false, IfOk};
ghost use Rattle.pol_base.specs.Tuples.{IsTuple};
ghost use Rattle.pol_relation.specs.Relations.{last_of, names_of};
ghost use Rattle.pol_base.specs.Lists.{is_among};
ghost use Rattle.pol_text.specs.Lines.{is_name};
ghost use Rattle.pol_lang.specs.Grammar.{begun_relation, relation_line, tuple_line, with_tuple, language_line, in_language, values_of};
ghost use Rattle.pol_text.specs.Reading.{Gives};
ghost use Rattle.pol_lang.specs.Reading.{Changes};

use crate::File;
use crate::entries::{behind_keyword, token};
use crate::limits::{MOST_PLACES, MOST_RELATIONS, MOST_TUPLES, MOST_WEIGHT};
use pol_base::{Domain, Values};
use pol_relation::{Language, Relation};
use pol_text::{Line, LineFail, Tokens, Word, is_name, number};
use std::alloc::Global;

/// A relation, or a tuple of the last relation.
#[tactic(auto, unfolding(crate::specs::Grammar::language_line))]
pub(crate) fn language_line(alloc: Global, file: &mut File, line: &Line<'_>) -> Result<(), LineFail>
    requires no_instances { length file.old.instances ≡ 0 }
    ensures changes { Changes result file.new
        (in_language file.old (language_line file.old.language line.now.tokens)) }
{
    if line.begins_with(b"relation") {
        return relation_line(alloc, file, line);
    }
    if line.begins_with(b"tuple") && 0 < file.lang().len() {
        return tuple_line(alloc, file, line);
    }
    Err(LineFail::Refused(Word::BadLine))
}

/// `relation NAME ARITY`, which begins a relation without rows.
#[tactic(auto, unfolding(crate::specs::Grammar::relation_line))]
fn relation_line(alloc: Global, file: &mut File, line: &Line<'_>) -> Result<(), LineFail>
    requires no_instances { length file.old.instances ≡ 0 }
    ensures changes { Changes result file.new
        (in_language file.old (relation_line file.old.language line.now.tokens)) }
{
    if line.count() != 3 {
        return Err(LineFail::Refused(Word::BadLine));
    }
    let name = token(line, 1);
    if !is_name(name) {
        return Err(LineFail::Refused(Word::BadName));
    }
    if has_relation(file.lang(), name) {
        return Err(LineFail::Refused(Word::RepeatedName));
    }
    match number(token(line, 2)) {
        Some(arity) => begin_relation(alloc, file, name, arity),
        None => Err(LineFail::Refused(Word::BadNumber)),
    }
}

/// Begins a relation under a name that is not there.
#[tactic(auto, unfolding(crate::specs::Grammar::begun_relation))]
fn begin_relation(alloc: Global, file: &mut File, name: &[u8], arity: u32) -> Result<(), LineFail>
    requires no_instances { length file.old.instances ≡ 0 }
    requires name { is_name name.now ≡ true }
    requires new_name { is_among (names_of file.old.language) name.now ≡ false }
    ensures changes { Changes result file.new
        (in_language file.old (begun_relation file.old.language name.now arity)) }
{
    if arity < 1 || MOST_PLACES < arity {
        return Err(LineFail::Refused(Word::BadArity));
    }
    if MOST_RELATIONS <= file.lang().len() {
        return Err(LineFail::Refused(Word::TooManyRelations));
    }
    if MOST_WEIGHT < file.subsets_with(arity) {
        return Err(LineFail::Refused(Word::SubsetLimit));
    }
    file.begin_relation(alloc, name, arity)?;
    Ok(())
}

/// Whether a relation of the language has the name.
fn has_relation(language: &Language, name: &[u8]) -> bool
    ensures name { result ≡ is_among (names_of language.now) name.now }
{
    language.find(name).is_some()
}

/// `tuple V1 .. Vn`, which belongs to the last relation.
#[tactic(auto, unfolding(crate::specs::Grammar::tuple_line))]
fn tuple_line(alloc: Global, file: &mut File, line: &Line<'_>) -> Result<(), LineFail>
    requires no_instances { length file.old.instances ≡ 0 }
    requires some { 0 < length file.old.language.relations }
    ensures changes { Changes result file.new
        (in_language file.old (tuple_line file.old.language line.now.tokens)) }
{
    let arity = file.last_relation().arity() as usize;
    let given = line.count().saturating_sub(1);
    if given < arity {
        return Err(LineFail::Refused(Word::ShortTuple));
    }
    if arity < given {
        return Err(LineFail::Refused(Word::LongTuple));
    }
    let tuple = values_behind_keyword(alloc, file.lang().domain(), line)?;
    add_tuple(file, tuple.as_slice())
}

/// Adds the tuple to the last relation, where it is new.
#[tactic(auto, unfolding(crate::specs::Grammar::with_tuple))]
fn add_tuple(file: &mut File, tuple: &[u8]) -> Result<(), LineFail>
    requires no_instances { length file.old.instances ≡ 0 }
    requires some { 0 < length file.old.language.relations }
    requires tuple { IsTuple (last_of file.old.language).domain (last_of file.old.language).arity tuple.now }
    ensures changes { Changes result file.new
        (in_language file.old (with_tuple file.old.language tuple.now)) }
{
    let last = file.last_relation();
    if is_row(last, tuple) {
        return Ok(());
    }
    if MOST_TUPLES <= last.len() {
        return Err(LineFail::Refused(Word::TooManyTuples));
    }
    if MOST_WEIGHT < file.triples_with_row() {
        return Err(LineFail::Refused(Word::TripleLimit));
    }
    file.insert(tuple)?;
    Ok(())
}

/// Whether the tuple is a row.
fn is_row(relation: &Relation, tuple: &[u8]) -> bool
    requires tuple { IsTuple relation.now.domain relation.now.arity tuple.now }
    ensures row { result ≡ is_among relation.now.rows tuple.now }
{
    relation.has(tuple)
}

/// The values that the tokens behind the keyword write.
fn values_behind_keyword(alloc: Global, d: Domain, line: &Line<'_>) -> Result<Values, LineFail>
    ensures values { Gives result (values_of d (drop 1 line.now.tokens)) }
    ensures tuple { IfOk result (IsTuple d (length line.now.tokens - 1)) }
{
    values(alloc, d, behind_keyword(line))
}

/// The values that the tokens write, judged from left to right.
fn values(alloc: Global, d: Domain, tokens: Tokens<'_>) -> Result<Values, LineFail>
    ensures values { Gives result (values_of d tokens.entry) }
    ensures tuple { IfOk result (IsTuple d (length tokens.entry)) }
{
    let mut values = Values::new(alloc);
    for token in tokens {
        let Some(value) = number(token) else {
            return Err(LineFail::Refused(Word::BadNumber));
        };
        if u32::from(d.size()) <= value {
            return Err(LineFail::Refused(Word::ValueOutside));
        }
        values.push(value as u8)?;
    }
    Ok(values)
}
