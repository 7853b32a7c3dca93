ghost use Rattle.std.specs.Prelude.{◌≡◌, drop};
ghost use Rattle.pol_text.specs.Lines.{token_at};
ghost use Rattle.pol_text.specs.Reading.{end_line, Judges};
ghost use Rattle.pol_lang.specs.Grammar.{header_line, domain_line, entry_line};
ghost use Rattle.pol_lang.specs.Reading.{Changes};

use crate::File;
use crate::instance_lines::{constraint_line, instance_line};
use crate::language_lines::language_line;
use pol_base::Domain;
use pol_text::{Line, LineFail, Tokens, Word, number};
use std::alloc::Global;

/// The token at a place, and no byte where there is none.
pub(crate) fn token<'a>(line: &Line<'a>, i: usize) -> &'a [u8]
    ensures token { result.now ≡ token_at line.now.tokens i }
{
    match line.token(i) {
        Some(token) => token,
        None => b"",
    }
}

/// The tokens behind the first one.
pub(crate) fn behind_keyword<'a>(line: &Line<'a>) -> Tokens<'a>
    ensures tokens { result ≡ drop 1 line.now.tokens }
{
    let mut tokens = line.tokens();
    let _keyword = tokens.next();
    tokens
}

/// The tokens behind the first two.
pub(crate) fn behind_name<'a>(line: &Line<'a>) -> Tokens<'a>
    ensures tokens { result ≡ drop 2 line.now.tokens }
{
    let mut tokens = behind_keyword(line);
    let _name = tokens.next();
    tokens
}

/// `polyanna 1`, which gives the version.
#[tactic(auto, unfolding(crate::specs::Grammar::header_line))]
pub(crate) fn header_line(line: &Line<'_>) -> Result<u32, Word>
    ensures judged { Judges result (header_line line.now.tokens) }
{
    if !line.begins_with(b"polyanna") {
        return Err(Word::NoHeader);
    }
    if line.count() != 2 {
        return Err(Word::BadVersion);
    }
    match number(token(line, 1)) {
        Some(1) => Ok(1),
        _ => Err(Word::BadVersion),
    }
}

/// `domain N`.
#[tactic(auto, unfolding(crate::specs::Grammar::domain_line))]
pub(crate) fn domain_line(line: &Line<'_>) -> Result<Domain, Word>
    ensures judged { Judges result (domain_line line.now.tokens) }
{
    if !line.begins_with(b"domain") {
        return Err(Word::BadLine);
    }
    if line.count() != 2 {
        return Err(Word::BadLine);
    }
    match number(token(line, 1)) {
        Some(size) => Domain::new(size).ok_or(Word::BadDomain),
        None => Err(Word::BadNumber),
    }
}

/// `end` alone.
pub(crate) fn end_line(line: &Line<'_>) -> Result<u32, Word>
    ensures judged { Judges result (end_line line.now.tokens) }
{
    if line.count() == 1 {
        Ok(1)
    } else {
        Err(Word::BadLine)
    }
}

/// An instance, a constraint of the last instance, or before the first instance a line of the language.
#[tactic(auto, unfolding(crate::specs::Grammar::entry_line))]
pub(crate) fn entry_line(alloc: Global, file: &mut File, line: &Line<'_>) -> Result<(), LineFail>
    ensures changes { Changes result file.new (entry_line file.old line.now.tokens) }
{
    if line.begins_with(b"instance") {
        return instance_line(alloc, file, line);
    }
    let instances = file.instances();
    if line.begins_with(b"constraint") {
        if instances == 0 {
            return Err(LineFail::Refused(Word::BadLine));
        }
        return constraint_line(alloc, file, line);
    }
    if instances != 0 {
        return Err(LineFail::Refused(Word::BadLine));
    }
    language_line(alloc, file, line)
}
