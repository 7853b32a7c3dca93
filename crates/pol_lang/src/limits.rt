//! The limits of files, and what is within them.

ghost use Rattle.std.specs.Prelude.{◌≡◌, ◌≤◌, ◌↔◌, length, true, All, IsTrue};
ghost use Rattle.pol_text.specs.Lines.{is_name};
ghost use Rattle.pol_lang.specs.Files.{IsFileLanguage, IsFileInstance};
ghost use Rattle.pol_lang.specs.Limits.{most_tuples};

use pol_relation::{Instance, Language};
use pol_text::is_name;

pub(crate) const MOST_PLACES: u32 = 6;

pub(crate) const MOST_RELATIONS: u32 = 32;

pub(crate) const MOST_TUPLES: u32 = 128;

/// The greatest sum of |R|^3, and the greatest sum of vectors of nonempty sets.
pub(crate) const MOST_WEIGHT: u64 = 1 << 21;

pub(crate) const MOST_INSTANCES: u32 = 8;

pub(crate) const MOST_VARIABLES: u32 = 40;

pub(crate) const MOST_CONSTRAINTS: u32 = 256;

/// Whether the language is within the limits, and its relations have names.
pub(crate) fn is_file_language(lang: &Language) -> bool
    ensures fits { IsTrue result ↔ IsFileLanguage lang.now }
{
    if MOST_RELATIONS < lang.len() {
        return false;
    }
    if MOST_WEIGHT < lang.weight(3) {
        return false;
    }
    if MOST_WEIGHT < lang.subset_weight() {
        return false;
    }
    if !has_small_relations(lang) {
        return false;
    }
    has_named_relations(lang)
}

fn has_small_relations(lang: &Language) -> bool
    ensures small { IsTrue result ↔ All (λ named. length named.relation.rows ≤ most_tuples) lang.now.relations }
{
    (0..lang.len()).all(|i| lang.relation(i).len() <= MOST_TUPLES)
}

fn has_named_relations(lang: &Language) -> bool
    ensures named { IsTrue result ↔ All (λ named. is_name named.name ≡ true) lang.now.relations }
{
    (0..lang.len()).all(|i| is_name(lang.name(i)))
}

/// Whether the instance fits the language, is within the limits, and it and its variables have names.
pub(crate) fn is_file_instance(lang: &Language, inst: &Instance) -> bool
    ensures fits { IsTrue result ↔ IsFileInstance lang.now inst.now }
{
    let variables = inst.variables();
    if variables < 1 {
        return false;
    }
    if MOST_VARIABLES < variables {
        return false;
    }
    if MOST_CONSTRAINTS < inst.constraints() {
        return false;
    }
    if !is_name(inst.name()) {
        return false;
    }
    if !has_named_variables(inst) {
        return false;
    }
    inst.fits(lang)
}

fn has_named_variables(inst: &Instance) -> bool
    ensures named { IsTrue result ↔ All (λ x. is_name x ≡ true) inst.now.variables }
{
    (0..inst.variables()).all(|i| is_name(inst.variable(i)))
}
