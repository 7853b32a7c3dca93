ghost use Rattle.std.specs.Prelude.{◌≡◌, ℕ, ◌<◌, ◌≤◌, ◌%◌, ◌/◌, length, Contains, true, false, IfOk, OnOk, nat_lt};
ghost use Rattle.std.specs.List.{list_all};
ghost use Rattle.pol_base.specs.Lists.{is_among};
ghost use Rattle.pol_relation.specs.Relations.{names_of, tuples_in, with_relation};
ghost use Rattle.pol_gen.specs.Kinds.{ascend, kind_of, language_of, variables_of, horn_language, two_sat_language, sums_language, parity_language, colours_language};

use pol_base::{Domain, NoMemory};
use pol_relation::{AddFault, Language, Relation};
use std::alloc::Global;

/// The kind of a language.
#[derive(Clone, Copy, Debug, PartialEq, Eq)]
pub(crate) enum Kind {
    Horn,
    TwoSat,
    Sums,
    Parity,
    Colours,
}

impl Kind {
    pub(crate) fn of(number: u64) -> Kind
        ensures kind { result ≡ kind_of number }
    {
        match number % 5 {
            0 => Kind::Horn,
            1 => Kind::TwoSat,
            2 => Kind::Sums,
            3 => Kind::Parity,
            _ => Kind::Colours,
        }
    }

    /// How many variables each instance has.
    pub(crate) fn variables(self) -> u32
        ensures variables { result ≡ variables_of self }
        ensures some { 3 ≤ result }
        ensures few { result ≤ 40 }
    {
        match self {
            Kind::Horn | Kind::TwoSat | Kind::Sums | Kind::Colours => 40,
            Kind::Parity => 20,
        }
    }

    /// The language of the kind.
    #[tactic(auto, unfolding(crate::specs::Kinds::language_of))]
    pub(crate) fn language(self, alloc: Global) -> Result<Language, NoMemory>
        ensures language { IfOk result (λ lang. lang ≡ language_of self) }
    {
        match self {
            Kind::Horn => horn(alloc),
            Kind::TwoSat => two_sat(alloc),
            Kind::Sums => sums(alloc),
            Kind::Parity => parity(alloc),
            Kind::Colours => colours(alloc),
        }
    }
}

fn horn(alloc: Global) -> Result<Language, NoMemory>
    ensures language { IfOk result (λ lang. lang ≡ horn_language) }
{
    let mut lang = Language::new(alloc, Domain::new(2).unwrap());
    let triples = [
        0, 0, 0, 0, 0, 1, 0, 1, 0, 0, 1, 1, 1, 0, 0, 1, 0, 1, 1, 1, 1,
    ];
    add(&mut lang, alloc, b"h", 3, &triples)?;
    add(&mut lang, alloc, b"zero", 1, &[0])?;
    add(&mut lang, alloc, b"one", 1, &[1])?;
    Ok(lang)
}

fn two_sat(alloc: Global) -> Result<Language, NoMemory>
    ensures language { IfOk result (λ lang. lang ≡ two_sat_language) }
{
    let mut lang = Language::new(alloc, Domain::new(2).unwrap());
    add(&mut lang, alloc, b"or", 2, &[0, 1, 1, 0, 1, 1])?;
    add(&mut lang, alloc, b"nand", 2, &[0, 0, 0, 1, 1, 0])?;
    add(&mut lang, alloc, b"neq", 2, &[0, 1, 1, 0])?;
    Ok(lang)
}

fn sums(alloc: Global) -> Result<Language, NoMemory>
    ensures language { IfOk result (λ lang. lang ≡ sums_language) }
{
    let mut lang = Language::new(alloc, Domain::new(3).unwrap());
    let sum_0 = [
        0, 0, 0, 0, 1, 2, 0, 2, 1, 1, 0, 2, 1, 1, 1, 1, 2, 0, 2, 0, 1, 2, 1, 0, 2, 2, 2,
    ];
    let sum_1 = [
        0, 0, 1, 0, 1, 0, 0, 2, 2, 1, 0, 0, 1, 1, 2, 1, 2, 1, 2, 0, 2, 2, 1, 1, 2, 2, 0,
    ];
    add(&mut lang, alloc, b"s0", 3, &sum_0)?;
    add(&mut lang, alloc, b"s1", 3, &sum_1)?;
    Ok(lang)
}

fn parity(alloc: Global) -> Result<Language, NoMemory>
    ensures language { IfOk result (λ lang. lang ≡ parity_language) }
{
    let mut lang = Language::new(alloc, Domain::new(3).unwrap());
    add(
        &mut lang,
        alloc,
        b"parity",
        3,
        &[0, 0, 0, 0, 1, 1, 1, 0, 1, 1, 1, 0],
    )?;
    add(&mut lang, alloc, b"swap", 2, &[0, 1, 1, 0, 2, 2])?;
    add(&mut lang, alloc, b"two", 1, &[2])?;
    Ok(lang)
}

fn colours(alloc: Global) -> Result<Language, NoMemory>
    ensures language { IfOk result (λ lang. lang ≡ colours_language) }
{
    let mut lang = Language::new(alloc, Domain::new(3).unwrap());
    add(
        &mut lang,
        alloc,
        b"neq",
        2,
        &[0, 1, 0, 2, 1, 0, 1, 2, 2, 0, 2, 1],
    )?;
    Ok(lang)
}

/// Adds the relation of the tuples that stand one behind another in `rows`, in ascending order.
fn add(
    lang: &mut Language,
    alloc: Global,
    name: &[u8],
    arity: u32,
    rows: &[u8],
) -> Result<(), NoMemory>
    requires new_name { is_among (names_of lang.old) name.now ≡ false }
    requires room { length lang.old.relations < 4096 }
    requires some_places { 1 ≤ arity }
    requires few_places { arity ≤ 6 }
    requires whole { length rows.now % arity ≡ 0 }
    requires below { list_all (λ v. nat_lt v lang.old.domain) rows.now ≡ true }
    requires ascending { ascend (tuples_in arity (length rows.now / arity) rows.now) ≡ true }
    ensures ok { OnOk result (lang.new ≡ with_relation lang.old name.now (record {
      domain = lang.old.domain;
      arity = arity;
      rows = tuples_in arity (length rows.now / arity) rows.now;
    })) }
{
    let relation = Relation::from_rows(alloc, lang.domain(), arity, rows)?;
    add_relation(lang, name, relation)
}

/// Adds the relation under a name that is not there.
fn add_relation(lang: &mut Language, name: &[u8], relation: Relation) -> Result<(), NoMemory>
    requires new_name { ¬ Contains (names_of lang.old) name.now }
    requires room { length lang.old.relations < 4096 }
    requires domain { relation.domain ≡ lang.old.domain }
    ensures ok { OnOk result (lang.new ≡ with_relation lang.old name.now relation) }
{
    match lang.add(name, relation) {
        Ok(_) | Err(AddFault::Repeated) => Ok(()),
        Err(AddFault::NoMemory) => Err(NoMemory),
    }
}
