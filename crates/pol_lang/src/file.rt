ghost use Rattle.std.specs.Prelude.{◌≡◌, ℕ, ◌-◌, ◌^◌, ◌<◌, ◌≤◌, ◌↔◌, List, [], length, Contains, true, IfSome, IfNone, IsSome, OnOk, OnErr, IsErrOf, IsTrue};
ghost use Rattle.pol_base.specs.Tuples.{IsTuple};
ghost use Rattle.pol_base.specs.Lists.{place_in};
ghost use Rattle.pol_relation.specs.Relations.{last_of, names_of, with_relation, with_last_row};
ghost use Rattle.pol_relation.specs.Instances.{FitsAt};
ghost use Rattle.pol_text.specs.Lines.{is_name};
ghost use Rattle.pol_lang.specs.Files.{FileView, IsFile, IsFileLanguage, CanTake, instance_names, instance_of, last_instance, with_empty_relation, with_language, with_instance, with_last_constraint};
ghost use Rattle.pol_relation.specs.Weights.{weight_of, most_weight};
ghost use Rattle.pol_lang.specs.Limits.{most_relations, most_tuples, most_instances, most_constraints};
ghost use Rattle.pol_lang.specs.Grammar.{begun_file, subsets_with};

use crate::limits::{MOST_INSTANCES, is_file_instance, is_file_language};
use pol_base::{Domain, NoMemory};
use pol_relation::{AddFault, Instance, Language, Relation};
use std::alloc::Global;
use std::marker::Model;

/// What a text of version 1 holds: a language within the limits, whose relations have names, and at most
/// eight instances over it, with names of their own. docs/FORMATS.md has the limits.
#[derive(Drop)]
pub struct File {
    language: Language,
    instances: Vec<Instance>,
}

impl Model for File {
    ghost Value = { FileView };

    ghost view = { λ f. record { language = f.language; instances = f.instances.items } };

    ghost invariant = { λ f. IsFile (record { language = f.language; instances = f.instances.items }) };
}

/// Why an instance was not added.
#[derive(Clone, Copy, Debug, PartialEq, Eq)]
pub enum FileFault {
    /// The instance is none that the file can take; `File::add` says which are.
    Unfit,
    NoMemory,
}

impl From<NoMemory> for FileFault {
    ghost use Rattle.std.specs.Prelude.{◌≡◌};
    ghost use Rattle.pol_lang.specs.declared.file.FileFault.TheVariants.{NoMemory as OutOfMemory};

    ghost from_gives = { λ _ e. e ≡ OutOfMemory };

    fn from(_error: NoMemory) -> FileFault {
        FileFault::NoMemory
    }
}

impl File {
    /// The file of the language without instances. None exactly where the language exceeds a limit
    /// or one of its relations has no name; the language is then dropped. Takes no memory.
    pub fn new(alloc: Global, lang: Language) -> Option<File>
        ensures made { IfSome result (λ file. file ≡ record { language = lang; instances = [] }) }
        ensures fits { IsSome result ↔ IsFileLanguage lang }
    {
        if !is_file_language(&lang) {
            return None;
        }
        Some(File {
            language: lang,
            instances: Vec::new(alloc),
        })
    }

    /// Adds an instance. `Unfit` exactly where it does not fit the language, is not within the limits, has a
    /// name or a variable that is no name, has the name of an instance that is there, or the file is full.
    /// An instance that is not added is dropped.
    pub fn add(&mut self, inst: Instance) -> Result<(), FileFault>
        ensures ok { OnOk result (self.new ≡ with_instance self.old inst) }
        ensures fits { OnOk result (CanTake self.old inst) }
        ensures unfit { IsErrOf result FileFault.Unfit ↔ ¬ CanTake self.old inst }
        ensures no_memory { IsErrOf result FileFault.NoMemory → CanTake self.old inst }
        ensures err { OnErr result (self.new ≡ self.old) }
    {
        if !self.can_take(&inst) {
            return Err(FileFault::Unfit);
        }
        self.push(inst)?;
        Ok(())
    }

    pub fn lang(&self) -> &Language
        ensures language { result.now ≡ self.now.language }
        ensures file { IsFile self.now }
    {
        &self.language
    }

    /// How many instances there are.
    pub fn instances(&self) -> u32
        ensures count { result ≡ length self.now.instances }
        ensures few { result ≤ most_instances }
        ensures file { IsFile self.now }
    {
        self.instances.len() as u32
    }

    /// The instance with the number `i`.
    pub fn instance(&self, i: u32) -> &Instance
        requires known { i < length self.now.instances }
        ensures instance { result.now ≡ instance_of self.now i }
    {
        &self.instances[i as usize]
    }

    /// The number of the instance that has the name. None exactly where no instance has it.
    pub fn find_instance(&self, name: &[u8]) -> Option<u32>
        ensures place { result ≡ place_in (instance_names self.now) name.now }
        ensures known { IfSome result (λ i. i < length self.now.instances) }
        ensures found { IfSome result (λ i. (instance_of self.now i).name ≡ name.now) }
        ensures none { IfNone result (¬ Contains (instance_names self.now) name.now) }
    {
        for i in 0..self.instances() {
            if self.instance(i).name() == name {
                return Some(i);
            }
        }
        None
    }

    /// Whether the instance fits, its name is new, and there is room for it.
    fn can_take(&self, inst: &Instance) -> bool
        ensures can_take { IsTrue result ↔ CanTake self.now inst.now }
    {
        if MOST_INSTANCES <= self.instances() {
            return false;
        }
        if self.find_instance(inst.name()).is_some() {
            return false;
        }
        is_file_instance(self.lang(), inst)
    }
}

/// What the reader makes a file by.
impl File {
    /// The file without relations and instances. Takes no memory.
    pub(crate) fn begin(alloc: Global, d: Domain) -> File
        ensures begun { result ≡ begun_file d }
    {
        // for its clause that a domain has 1 to 5 values
        let _size = d.size();
        File {
            language: Language::new(alloc, d),
            instances: Vec::new(alloc),
        }
    }

    /// The instance that was added last.
    pub(crate) fn last_instance(&self) -> &Instance
        requires some { 0 < length self.now.instances }
        ensures instance { result.now ≡ last_instance self.now }
    {
        self.instance(self.instances() - 1)
    }

    /// The relation that was begun last.
    pub(crate) fn last_relation(&self) -> &Relation
        requires some { 0 < length self.now.language.relations }
        ensures relation { result.now ≡ last_of self.now.language }
        ensures file { IsFile self.now }
    {
        let language = self.lang();
        language.relation(language.len() - 1)
    }

    /// The sum of the vectors of sets, with a relation more of this arity.
    pub(crate) fn subsets_with(&self, arity: u32) -> u64
        requires few_places { arity ≤ 6 }
        ensures subsets { result ≡ subsets_with self.now.language arity }
    {
        let language = self.lang();
        language.subset_weight() + set_vectors(language.domain(), arity)
    }

    /// The sum of the cubes, with a row more of the last relation.
    pub(crate) fn triples_with_row(&self) -> u64
        requires some { 0 < length self.now.language.relations }
        ensures triples { (t : List ℕ)
            → IsTuple (last_of self.now.language).domain (last_of self.now.language).arity t
            → ¬ Contains (last_of self.now.language).rows t
            → result ≡ weight_of 3 (with_last_row self.now.language t).relations }
    {
        let rows = u64::from(self.last_relation().len());
        self.lang().weight(3) + 3 * rows * (rows + 1) + 1
    }

    /// Begins a relation, without rows, under a name that is not there.
    pub(crate) fn begin_relation(
        &mut self,
        alloc: Global,
        name: &[u8],
        arity: u32,
    ) -> Result<(), NoMemory>
        requires no_instances { length self.old.instances ≡ 0 }
        requires name { is_name name.now ≡ true }
        requires new_name { ¬ Contains (names_of self.old.language) name.now }
        requires some_places { 1 ≤ arity }
        requires few_places { arity ≤ 6 }
        requires room { length self.old.language.relations < most_relations }
        requires few_subsets { subsets_with self.old.language arity ≤ most_weight }
        ensures ok { OnOk result (self.new
            ≡ with_language self.old (with_empty_relation self.old.language name.now arity)) }
        ensures err { OnErr result (self.new ≡ self.old) }
    {
        let relation = Relation::new(alloc, self.language.domain(), arity);
        add_relation(&mut self.language, name, relation)?;
        Ok(())
    }

    /// Adds a tuple that is not there to the last relation.
    pub(crate) fn insert(&mut self, tuple: &[u8]) -> Result<(), NoMemory>
        requires no_instances { length self.old.instances ≡ 0 }
        requires some { 0 < length self.old.language.relations }
        requires tuple { IsTuple (last_of self.old.language).domain (last_of self.old.language).arity tuple.now }
        requires new_tuple { ¬ Contains (last_of self.old.language).rows tuple.now }
        requires few_tuples { length (last_of self.old.language).rows < most_tuples }
        requires few_triples { weight_of 3 (with_last_row self.old.language tuple.now).relations ≤ most_weight }
        ensures ok { OnOk result (self.new ≡ with_language self.old (with_last_row self.old.language tuple.now)) }
        ensures err { OnErr result (self.new ≡ self.old) }
    {
        self.language.insert(tuple)?;
        Ok(())
    }

    /// Adds an instance that the file can take.
    pub(crate) fn push(&mut self, inst: Instance) -> Result<(), NoMemory>
        requires can_take { CanTake self.old inst }
        ensures ok { OnOk result (self.new ≡ with_instance self.old inst) }
        ensures err { OnErr result (self.new ≡ self.old) }
    {
        self.instances.push(inst)?;
        Ok(())
    }

    /// Adds a constraint to the last instance.
    pub(crate) fn add_constraint(&mut self, relation: u32, scope: &[u32]) -> Result<(), NoMemory>
        requires some { 0 < length self.old.instances }
        requires fits { FitsAt self.old.language (length (last_instance self.old).variables)
            (record { relation = relation; scope = scope.now }) }
        requires room { length (last_instance self.old).constraints < most_constraints }
        ensures ok { OnOk result (self.new
            ≡ with_last_constraint self.old (record { relation = relation; scope = scope.now })) }
        ensures err { OnErr result (self.new ≡ self.old) }
    {
        let last = self.instances() - 1;
        let inst = &mut self.instances[last as usize];
        inst.add_constraint(relation, scope)?;
        Ok(())
    }
}

/// How many vectors of nonempty sets of values there are, one set for each of so many places.
fn set_vectors(d: Domain, places: u32) -> u64
    requires few_places { places ≤ 6 }
    ensures vectors { result ≡ (2 ^ d - 1) ^ places }
    ensures few { result ≤ 31 ^ 6 }
{
    let sets = 2u64.pow(u32::from(d.size())) - 1;
    sets.pow(places)
}

/// Adds the relation under a name that is not there.
fn add_relation(language: &mut Language, name: &[u8], relation: Relation) -> Result<(), NoMemory>
    requires new_name { ¬ Contains (names_of language.old) name.now }
    requires domain { relation.domain ≡ language.old.domain }
    requires room { length language.old.relations < 4096 }
    ensures ok { OnOk result (language.new ≡ with_relation language.old name.now relation) }
    ensures err { OnErr result (language.new ≡ language.old) }
{
    match language.add(name, relation) {
        Ok(_) | Err(AddFault::Repeated) => Ok(()),
        Err(AddFault::NoMemory) => Err(NoMemory),
    }
}

/// Where a file ends in its text: the place behind its `end` line, its LF included, and the number of the
/// line that begins there. A report of the file may begin there.
#[derive(Clone, Copy, Debug, PartialEq, Eq)]
pub struct Rest {
    pub place: usize,
    pub line: u32,
}
