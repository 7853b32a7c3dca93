ghost use Rattle.std.specs.Prelude.{◌≡◌, ℕ, ◌<◌, ◌≤◌, length, IfOk, IfSome, IfNone};
ghost use Rattle.pol_relation.specs.Relations.{IsLanguage, relation_of};

use pol_base::NoMemory;
use pol_optable::{RowMarks, RowSet};
use pol_relation::Language;
use std::alloc::Global;
use std::marker::Model;

/// A language with the rows of each relation as a set of cells.
#[derive(Drop)]
pub(crate) struct RowSets<'a> {
    lang: &'a Language,
    sets: Vec<RowMarks<'a>>,
}

impl<'a> Model for RowSets<'a> {
    ghost use Rattle.std.specs.Prelude.{◌≡◌};
    ghost use Rattle.pol_relation.specs.Relations.{LanguageView};
    ghost use Rattle.pol_indicator.specs.Closing.{relations_of};

    ghost Value = { LanguageView };

    ghost view = { λ s. s.lang.now };

    ghost invariant = { λ s. s.sets.items ≡ relations_of s.lang.now };
}

impl<'a> RowSets<'a> {
    pub(crate) fn new(alloc: Global, lang: &'a Language) -> Result<RowSets<'a>, NoMemory>
        ensures same { IfOk result (λ sets. sets ≡ lang.now) }
    {
        let mut sets = Vec::new(alloc);
        for i in 0..lang.len() {
            let set = RowMarks::new(alloc, lang.relation(i))?;
            sets.push(set)?;
        }
        Ok(RowSets { lang, sets })
    }

    pub(crate) fn language(&self) -> &Language
        ensures same { result.now ≡ self.now }
    {
        self.lang
    }

    /// How many relations there are.
    pub(crate) fn len(&self) -> u32
        ensures relations { result ≡ length self.now.relations }
        ensures few { result ≤ 4096 }
        ensures language { IsLanguage self.now }
    {
        self.lang.len()
    }

    /// The set of the relation with the number. None where there is no such relation.
    pub(crate) fn get(&self, relation: u32) -> Option<RowSet<'_>>
        ensures known { IfSome result (λ set. relation < length self.now.relations) }
        ensures same { IfSome result (λ set. set ≡ relation_of self.now relation) }
        ensures none { IfNone result (length self.now.relations ≤ relation) }
    {
        Some(self.sets.get(relation as usize)?.set())
    }
}
