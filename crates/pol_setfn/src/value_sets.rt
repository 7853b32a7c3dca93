ghost use Rattle.std.specs.Prelude.{◌≡◌, ◌<◌, ◌≤◌, length, IfOk, IfSome, IfNone};
ghost use Rattle.pol_relation.specs.Relations.{IsLanguage, IsRelationOver, relation_of};

use pol_base::NoMemory;
use pol_optable::{ValueMarks, ValueRows};
use pol_relation::Language;
use std::alloc::Global;
use std::marker::Model;

/// A language with the rows of each relation by their values.
#[derive(Drop)]
pub(crate) struct ValueSets<'a> {
    lang: &'a Language,
    marks: Vec<ValueMarks<'a>>,
}

impl<'a> Model for ValueSets<'a> {
    ghost use Rattle.std.specs.Prelude.{◌≡◌, map};
    ghost use Rattle.pol_relation.specs.Relations.{LanguageView};

    ghost Value = { LanguageView };

    ghost view = { λ s. s.lang.now };

    ghost invariant = { λ s. s.marks.items ≡ map (λ named. named.relation) s.lang.now.relations };
}

impl<'a> ValueSets<'a> {
    pub(crate) fn new(alloc: Global, lang: &'a Language) -> Result<ValueSets<'a>, NoMemory>
        ensures same { IfOk result (λ sets. sets ≡ lang.now) }
    {
        let mut marks = Vec::new(alloc);
        for i in 0..lang.len() {
            let set = ValueMarks::new(alloc, lang.relation(i))?;
            marks.push(set)?;
        }
        Ok(ValueSets { lang, marks })
    }

    pub(crate) fn language(&self) -> &Language
        ensures same { result.now ≡ self.now }
    {
        self.lang
    }

    /// How many relations there are.
    pub(crate) fn len(&self) -> u32
        ensures relations { result ≡ length self.now.relations }
        ensures few { result ≤ 4096 }
        ensures language { IsLanguage self.now }
    {
        self.lang.len()
    }

    /// The rows of the relation with the number. None where there is no such relation.
    pub(crate) fn get(&self, relation: u32) -> Option<ValueRows<'_>>
        ensures known { IfSome result (λ rows. relation < length self.now.relations) }
        ensures same { IfSome result (λ rows. rows ≡ relation_of self.now relation) }
        ensures over { IfSome result (IsRelationOver self.now.domain) }
        ensures none { IfNone result (length self.now.relations ≤ relation) }
    {
        let marks = self.marks.get(relation as usize)?;
        // for its clause that the relation is one over the domain
        let _relation = self.lang.relation(relation);
        Some(marks.rows())
    }
}
