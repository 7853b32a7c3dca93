ghost use Rattle.std.specs.Prelude.{◌≡◌, ◌<◌, length, All, Contains, IfOk, Some};
ghost use Rattle.std.specs.Bool.{OnTrue, OnFalse};
ghost use Rattle.pol_base.specs.Masks.{AreMasks};
ghost use Rattle.pol_relation.specs.Relations.{RelationView, relation_of, rows_of};
ghost use Rattle.pol_relation.specs.Instances.{read_at};
ghost use Rattle.pol_csp.specs.Narrowing.{Narrows, Rejects};

use crate::narrow::revise;
use crate::row_words::RowWords;
use pol_base::NoMemory;
use pol_relation::Language;
use std::alloc::Global;
use std::marker::Model;

/// A language with the words of its relations of at most 128 rows.
#[derive(Drop)]
pub(crate) struct Index<'a> {
    lang: &'a Language,
    words: Vec<Option<RowWords<'a>>>,
}

impl<'a> Model for Index<'a> {
    ghost use Rattle.pol_relation.specs.Relations.{LanguageView};
    ghost use Rattle.pol_csp.specs.Words.{IsIndex};

    ghost Value = { LanguageView };

    ghost view = { λ i. i.lang.now };

    ghost invariant = { λ i. IsIndex i.lang.now i.words.items };
}

/// The relation with its words, if it has few rows.
fn words_of<'a>(alloc: Global, lang: &'a Language, i: u32) -> Result<Option<RowWords<'a>>, NoMemory>
    requires known { i < length lang.now.relations }
    ensures same { IfOk result (λ words. (r : RelationView) → words ≡ Some r → r ≡ relation_of lang.now i) }
{
    let r = lang.relation(i);
    if r.len() <= 128 {
        return Ok(Some(RowWords::new(alloc, r)?));
    }
    Ok(None)
}

impl<'a> Index<'a> {
    pub(crate) fn new(alloc: Global, lang: &'a Language) -> Result<Index<'a>, NoMemory>
        ensures same { IfOk result (λ index. index ≡ lang.now) }
    {
        let mut words = Vec::new(alloc);
        for i in 0..lang.len() {
            words.push(words_of(alloc, lang, i)?)?;
        }
        Ok(Index { lang, words })
    }

    /// Drops the values that no row within the masks supports.
    pub(crate) fn revise(&self, number: u32, scope: &[u32], masks: &mut [u8]) -> bool
        requires known { number < length self.now.relations }
        requires long { length scope.now ≡ (relation_of self.now number).arity }
        requires cells { All (λ c. c < length masks.old) scope.now }
        requires masks { AreMasks 5 masks.old }
        ensures narrows { OnTrue result
            (Narrows (λ xs. Contains (rows_of self.now number) (read_at xs scope.now)) masks.old masks.new) }
        ensures wiped { OnFalse result
            (Rejects (λ xs. Contains (rows_of self.now number) (read_at xs scope.now)) masks.old) }
    {
        if (number as usize) < self.words.len() {
            if let Some(words) = &self.words[number as usize] {
                return words.revise(scope, masks);
            }
        }
        revise(self.lang.relation(number), scope, masks)
    }
}
