ghost use Rattle.std.specs.Prelude.{◌≡◌, ℕ, ◌<◌, ◌^◌, length, All, IfOk, OnOk};
ghost use Rattle.pol_relation.specs.Relations.{relation_of};
ghost use Rattle.pol_relation.specs.Instances.{FitsAt, IsScope};
ghost use Rattle.pol_gen.specs.Draws.{first_state, draw, draw_numbers, draw_constraint};

use pol_base::{Domain, NoMemory, Numbers, Values};
use pol_relation::Language;
use std::alloc::Global;
use std::marker::Model;

const MODULUS: u64 = 1 << 31;

/// The state from which numbers are drawn.
#[derive(Debug, Drop)]
pub(crate) struct Draws {
    state: u64,
}

impl Model for Draws {
    ghost Value = { ℕ };

    ghost view = { λ d. d.state };

    ghost invariant = { λ d. d.state < 2 ^ 31 };
}

/// A constraint that was drawn.
#[derive(Debug, Drop)]
pub(crate) struct Constraint {
    relation: u32,
    scope: Numbers,
}

impl Model for Constraint {
    ghost use Rattle.pol_relation.specs.Instances.{ConstraintView};

    ghost Value = { ConstraintView };

    ghost view = { λ c. record { relation = c.relation; scope = c.scope } };
}

impl Constraint {
    pub(crate) fn relation(&self) -> u32
        ensures relation { result ≡ self.now.relation }
    {
        self.relation
    }

    pub(crate) fn scope(&self) -> &[u32]
        ensures scope { result.now ≡ self.now.scope }
    {
        self.scope.as_slice()
    }
}

impl Draws {
    pub(crate) fn new(number: u64) -> Draws
        ensures first { result ≡ first_state number }
    {
        Draws {
            state: number % MODULUS,
        }
    }

    /// A number below `n`.
    #[tactic(auto, unfolding(crate::specs::Draws::turned))]
    pub(crate) fn draw(&mut self, n: u32) -> u32
        requires some { 0 < n }
        ensures drawn { result ≡ (draw n self.old).drawn }
        ensures state { self.new ≡ (draw n self.old).state }
        ensures below { result < n }
    {
        self.state = (self.state * 1_103_515_245 + 12_345) % MODULUS;
        (self.state / 65_536 % u64::from(n)) as u32
    }

    /// A value of the domain for each of `v` variables.
    pub(crate) fn draw_values(
        &mut self,
        alloc: Global,
        v: u32,
        d: Domain,
    ) -> Result<Values, NoMemory>
        ensures drawn { IfOk result (λ values. values ≡ (draw_numbers v d self.old).drawn) }
        ensures state { OnOk result (self.new ≡ (draw_numbers v d self.old).state) }
    {
        let n = u32::from(d.size());
        let mut values = Values::new(alloc);
        for _ in 0..v {
            values.push(self.draw(n) as u8)?;
        }
        Ok(values)
    }

    /// A variable below `v` for each of so many places.
    pub(crate) fn draw_scope(
        &mut self,
        alloc: Global,
        places: u32,
        v: u32,
    ) -> Result<Numbers, NoMemory>
        requires some { 0 < v }
        ensures drawn { IfOk result (λ scope. scope ≡ (draw_numbers places v self.old).drawn) }
        ensures state { OnOk result (self.new ≡ (draw_numbers places v self.old).state) }
    {
        let mut scope = Numbers::new(alloc);
        for _ in 0..places {
            scope.push(self.draw(v))?;
        }
        Ok(scope)
    }

    /// A constraint of the language over `v` variables.
    pub(crate) fn draw_constraint(
        &mut self,
        alloc: Global,
        lang: &Language,
        v: u32,
    ) -> Result<Constraint, NoMemory>
        requires some_relations { 0 < length lang.now.relations }
        requires some_variables { 0 < v }
        ensures drawn { IfOk result (λ c. c ≡ (draw_constraint lang.now v self.old).drawn) }
        ensures state { OnOk result (self.new ≡ (draw_constraint lang.now v self.old).state) }
        ensures fits { IfOk result (FitsAt lang.now v) }
        ensures scope { IfOk result (λ c. IsScope v c.scope) }
    {
        let relation = self.draw(lang.len());
        let scope = self.draw_scope(alloc, lang.relation(relation).arity(), v)?;
        Ok(Constraint { relation, scope })
    }
}
