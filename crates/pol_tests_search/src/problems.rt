//! The least lists of problems of two cells, with a filter and without one, and of one cell.
ghost use Rattle.std.specs.Prelude.{◌≡◌, ℕ, ◌<◌, length, IfOk};
ghost use Rattle.pol_relation.specs.Relations.{relation_of};
ghost use Rattle.pol_csp.specs.Problems.{FitsLanguage};

use pol_base::{Domain, Values, full_mask};
use pol_csp::{Filter, NoFilter, Problem, least};
use pol_relation::{Language, Relation};
use std::alloc::Global;
use std::process::Abort;
use std::test::Fail;

/// The filter that wants the lists whose first value is not 0.
struct NotFirst;

impl Filter for NotFirst {
    ghost use Rattle.std.specs.Prelude.{◌≢◌, ◌≤◌, slice_index};

    ghost wanted = { λ _ xs. slice_index xs 0 ≢ 0 };

    ghost takes = { λ _ _ n. 1 ≤ n };

    fn fails(&self, _d: Domain, masks: &[u8]) -> bool {
        masks[0] == 1
    }
}

/// The values of a domain of two, with the relation of two different values.
fn language(rt: &impl Abort, alloc: Global) -> Result<Language, Fail>
    ensures domain { IfOk result (λ lang. lang.domain ≡ 2) }
    ensures known { IfOk result (λ lang. 0 < length lang.relations) }
    ensures arity { IfOk result (λ lang. (relation_of lang 0).arity ≡ 2) }
{
    let d = Domain::new(2).expect(rt, "two values");
    let mut lang = Language::new(alloc, d);
    let rows = [0, 1, 1, 0];
    lang.add(b"neq", Relation::from_rows(alloc, d, 2, &rows)?)?;
    Ok(lang)
}

/// The problem of two cells with these masks, where cell 1 may be tied to cell 0, and two cells may have
/// to be different.
fn problem(
    rt: &impl Abort,
    alloc: Global,
    lang: &Language,
    masks: [u8; 2],
    tied: bool,
    different: Option<[u32; 2]>,
) -> Result<Problem, Fail>
    requires domain { lang.now.domain ≡ 2 }
    requires known { 0 < length lang.now.relations }
    requires arity { (relation_of lang.now 0).arity ≡ 2 }
    ensures fits { IfOk result (FitsLanguage lang.now) }
    ensures cells { IfOk result (λ p. length p.masks ≡ 2) }
{
    let mut problem = Problem::new(alloc, lang.domain(), 2)?;
    let full = full_mask(lang.domain());
    assert!(rt; 1 <= masks[0] && masks[0] <= full);
    assert!(rt; 1 <= masks[1] && masks[1] <= full);
    problem.restrict(0, masks[0]);
    problem.restrict(1, masks[1]);
    if tied {
        problem.tie(1, 0);
    }
    if let Some(cells) = different {
        assert!(rt; cells[0] < 2 && cells[1] < 2);
        problem.add(0, &cells)?;
    }
    Ok(problem)
}

/// Whether the answer is the list, or none where there is none.
fn is_answer(answer: &Option<Values>, by_hand: Option<&[u8]>) -> bool {
    match (answer, by_hand) {
        (Some(values), Some(list)) => values.as_slice() == list,
        (None, None) => true,
        _ => false,
    }
}

#[test]
fn the_least_list_of_two_cells(rt: HostRuntime) -> Result<(), Fail> {
    let alloc = rt.alloc();
    let lang = language(&rt, alloc)?;
    let cases = [
        ([3, 3], false, None, Some([0, 0].as_slice())),
        ([2, 3], false, None, Some([1, 0].as_slice())),
        ([3, 3], false, Some([0, 1]), Some([0, 1].as_slice())),
        ([2, 3], false, Some([0, 1]), Some([1, 0].as_slice())),
        ([2, 2], false, Some([0, 1]), None),
        ([3, 3], false, Some([0, 0]), None),
        ([3, 2], true, None, Some([1, 1].as_slice())),
        ([1, 2], true, None, None),
        ([3, 3], true, Some([1, 0]), None),
    ];
    for (masks, tied, different, by_hand) in cases {
        let problem = problem(&rt, alloc, &lang, masks, tied, different)?;
        let answer = least(alloc, &problem, &lang, &NoFilter)?;
        assert!(rt;
            is_answer(&answer, by_hand),
            "at {masks:?} {tied} {different:?}"
        );
    }
    Ok(())
}

#[test]
fn the_least_list_that_a_filter_wants(rt: HostRuntime) -> Result<(), Fail> {
    let alloc = rt.alloc();
    let lang = language(&rt, alloc)?;
    let cases = [
        ([3, 3], false, None, Some([1, 0].as_slice())),
        ([3, 3], true, None, Some([1, 1].as_slice())),
        ([3, 2], false, Some([0, 1]), None),
        ([1, 3], false, None, None),
    ];
    for (masks, tied, different, by_hand) in cases {
        let problem = problem(&rt, alloc, &lang, masks, tied, different)?;
        let answer = least(alloc, &problem, &lang, &NotFirst)?;
        assert!(rt;
            is_answer(&answer, by_hand),
            "at {masks:?} {tied} {different:?}"
        );
    }
    Ok(())
}

#[test]
fn a_cell_over_one_value(rt: HostRuntime) -> Result<(), Fail> {
    let alloc = rt.alloc();
    let d = Domain::new(1).expect(&rt, "one value");
    let lang = Language::new(alloc, d);
    let problem = Problem::new(alloc, d, 1)?;
    let answer = least(alloc, &problem, &lang, &NoFilter)?;
    assert!(rt; is_answer(&answer, Some([0].as_slice())));
    Ok(())
}
