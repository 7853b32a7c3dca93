//! The least affine table of the language without relations over five values.
use pol_base::Domain;
use pol_classify::classify;
use pol_identity::affine_labels;
use pol_relation::Language;
use std::test::Fail;

#[test]
fn the_least_affine_table_of_five_values(rt: HostRuntime) -> Result<(), Fail> {
    let five = Domain::new(5).ok_or("five values")?;
    let language = Language::new(rt.alloc(), five);
    assert!(rt; language.weight(3) == 0 && language.subset_weight() == 0);
    let classes = classify(rt.alloc(), &language)?;
    let table = classes.affine.as_ref().ok_or("a table")?;
    assert_eq!(rt; affine_labels(table), Some([0, 1, 4, 3, 2]));
    Ok(())
}
