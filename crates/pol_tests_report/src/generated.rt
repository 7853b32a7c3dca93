//! Generated files, beside the numbers of the C standard and what another program made.
use pol_gen::make;
use std::test::Fail;

/// A number, and how many constraints its instances have.
type Counted = (u64, [u32; 8]);

/// Counted by another program, made from the words of the definition.
static COUNTS: [Counted; 3] = [
    (3, [14, 15, 17, 22, 19, 23, 0, 0]),
    (150, [39, 35, 30, 37, 38, 32, 30, 30]),
    (u64::MAX, [40, 43, 36, 45, 38, 42, 3, 3]),
];

/// A number, an instance, the number of a constraint, and the constraint.
type Drawn = (u64, u32, u32, u32, &'static [u32]);

/// Drawn by the same program.
static CONSTRAINTS: [Drawn; 12] = [
    (0, 0, 0, 1, &[32]),
    (0, 0, 1, 0, &[25, 22, 17]),
    (0, 1, 37, 2, &[0]),
    (0, 1, 38, 1, &[0]),
    (1, 0, 0, 2, &[28, 5]),
    (1, 1, 43, 1, &[0, 0]),
    (2, 0, 1, 0, &[20, 35, 28]),
    (2, 1, 20, 1, &[0, 1, 2]),
    (4, 1, 30, 0, &[24, 21]),
    (4, 1, 31, 0, &[0, 0]),
    (150, 6, 1, 2, &[4]),
    (150, 7, 29, 0, &[29, 33, 8]),
];

/// Behind the forty hidden values of `i0` the state is 1, with which the example of `rand` in the C
/// standard begins, and these values meet the first two constraints that are drawn.
#[test]
fn draws_the_numbers_of_the_c_standard(rt: HostRuntime) -> Result<(), Fail> {
    // the example draws 16838, 5758, 10113, 17515, 31051 and 5627 below 32768
    let file = make(rt.alloc(), 10_388_330_985)?;
    let inst = file.instance(0);
    assert!(rt; 1 < inst.constraints());
    assert_eq!(rt; inst.relation_of(0), 16_838 % 3);
    assert_eq!(rt; inst.scope(0), [5_758 % 40].as_slice());
    assert_eq!(rt; inst.relation_of(1), 10_113 % 3);
    assert_eq!(rt;
        inst.scope(1),
        [17_515 % 40, 31_051 % 40, 5_627 % 40].as_slice()
    );
    Ok(())
}

#[test]
fn makes_so_many_constraints(rt: HostRuntime) -> Result<(), Fail> {
    for (number, counts) in &COUNTS {
        let file = make(rt.alloc(), *number)?;
        assert_eq!(rt; file.instances(), 8);
        for (i, count) in counts.iter().enumerate() {
            assert!(rt; i < 8);
            let made = file.instance(i as u32).constraints();
            assert_eq!(rt; made, *count, "in instance {i} of {number}");
        }
    }
    Ok(())
}

#[test]
fn makes_these_constraints(rt: HostRuntime) -> Result<(), Fail> {
    for (number, i, c, relation, scope) in &CONSTRAINTS {
        let file = make(rt.alloc(), *number)?;
        assert!(rt; *i < file.instances());
        let inst = file.instance(*i);
        assert!(rt; *c < inst.constraints());
        assert_eq!(rt; inst.relation_of(*c), *relation, "at {c} of {number}");
        assert_eq!(rt; inst.scope(*c), *scope, "at {c} of {number}");
    }
    Ok(())
}

#[test]
fn names_what_it_makes(rt: HostRuntime) -> Result<(), Fail> {
    let file = make(rt.alloc(), 3)?;
    assert_eq!(rt; file.lang().domain().size(), 3);
    assert_eq!(rt; file.lang().find(b"swap"), Some(1));
    let last = file.instance(7);
    assert_eq!(rt; last.name(), b"i7".as_slice());
    assert_eq!(rt; last.variables(), 20);
    assert_eq!(rt; last.find_variable(b"x0"), Some(0));
    assert_eq!(rt; last.find_variable(b"x19"), Some(19));
    Ok(())
}
