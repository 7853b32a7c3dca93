//! What a file takes, and the canonical text of one.
use pol_base::{Domain, Values};
use pol_lang::{File, FileFault, put_file, read_file};
use pol_relation::{Instance, Language, Relation};
use std::test::Fail;

#[test]
fn takes_one_instance_of_a_name(rt: HostRuntime) -> Result<(), Fail> {
    let alloc = rt.alloc();
    let d = Domain::new(2).expect(&rt, "two values");
    let mut file = File::new(alloc, Language::new(alloc, d)).expect(&rt, "no relations");
    for answer in [Ok(()), Err(FileFault::Unfit)] {
        let mut inst = Instance::new(alloc, b"i")?;
        inst.add_variable(b"x")?;
        assert_eq!(rt; file.add(inst), answer);
        assert_eq!(rt; file.find_instance(b"i"), Some(0));
    }
    assert_eq!(rt; file.instances(), 1);
    Ok(())
}

#[test]
fn names_begin_with_a_letter(rt: HostRuntime) -> Result<(), Fail> {
    let alloc = rt.alloc();
    let d = Domain::new(2).expect(&rt, "two values");
    for (name, is_file) in [(b"r1".as_slice(), true), (b"1r".as_slice(), false)] {
        let mut language = Language::new(alloc, d);
        language.add(name, Relation::new(alloc, d, 1))?;
        assert_eq!(rt;
            File::new(alloc, language).is_some(),
            is_file,
            "at {name:?}"
        );
    }
    Ok(())
}

#[test]
fn writes_a_file_as_its_canonical_text(rt: HostRuntime) -> Result<(), Fail> {
    let text =
        b"# a file\r\npolyanna 01\r\n\r\n domain\t2\r\nrelation one 1\r\ntuple 1\r\ntuple 01 \r\nend";
    let (file, rest) = read_file(rt.alloc(), text)?;
    assert_eq!(rt; rest.place, text.len());
    assert_eq!(rt; rest.line, 9);
    let mut out = Values::new(rt.alloc());
    put_file(&mut out, &file)?;
    assert_eq!(rt;
        out.as_slice(),
        b"polyanna 1\ndomain 2\nrelation one 1\ntuple 1\nend\n".as_slice()
    );
    Ok(())
}
