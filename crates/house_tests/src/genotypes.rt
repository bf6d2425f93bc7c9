//! A genotype, its text and its order.
use genotype::{Gene, Genotype, ListWords, print_genotype, read_genotype};
use line_words::{ReadFault, Why};
use pb_rules::Lit;
use std::test::Fail;

fn is_refused(found: Result<Genotype, ReadFault>, line: u64, why: Why) -> bool {
    match found {
        Err(ReadFault::Refused(fault)) => fault.line == line && fault.why == why,
        _ => false,
    }
}

#[test]
fn texts_and_orders(rt: HostRuntime) -> Result<(), Fail> {
    let a = rt.alloc();
    let text = b"genotype 1\ngene 0 5 1\ngene 1 5 1\n";
    let Ok(mut genotype) = read_genotype(a, text, 4) else {
        assert!(rt; false);
        return Ok(());
    };
    let mut printed = Vec::new(a);
    print_genotype(a, &genotype, &mut printed)?;
    assert!(rt; printed.as_slice() == text.as_slice());
    genotype.set(
        3,
        Gene {
            priority: 6,
            phase: false,
        },
    );
    let order = genotype.order_of(a, 5)?;
    assert!(rt;
        order.literals()
            == [Lit::no(3), Lit::yes(0), Lit::yes(1), Lit::no(2), Lit::no(4)].as_slice()
    );
    let natural = Genotype::natural(a, 2)?;
    assert!(rt; natural.genes().len() == 2);
    for (text, line, why) in [
        ("gene 0 4294967296 0\n", 2, Why::TooBig),
        ("gene 4 1 1\n", 2, Why::UnknownName),
        ("gene 1 0 0\ngene 1 0 0\n", 3, Why::NotInOrder),
    ] {
        let text = format!(in a; "genotype 1\n{text}")?;
        assert!(rt;
            is_refused(read_genotype(a, text.as_bytes(), 4), line, why),
            "{}",
            text
        );
    }
    Ok(())
}

#[test]
fn draws(rt: HostRuntime) -> Result<(), Fail> {
    let a = rt.alloc();
    let mut words = ListWords::new(Vec::from_slice(a, &[7, 10])?);
    let random = Genotype::random(a, 2, &mut words)?;
    let mut printed = Vec::new(a);
    print_genotype(a, &random, &mut printed)?;
    assert!(rt; printed.as_slice() == b"genotype 1\ngene 0 3 1\ngene 1 5 0\n".as_slice());
    let natural = Genotype::natural(a, 2)?;
    if natural.genes().len() != random.genes().len() {
        return Err(Fail::from("the lengths differ"));
    }
    let mut more = ListWords::new(Vec::from_slice(a, &[3, 1, 9])?);
    let child = Genotype::child(a, &natural, &random, &mut more)?;
    printed.clear();
    print_genotype(a, &child, &mut printed)?;
    assert!(rt; printed.as_slice() == b"genotype 1\ngene 0 3 1\ngene 1 4 1\n".as_slice());
    Ok(())
}
