//! The words of proof lines.
use pb_rules::{Lit, Op};
use proof_words::{WordOp, put_cover, put_derivation, put_op, read_op};
use std::test::Fail;

/// The operation that is wanted, where it has no far variable.
fn said(op: Op) -> Option<WordOp> {
    Some(WordOp::Operation(op))
}

#[test]
fn words_read(rt: HostRuntime) {
    for (word, wanted) in [
        ("7", said(Op::Id(7))),
        ("0", said(Op::Id(0))),
        ("07", None),
        ("x0", said(Op::Axiom(Lit::yes(0)))),
        ("~x3", said(Op::Axiom(Lit::no(3)))),
        ("~3", None),
        ("+", said(Op::Add)),
        ("+1", None),
        ("*2", said(Op::Times(2))),
        ("*0", None),
        ("/0", said(Op::Divide(0))),
        ("s", said(Op::Saturate)),
        ("w1", said(Op::Weaken(1))),
        ("w", None),
        ("q", None),
        ("", None),
        (
            "~x4611686018427387904",
            Some(WordOp::FarAxiom {
                var: 1 << 62,
                yes: false,
            }),
        ),
        ("9223372036854775807", said(Op::Id((1 << 63) - 1))),
        ("9223372036854775808", None),
    ] {
        assert!(rt; read_op(word) == wanted, "{}", word);
    }
}

#[test]
fn lines_printed(rt: HostRuntime) -> Result<(), Fail> {
    let a = rt.alloc();
    let ops = [
        Op::Id(12),
        Op::Axiom(Lit::yes(0)),
        Op::Axiom(Lit::no(3)),
        Op::Add,
        Op::Times(2),
        Op::Divide(3),
        Op::Saturate,
        Op::Weaken(1),
    ];
    let mut text = Vec::new(a);
    put_derivation(a, &mut text, &ops)?;
    put_cover(a, &mut text, &[4, 0])?;
    put_op(a, &mut text, &Op::Add)?;
    assert!(rt; text.as_slice() == b"p 12 x0 ~x3 + *2 /3 s w1\nc 4 0\n +".as_slice());
    Ok(())
}
