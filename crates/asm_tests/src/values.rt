//! Operators on numbers and places.

use asm_tokens::Mark;
use asm_values::{
    BinaryOp, Location, UnaryOp, Value, binary_of, binary_value, unary_of, unary_value,
};
use std::test::Fail;

/// A number with its sign.
fn number(n: i64) -> Value {
    Value::Number(n.cast_unsigned())
}

/// A place without a symbol.
fn at(chunk: u32, offset: u64) -> Value {
    Value::At(Location {
        chunk,
        offset,
        symbol: None,
    })
}

#[test]
fn operators_on_numbers(rt: HostRuntime) -> Result<(), Fail> {
    for (mark, a, b, want) in [
        (Mark::Plus, i64::MAX, 1, Some(i64::MIN)),
        (Mark::Minus, i64::MIN, 1, Some(i64::MAX)),
        (Mark::Star, 1 << 32, 1 << 32, Some(0)),
        (Mark::Star, -3, 7, Some(-21)),
        (Mark::Slash, -7, 2, Some(-3)),
        (Mark::Slash, 7, -2, Some(-3)),
        (Mark::Slash, i64::MIN, -1, Some(i64::MIN)),
        (Mark::Slash, 1, 0, None),
        (Mark::Percent, -7, 4, Some(-3)),
        (Mark::Percent, 7, -4, Some(3)),
        (Mark::Percent, 1, 0, None),
        (Mark::And, 6, 3, Some(2)),
        (Mark::Or, 6, 3, Some(7)),
        (Mark::Caret, 6, 3, Some(5)),
        (Mark::Bang, 0, 3, Some(-4)),
        (Mark::ShiftLeft, 1, 63, Some(i64::MIN)),
        (Mark::ShiftLeft, 1, 64, None),
        (Mark::ShiftLeft, 1, -1, None),
        (Mark::ShiftRight, -1, 60, Some(15)),
        (Mark::ShiftRight, 8, 64, None),
    ] {
        let op = binary_of(mark);
        let got = op.and_then(|op| binary_value(op, number(a), number(b), None));
        assert_eq!(&rt; got, want.map(number), "of {a} {mark:?} {b}");
    }
    for (mark, n, want) in [
        (Mark::Minus, 5, -5),
        (Mark::Plus, 5, 5),
        (Mark::Tilde, 5, -6),
        (Mark::Minus, i64::MIN, i64::MIN),
    ] {
        let got = unary_of(mark).and_then(|op| unary_value(op, number(n)));
        assert_eq!(&rt; got, Some(number(want)), "of {mark:?} {n}");
    }
    assert_eq!(&rt; binary_of(Mark::Colon), None);
    assert_eq!(&rt; unary_of(Mark::Star), None);
    Ok(())
}

#[test]
fn operators_on_places(rt: HostRuntime) -> Result<(), Fail> {
    let (add, subtract) = (BinaryOp::Add, BinaryOp::Subtract);
    for (op, left, right, apart, want) in [
        (add, at(1, 8), number(4), None, Some(at(1, 12))),
        (add, number(4), at(1, 8), None, Some(at(1, 12))),
        (
            subtract,
            at(1, 8),
            number(12),
            None,
            Some(at(1, 0u64.wrapping_sub(4))),
        ),
        (subtract, at(1, 8), at(1, 12), None, Some(number(-4))),
        (subtract, at(1, 8), at(2, 12), None, None),
        (subtract, at(1, 8), at(2, 12), Some(100), Some(number(96))),
        (add, at(1, 8), at(1, 12), Some(0), None),
        (subtract, number(8), at(1, 12), Some(0), None),
        (BinaryOp::And, at(1, 8), number(1), None, None),
        (BinaryOp::Multiply, number(1), at(1, 8), None, None),
    ] {
        assert_eq!(&rt;
            binary_value(op, left, right, apart),
            want,
            "of {left:?} {op:?} {right:?}"
        );
    }
    assert_eq!(&rt; unary_value(UnaryOp::Keep, at(1, 8)), Some(at(1, 8)));
    assert_eq!(&rt; unary_value(UnaryOp::Negate, at(1, 8)), None);
    Ok(())
}
