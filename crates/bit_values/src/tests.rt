// Whether the clauses say what IEEE 1364-2005 says: values at the edges of widths that matter for the
// code, and the loss of a carry.
mod tables;

ghost use Rattle.std.specs.Prelude.{◌≡◌};

use super::{
    Bits, add, and, concat, equal, extend, mul, neg, not, or, red_and, red_or, red_xor, replace,
    sar, sdiv, select, shl, shr, sle, slt, srem, sub, truncate, udiv, ule, ult, urem, xor,
};
use std::process::Abort;
use tables::{BINARY, EXTENDED, JOINED, REPLACED, SELECTED, SHIFTS, TRUNCATED, UNARY};

/// This number in `width` bits.
fn value(rt: &impl Abort, width: u8, number: u128) -> Bits
    ensures { result.width ≡ width }
{
    assert!(rt; 1 <= width && width <= 128);
    truncate(Bits::new(128, number), width)
}

/// The results of the binary operators, in the order of their table.
fn binary(a: Bits, b: Bits) -> [u128; 15]
    requires { a.width ≡ b.width }
{
    [
        add(a, b).bits,
        sub(a, b).bits,
        mul(a, b).bits,
        udiv(a, b).bits,
        sdiv(a, b).bits,
        urem(a, b).bits,
        srem(a, b).bits,
        and(a, b).bits,
        or(a, b).bits,
        xor(a, b).bits,
        ult(a, b).bits,
        ule(a, b).bits,
        slt(a, b).bits,
        sle(a, b).bits,
        equal(a, b).bits,
    ]
}

#[test]
fn binary_operators(rt: HostRuntime) {
    for (width, a, b, expected) in BINARY {
        let found = binary(value(&rt, width, a), value(&rt, width, b));
        assert_eq!(rt; found, expected);
    }
}

#[test]
fn shifts(rt: HostRuntime) {
    for (width, a, by, expected) in SHIFTS {
        let a = value(&rt, width, a);
        let by = value(&rt, 8, by);
        assert_eq!(rt;
            [shl(a, by).bits, shr(a, by).bits, sar(a, by).bits],
            expected
        );
    }
}

#[test]
fn unary_operators(rt: HostRuntime) {
    for (width, a, expected) in UNARY {
        let a = value(&rt, width, a);
        let found = [
            not(a).bits,
            neg(a).bits,
            red_and(a).bits,
            red_or(a).bits,
            red_xor(a).bits,
        ];
        assert_eq!(rt; found, expected);
    }
}

#[test]
fn extensions(rt: HostRuntime) {
    for (width, a, to, expected) in EXTENDED {
        let a = value(&rt, width, a);
        assert!(rt; width <= to && to <= 128);
        let found = [extend(a, to, false).bits, extend(a, to, true).bits];
        assert_eq!(rt; found, expected);
    }
}

#[test]
fn truncations(rt: HostRuntime) {
    for (width, a, to, expected) in TRUNCATED {
        let a = value(&rt, width, a);
        assert!(rt; 1 <= to && to <= width);
        assert_eq!(rt; [truncate(a, to).bits], expected);
    }
}

#[test]
fn concatenations(rt: HostRuntime) {
    for (high_width, high, low_width, low, expected) in JOINED {
        let high = value(&rt, high_width, high);
        let low = value(&rt, low_width, low);
        assert!(rt; high_width <= 128 - low_width);
        assert_eq!(rt; [concat(high, low).bits], expected);
    }
}

#[test]
fn selections(rt: HostRuntime) {
    for (width, a, low, part_width, expected) in SELECTED {
        assert!(rt; 1 <= part_width && part_width <= 128);
        assert_eq!(rt;
            [select(value(&rt, width, a), low, part_width).bits],
            expected
        );
    }
}

#[test]
fn replacements(rt: HostRuntime) {
    for (width, a, low, part_width, part, expected) in REPLACED {
        let found = replace(value(&rt, width, a), low, value(&rt, part_width, part));
        assert_eq!(rt; [found.bits], expected);
    }
}

/// The carry of `f + 1` is lost at 4 bits, and kept where the operands are extended to 5 bits first.
#[test]
fn carry(rt: HostRuntime) {
    let a = Bits::new(4, 0xf);
    let one = Bits::new(4, 1);
    assert_eq!(rt; add(a, one), Bits::new(4, 0));
    assert_eq!(rt;
        add(extend(a, 5, false), extend(one, 5, false)),
        Bits::new(5, 0x10)
    );
}
