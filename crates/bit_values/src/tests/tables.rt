// Tables of expected values, worked out by another program from the meaning in IEEE 1364-2005. A row has
// its operands, a bar, and the results.

macro_rules! rows {
    ($($($operand:literal)* | $($result:literal)*);*) => {
        [$(($($operand,)* [$($result),*])),*]
    };
}

// A width, two operands, and the results of `add`, `sub`, `mul`, `udiv`, `sdiv`, `urem`, `srem`, `and`,
// `or`, `xor`, `ult`, `ule`, `slt`, `sle` and `equal`.
pub static BINARY: [(u8, u128, u128, [u128; 15]); 38] = rows! {
    1 1 1 | 0 0 1 1 1 0 0 1 1 0 0 1 0 1 1;
    1 1 0 | 1 1 0 0 0 0 0 0 1 1 0 0 1 1 0;
    2 3 1 | 0 2 3 3 3 0 0 1 3 2 0 0 1 1 0;
    2 2 3 | 1 3 2 0 2 2 0 2 3 1 1 1 1 1 0;
    2 1 2 | 3 3 2 0 0 1 1 0 3 3 1 1 0 0 0;
    2 3 0 | 3 3 0 0 0 0 0 0 3 3 0 0 1 1 0;
    31 0x7fffffff 1 | 0 0x7ffffffe 0x7fffffff 0x7fffffff 0x7fffffff 0 0 1 0x7fffffff 0x7ffffffe
        0 0 1 1 0;
    31 0x40000000 0x7fffffff | 0x3fffffff 0x40000001 0x40000000 0 0x40000000 0x40000000 0
        0x40000000 0x7fffffff 0x3fffffff 1 1 1 1 0;
    31 1 0x40000000 | 0x40000001 0x40000001 0x40000000 0 0 1 1 0 0x40000001 0x40000001 1 1 0 0
        0;
    31 0x7fffffff 0 | 0x7fffffff 0x7fffffff 0 0 0 0 0 0 0x7fffffff 0x7fffffff 0 0 1 1 0;
    32 0xffffffff 1 | 0 0xfffffffe 0xffffffff 0xffffffff 0xffffffff 0 0 1 0xffffffff 0xfffffffe
        0 0 1 1 0;
    32 0x80000000 0xffffffff | 0x7fffffff 0x80000001 0x80000000 0 0x80000000 0x80000000 0
        0x80000000 0xffffffff 0x7fffffff 1 1 1 1 0;
    32 1 0x80000000 | 0x80000001 0x80000001 0x80000000 0 0 1 1 0 0x80000001 0x80000001 1 1 0 0
        0;
    32 0xffffffff 0 | 0xffffffff 0xffffffff 0 0 0 0 0 0 0xffffffff 0xffffffff 0 0 1 1 0;
    33 0x1ffffffff 1 | 0 0x1fffffffe 0x1ffffffff 0x1ffffffff 0x1ffffffff 0 0 1 0x1ffffffff
        0x1fffffffe 0 0 1 1 0;
    33 0x100000000 0x1ffffffff | 0xffffffff 0x100000001 0x100000000 0 0x100000000 0x100000000 0
        0x100000000 0x1ffffffff 0xffffffff 1 1 1 1 0;
    33 1 0x100000000 | 0x100000001 0x100000001 0x100000000 0 0 1 1 0 0x100000001 0x100000001 1 1
        0 0 0;
    33 0x1ffffffff 0 | 0x1ffffffff 0x1ffffffff 0 0 0 0 0 0 0x1ffffffff 0x1ffffffff 0 0 1 1 0;
    63 0x7fffffffffffffff 1 | 0 0x7ffffffffffffffe 0x7fffffffffffffff 0x7fffffffffffffff
        0x7fffffffffffffff 0 0 1 0x7fffffffffffffff 0x7ffffffffffffffe 0 0 1 1 0;
    63 0x4000000000000000 0x7fffffffffffffff | 0x3fffffffffffffff 0x4000000000000001
        0x4000000000000000 0 0x4000000000000000 0x4000000000000000 0 0x4000000000000000
        0x7fffffffffffffff 0x3fffffffffffffff 1 1 1 1 0;
    63 1 0x4000000000000000 | 0x4000000000000001 0x4000000000000001 0x4000000000000000 0 0 1 1 0
        0x4000000000000001 0x4000000000000001 1 1 0 0 0;
    63 0x7fffffffffffffff 0 | 0x7fffffffffffffff 0x7fffffffffffffff 0 0 0 0 0 0
        0x7fffffffffffffff 0x7fffffffffffffff 0 0 1 1 0;
    64 0xffffffffffffffff 1 | 0 0xfffffffffffffffe 0xffffffffffffffff 0xffffffffffffffff
        0xffffffffffffffff 0 0 1 0xffffffffffffffff 0xfffffffffffffffe 0 0 1 1 0;
    64 0x8000000000000000 0xffffffffffffffff | 0x7fffffffffffffff 0x8000000000000001
        0x8000000000000000 0 0x8000000000000000 0x8000000000000000 0 0x8000000000000000
        0xffffffffffffffff 0x7fffffffffffffff 1 1 1 1 0;
    64 1 0x8000000000000000 | 0x8000000000000001 0x8000000000000001 0x8000000000000000 0 0 1 1 0
        0x8000000000000001 0x8000000000000001 1 1 0 0 0;
    64 0xffffffffffffffff 0 | 0xffffffffffffffff 0xffffffffffffffff 0 0 0 0 0 0
        0xffffffffffffffff 0xffffffffffffffff 0 0 1 1 0;
    65 0x1ffffffffffffffff 1 | 0 0x1fffffffffffffffe 0x1ffffffffffffffff 0x1ffffffffffffffff
        0x1ffffffffffffffff 0 0 1 0x1ffffffffffffffff 0x1fffffffffffffffe 0 0 1 1 0;
    65 0x10000000000000000 0x1ffffffffffffffff | 0xffffffffffffffff 0x10000000000000001
        0x10000000000000000 0 0x10000000000000000 0x10000000000000000 0 0x10000000000000000
        0x1ffffffffffffffff 0xffffffffffffffff 1 1 1 1 0;
    65 1 0x10000000000000000 | 0x10000000000000001 0x10000000000000001 0x10000000000000000 0 0 1
        1 0 0x10000000000000001 0x10000000000000001 1 1 0 0 0;
    65 0x1ffffffffffffffff 0 | 0x1ffffffffffffffff 0x1ffffffffffffffff 0 0 0 0 0 0
        0x1ffffffffffffffff 0x1ffffffffffffffff 0 0 1 1 0;
    127 0x7fffffffffffffffffffffffffffffff 1 | 0 0x7ffffffffffffffffffffffffffffffe
        0x7fffffffffffffffffffffffffffffff 0x7fffffffffffffffffffffffffffffff
        0x7fffffffffffffffffffffffffffffff 0 0 1 0x7fffffffffffffffffffffffffffffff
        0x7ffffffffffffffffffffffffffffffe 0 0 1 1 0;
    127 0x40000000000000000000000000000000 0x7fffffffffffffffffffffffffffffff |
        0x3fffffffffffffffffffffffffffffff 0x40000000000000000000000000000001
        0x40000000000000000000000000000000 0 0x40000000000000000000000000000000
        0x40000000000000000000000000000000 0 0x40000000000000000000000000000000
        0x7fffffffffffffffffffffffffffffff 0x3fffffffffffffffffffffffffffffff 1 1 1 1 0;
    127 1 0x40000000000000000000000000000000 | 0x40000000000000000000000000000001
        0x40000000000000000000000000000001 0x40000000000000000000000000000000 0 0 1 1 0
        0x40000000000000000000000000000001 0x40000000000000000000000000000001 1 1 0 0 0;
    127 0x7fffffffffffffffffffffffffffffff 0 | 0x7fffffffffffffffffffffffffffffff
        0x7fffffffffffffffffffffffffffffff 0 0 0 0 0 0 0x7fffffffffffffffffffffffffffffff
        0x7fffffffffffffffffffffffffffffff 0 0 1 1 0;
    128 0xffffffffffffffffffffffffffffffff 1 | 0 0xfffffffffffffffffffffffffffffffe
        0xffffffffffffffffffffffffffffffff 0xffffffffffffffffffffffffffffffff
        0xffffffffffffffffffffffffffffffff 0 0 1 0xffffffffffffffffffffffffffffffff
        0xfffffffffffffffffffffffffffffffe 0 0 1 1 0;
    128 0x80000000000000000000000000000000 0xffffffffffffffffffffffffffffffff |
        0x7fffffffffffffffffffffffffffffff 0x80000000000000000000000000000001
        0x80000000000000000000000000000000 0 0x80000000000000000000000000000000
        0x80000000000000000000000000000000 0 0x80000000000000000000000000000000
        0xffffffffffffffffffffffffffffffff 0x7fffffffffffffffffffffffffffffff 1 1 1 1 0;
    128 1 0x80000000000000000000000000000000 | 0x80000000000000000000000000000001
        0x80000000000000000000000000000001 0x80000000000000000000000000000000 0 0 1 1 0
        0x80000000000000000000000000000001 0x80000000000000000000000000000001 1 1 0 0 0;
    128 0xffffffffffffffffffffffffffffffff 0 | 0xffffffffffffffffffffffffffffffff
        0xffffffffffffffffffffffffffffffff 0 0 0 0 0 0 0xffffffffffffffffffffffffffffffff
        0xffffffffffffffffffffffffffffffff 0 0 1 1 0
};

// A width, an operand, a distance, and the results of `shl`, `shr` and `sar`.
pub static SHIFTS: [(u8, u128, u128, [u128; 3]); 38] = rows! {
    1 1 1 | 0 0 1;
    1 1 0 | 1 1 1;
    2 3 1 | 2 1 3;
    2 2 1 | 0 1 3;
    2 3 2 | 0 0 3;
    2 1 1 | 2 0 0;
    31 0x7fffffff 1 | 0x7ffffffe 0x3fffffff 0x7fffffff;
    31 0x40000000 30 | 0 1 0x7fffffff;
    31 0x7fffffff 31 | 0 0 0x7fffffff;
    31 1 30 | 0x40000000 0 0;
    32 0xffffffff 1 | 0xfffffffe 0x7fffffff 0xffffffff;
    32 0x80000000 31 | 0 1 0xffffffff;
    32 0xffffffff 32 | 0 0 0xffffffff;
    32 1 31 | 0x80000000 0 0;
    33 0x1ffffffff 1 | 0x1fffffffe 0xffffffff 0x1ffffffff;
    33 0x100000000 32 | 0 1 0x1ffffffff;
    33 0x1ffffffff 33 | 0 0 0x1ffffffff;
    33 1 32 | 0x100000000 0 0;
    63 0x7fffffffffffffff 1 | 0x7ffffffffffffffe 0x3fffffffffffffff 0x7fffffffffffffff;
    63 0x4000000000000000 62 | 0 1 0x7fffffffffffffff;
    63 0x7fffffffffffffff 63 | 0 0 0x7fffffffffffffff;
    63 1 62 | 0x4000000000000000 0 0;
    64 0xffffffffffffffff 1 | 0xfffffffffffffffe 0x7fffffffffffffff 0xffffffffffffffff;
    64 0x8000000000000000 63 | 0 1 0xffffffffffffffff;
    64 0xffffffffffffffff 64 | 0 0 0xffffffffffffffff;
    64 1 63 | 0x8000000000000000 0 0;
    65 0x1ffffffffffffffff 1 | 0x1fffffffffffffffe 0xffffffffffffffff 0x1ffffffffffffffff;
    65 0x10000000000000000 64 | 0 1 0x1ffffffffffffffff;
    65 0x1ffffffffffffffff 65 | 0 0 0x1ffffffffffffffff;
    65 1 64 | 0x10000000000000000 0 0;
    127 0x7fffffffffffffffffffffffffffffff 1 | 0x7ffffffffffffffffffffffffffffffe
        0x3fffffffffffffffffffffffffffffff 0x7fffffffffffffffffffffffffffffff;
    127 0x40000000000000000000000000000000 126 | 0 1 0x7fffffffffffffffffffffffffffffff;
    127 0x7fffffffffffffffffffffffffffffff 127 | 0 0 0x7fffffffffffffffffffffffffffffff;
    127 1 126 | 0x40000000000000000000000000000000 0 0;
    128 0xffffffffffffffffffffffffffffffff 1 | 0xfffffffffffffffffffffffffffffffe
        0x7fffffffffffffffffffffffffffffff 0xffffffffffffffffffffffffffffffff;
    128 0x80000000000000000000000000000000 127 | 0 1 0xffffffffffffffffffffffffffffffff;
    128 0xffffffffffffffffffffffffffffffff 128 | 0 0 0xffffffffffffffffffffffffffffffff;
    128 1 127 | 0x80000000000000000000000000000000 0 0
};

// A width, an operand, and the results of `not`, `neg`, `red_and`, `red_or` and `red_xor`.
pub static UNARY: [(u8, u128, [u128; 5]); 38] = rows! {
    1 1 | 0 1 1 1 1;
    1 0 | 1 0 0 0 0;
    2 3 | 0 1 1 1 0;
    2 2 | 1 2 0 1 1;
    2 0 | 3 0 0 0 0;
    2 1 | 2 3 0 1 1;
    31 0x7fffffff | 0 1 1 1 1;
    31 0x40000000 | 0x3fffffff 0x40000000 0 1 1;
    31 0 | 0x7fffffff 0 0 0 0;
    31 1 | 0x7ffffffe 0x7fffffff 0 1 1;
    32 0xffffffff | 0 1 1 1 0;
    32 0x80000000 | 0x7fffffff 0x80000000 0 1 1;
    32 0 | 0xffffffff 0 0 0 0;
    32 1 | 0xfffffffe 0xffffffff 0 1 1;
    33 0x1ffffffff | 0 1 1 1 1;
    33 0x100000000 | 0xffffffff 0x100000000 0 1 1;
    33 0 | 0x1ffffffff 0 0 0 0;
    33 1 | 0x1fffffffe 0x1ffffffff 0 1 1;
    63 0x7fffffffffffffff | 0 1 1 1 1;
    63 0x4000000000000000 | 0x3fffffffffffffff 0x4000000000000000 0 1 1;
    63 0 | 0x7fffffffffffffff 0 0 0 0;
    63 1 | 0x7ffffffffffffffe 0x7fffffffffffffff 0 1 1;
    64 0xffffffffffffffff | 0 1 1 1 0;
    64 0x8000000000000000 | 0x7fffffffffffffff 0x8000000000000000 0 1 1;
    64 0 | 0xffffffffffffffff 0 0 0 0;
    64 1 | 0xfffffffffffffffe 0xffffffffffffffff 0 1 1;
    65 0x1ffffffffffffffff | 0 1 1 1 1;
    65 0x10000000000000000 | 0xffffffffffffffff 0x10000000000000000 0 1 1;
    65 0 | 0x1ffffffffffffffff 0 0 0 0;
    65 1 | 0x1fffffffffffffffe 0x1ffffffffffffffff 0 1 1;
    127 0x7fffffffffffffffffffffffffffffff | 0 1 1 1 1;
    127 0x40000000000000000000000000000000 | 0x3fffffffffffffffffffffffffffffff
        0x40000000000000000000000000000000 0 1 1;
    127 0 | 0x7fffffffffffffffffffffffffffffff 0 0 0 0;
    127 1 | 0x7ffffffffffffffffffffffffffffffe 0x7fffffffffffffffffffffffffffffff 0 1 1;
    128 0xffffffffffffffffffffffffffffffff | 0 1 1 1 0;
    128 0x80000000000000000000000000000000 | 0x7fffffffffffffffffffffffffffffff
        0x80000000000000000000000000000000 0 1 1;
    128 0 | 0xffffffffffffffffffffffffffffffff 0 0 0 0;
    128 1 | 0xfffffffffffffffffffffffffffffffe 0xffffffffffffffffffffffffffffffff 0 1 1
};

// A width, an operand, a new width, and the results of `extend` by zeros and by the sign bit.
pub static EXTENDED: [(u8, u128, u8, [u128; 2]); 22] = rows! {
    1 1 2 | 1 3;
    1 0 2 | 0 0;
    1 1 128 | 1 0xffffffffffffffffffffffffffffffff;
    1 0 128 | 0 0;
    2 2 31 | 2 0x7ffffffe;
    2 1 31 | 1 1;
    31 0x40000000 32 | 0x40000000 0xc0000000;
    31 0x3fffffff 32 | 0x3fffffff 0x3fffffff;
    32 0x80000000 33 | 0x80000000 0x180000000;
    32 0x7fffffff 33 | 0x7fffffff 0x7fffffff;
    33 0x100000000 63 | 0x100000000 0x7fffffff00000000;
    33 0xffffffff 63 | 0xffffffff 0xffffffff;
    63 0x4000000000000000 64 | 0x4000000000000000 0xc000000000000000;
    63 0x3fffffffffffffff 64 | 0x3fffffffffffffff 0x3fffffffffffffff;
    64 0x8000000000000000 65 | 0x8000000000000000 0x18000000000000000;
    64 0x7fffffffffffffff 65 | 0x7fffffffffffffff 0x7fffffffffffffff;
    65 0x10000000000000000 127 | 0x10000000000000000 0x7fffffffffffffff0000000000000000;
    65 0xffffffffffffffff 127 | 0xffffffffffffffff 0xffffffffffffffff;
    127 0x40000000000000000000000000000000 128 | 0x40000000000000000000000000000000
        0xc0000000000000000000000000000000;
    127 0x3fffffffffffffffffffffffffffffff 128 | 0x3fffffffffffffffffffffffffffffff
        0x3fffffffffffffffffffffffffffffff;
    128 0x80000000000000000000000000000000 128 | 0x80000000000000000000000000000000
        0x80000000000000000000000000000000;
    128 0x7fffffffffffffffffffffffffffffff 128 | 0x7fffffffffffffffffffffffffffffff
        0x7fffffffffffffffffffffffffffffff
};

// A width, an operand, a new width, and the result of `truncate`.
pub static TRUNCATED: [(u8, u128, u8, [u128; 1]); 21] = rows! {
    2 3 1 | 1;
    128 0x80000000000000000000000000000001 1 | 1;
    128 0xffffffffffffffffffffffffffffffff 1 | 1;
    31 0x40000001 2 | 1;
    31 0x7fffffff 2 | 3;
    32 0x80000001 31 | 1;
    32 0xffffffff 31 | 0x7fffffff;
    33 0x100000001 32 | 1;
    33 0x1ffffffff 32 | 0xffffffff;
    63 0x4000000000000001 33 | 1;
    63 0x7fffffffffffffff 33 | 0x1ffffffff;
    64 0x8000000000000001 63 | 1;
    64 0xffffffffffffffff 63 | 0x7fffffffffffffff;
    65 0x10000000000000001 64 | 1;
    65 0x1ffffffffffffffff 64 | 0xffffffffffffffff;
    127 0x40000000000000000000000000000001 65 | 1;
    127 0x7fffffffffffffffffffffffffffffff 65 | 0x1ffffffffffffffff;
    128 0x80000000000000000000000000000001 127 | 1;
    128 0xffffffffffffffffffffffffffffffff 127 | 0x7fffffffffffffffffffffffffffffff;
    128 0x80000000000000000000000000000001 128 | 0x80000000000000000000000000000001;
    128 0xffffffffffffffffffffffffffffffff 128 | 0xffffffffffffffffffffffffffffffff
};

// A width and a high part, a width and a low part, and the result of `concat`.
pub static JOINED: [(u8, u128, u8, u128, [u128; 1]); 17] = rows! {
    1 1 1 1 | 3;
    2 2 31 0x7fffffff | 0x17fffffff;
    2 3 31 0x40000000 | 0x1c0000000;
    31 0x40000000 1 1 | 0x80000001;
    31 0x7fffffff 1 1 | 0xffffffff;
    32 0x80000000 32 0xffffffff | 0x80000000ffffffff;
    32 0xffffffff 32 0x80000000 | 0xffffffff80000000;
    1 1 64 0xffffffffffffffff | 0x1ffffffffffffffff;
    1 1 64 0x8000000000000000 | 0x18000000000000000;
    64 0x8000000000000000 64 0xffffffffffffffff | 0x8000000000000000ffffffffffffffff;
    64 0xffffffffffffffff 64 0x8000000000000000 | 0xffffffffffffffff8000000000000000;
    63 0x4000000000000000 65 0x1ffffffffffffffff | 0x8000000000000001ffffffffffffffff;
    63 0x7fffffffffffffff 65 0x10000000000000000 | 0xffffffffffffffff0000000000000000;
    127 0x40000000000000000000000000000000 1 1 | 0x80000000000000000000000000000001;
    127 0x7fffffffffffffffffffffffffffffff 1 1 | 0xffffffffffffffffffffffffffffffff;
    1 1 127 0x7fffffffffffffffffffffffffffffff | 0xffffffffffffffffffffffffffffffff;
    1 1 127 0x40000000000000000000000000000000 | 0xc0000000000000000000000000000000
};

// A width, an operand, a position, the width of the part, and the result of `select`.
pub static SELECTED: [(u8, u128, i128, u8, [u128; 1]); 52] = rows! {
    1 1 0 2 | 1;
    1 1 -1 1 | 0;
    1 1 0 1 | 1;
    1 1 1 1 | 0;
    1 1 -128 128 | 0;
    2 3 1 2 | 1;
    2 3 -1 2 | 2;
    2 2 0 2 | 2;
    2 3 2 1 | 0;
    2 3 -128 128 | 0;
    31 0x7fffffff 30 2 | 1;
    31 0x7fffffff -1 31 | 0x7ffffffe;
    31 0x40000000 0 31 | 0x40000000;
    31 0x7fffffff 31 1 | 0;
    31 0x7fffffff -128 128 | 0;
    32 0xffffffff 31 2 | 1;
    32 0xffffffff -1 32 | 0xfffffffe;
    32 0x80000000 0 32 | 0x80000000;
    32 0xffffffff 32 1 | 0;
    32 0xffffffff -128 128 | 0;
    33 0x1ffffffff 32 2 | 1;
    33 0x1ffffffff -1 33 | 0x1fffffffe;
    33 0x100000000 0 33 | 0x100000000;
    33 0x1ffffffff 33 1 | 0;
    33 0x1ffffffff -128 128 | 0;
    63 0x7fffffffffffffff 62 2 | 1;
    63 0x7fffffffffffffff -1 63 | 0x7ffffffffffffffe;
    63 0x4000000000000000 0 63 | 0x4000000000000000;
    63 0x7fffffffffffffff 63 1 | 0;
    63 0x7fffffffffffffff -128 128 | 0;
    64 0xffffffffffffffff 63 2 | 1;
    64 0xffffffffffffffff -1 64 | 0xfffffffffffffffe;
    64 0x8000000000000000 0 64 | 0x8000000000000000;
    64 0xffffffffffffffff 64 1 | 0;
    64 0xffffffffffffffff -128 128 | 0;
    65 0x1ffffffffffffffff 64 2 | 1;
    65 0x1ffffffffffffffff -1 65 | 0x1fffffffffffffffe;
    65 0x10000000000000000 0 65 | 0x10000000000000000;
    65 0x1ffffffffffffffff 65 1 | 0;
    65 0x1ffffffffffffffff -128 128 | 0;
    127 0x7fffffffffffffffffffffffffffffff 126 2 | 1;
    127 0x7fffffffffffffffffffffffffffffff -1 127 | 0x7ffffffffffffffffffffffffffffffe;
    127 0x40000000000000000000000000000000 0 127 | 0x40000000000000000000000000000000;
    127 0x7fffffffffffffffffffffffffffffff 127 1 | 0;
    127 0x7fffffffffffffffffffffffffffffff -128 128 | 0;
    128 0xffffffffffffffffffffffffffffffff 127 2 | 1;
    128 0xffffffffffffffffffffffffffffffff -1 128 | 0xfffffffffffffffffffffffffffffffe;
    128 0x80000000000000000000000000000000 0 128 | 0x80000000000000000000000000000000;
    128 0xffffffffffffffffffffffffffffffff 128 1 | 0;
    128 0xffffffffffffffffffffffffffffffff -128 128 | 0;
    128 0xffffffffffffffffffffffffffffffff 170141183460469231731687303715884105727 128 | 0;
    128 0xffffffffffffffffffffffffffffffff -170141183460469231731687303715884105728 128 | 0
};

// A width, an operand, a position, a part's width and value, and the result of `replace`.
pub static REPLACED: [(u8, u128, i128, u8, u128, [u128; 1]); 42] = rows! {
    1 0 0 2 3 | 1;
    1 1 -1 2 0 | 0;
    1 1 1 1 0 | 1;
    1 1 0 1 1 | 1;
    2 0 1 2 3 | 2;
    2 3 -1 2 0 | 2;
    2 3 2 1 0 | 3;
    2 2 0 1 1 | 3;
    31 0 30 2 3 | 0x40000000;
    31 0x7fffffff -1 2 0 | 0x7ffffffe;
    31 0x7fffffff 31 1 0 | 0x7fffffff;
    31 0x40000000 0 1 1 | 0x40000001;
    32 0 31 2 3 | 0x80000000;
    32 0xffffffff -1 2 0 | 0xfffffffe;
    32 0xffffffff 32 1 0 | 0xffffffff;
    32 0x80000000 0 1 1 | 0x80000001;
    33 0 32 2 3 | 0x100000000;
    33 0x1ffffffff -1 2 0 | 0x1fffffffe;
    33 0x1ffffffff 33 1 0 | 0x1ffffffff;
    33 0x100000000 0 1 1 | 0x100000001;
    63 0 62 2 3 | 0x4000000000000000;
    63 0x7fffffffffffffff -1 2 0 | 0x7ffffffffffffffe;
    63 0x7fffffffffffffff 63 1 0 | 0x7fffffffffffffff;
    63 0x4000000000000000 0 1 1 | 0x4000000000000001;
    64 0 63 2 3 | 0x8000000000000000;
    64 0xffffffffffffffff -1 2 0 | 0xfffffffffffffffe;
    64 0xffffffffffffffff 64 1 0 | 0xffffffffffffffff;
    64 0x8000000000000000 0 1 1 | 0x8000000000000001;
    65 0 64 2 3 | 0x10000000000000000;
    65 0x1ffffffffffffffff -1 2 0 | 0x1fffffffffffffffe;
    65 0x1ffffffffffffffff 65 1 0 | 0x1ffffffffffffffff;
    65 0x10000000000000000 0 1 1 | 0x10000000000000001;
    127 0 126 2 3 | 0x40000000000000000000000000000000;
    127 0x7fffffffffffffffffffffffffffffff -1 2 0 | 0x7ffffffffffffffffffffffffffffffe;
    127 0x7fffffffffffffffffffffffffffffff 127 1 0 | 0x7fffffffffffffffffffffffffffffff;
    127 0x40000000000000000000000000000000 0 1 1 | 0x40000000000000000000000000000001;
    128 0 127 2 3 | 0x80000000000000000000000000000000;
    128 0xffffffffffffffffffffffffffffffff -1 2 0 | 0xfffffffffffffffffffffffffffffffe;
    128 0xffffffffffffffffffffffffffffffff 128 1 0 | 0xffffffffffffffffffffffffffffffff;
    128 0x80000000000000000000000000000000 0 1 1 | 0x80000000000000000000000000000001;
    128 0 170141183460469231731687303715884105727 128 0xffffffffffffffffffffffffffffffff | 0;
    128 0 -170141183460469231731687303715884105728 128 0xffffffffffffffffffffffffffffffff | 0
};
